//! Boot numbers, packets and replies of a shop floor.
use store_data::{Bytes, Name};

/// A boot number that a machine used.
#[derive(Clone, Copy)]
pub struct Boot {
    pub machine: Name,
    /// The boot number, 1 to 9,999,999,999.
    pub boot: u64,
}

/// A request that a machine sent, with its request number.
#[derive(Drop)]
pub struct Packet {
    pub machine: Name,
    pub number: u64,
    /// The complete message with head and body.
    pub message: Bytes,
}

/// A response, the machine that sent its request, and the request number.
#[derive(Drop)]
pub struct Returned {
    pub machine: Name,
    pub number: u64,
    /// The complete response, from its status line to its body.
    pub bytes: Bytes,
}
