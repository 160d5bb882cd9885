//! A reply that a store keeps.
use store_data::Name;

/// A kept reply, with its client, its request number and the request bytes (`ask`).
#[derive(Clone, Copy)]
pub struct Entry<'a> {
    pub client: &'a Name,
    pub number: u64,
    pub ask: &'a [u8],
    pub status: u16,
    pub body: &'a [u8],
}
