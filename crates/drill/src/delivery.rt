//! Parses the lines that deliver a packet to the server.
ghost use Rattle.std.specs.Prelude.{◌≡◌, ◌≤◌, IfSome};
ghost use Rattle.drill.specs.Deliveries.{delivery_by, stop_of};

use crate::turn::count_of;
use feeder::Stop;

/// The delivery of a packet, and the moment at which the server crashes, if it does.
#[derive(Clone, Copy)]
pub(crate) struct Delivery {
    /// The number of the packet, from 1.
    pub(crate) packet: u64,
    pub(crate) stop: Stop,
}

/// Parses a delivery by the first word of its line and the rest: `deliver K`, `stop-before K` or
/// `stop-after K`. Returns `None` for any other line.
pub(crate) fn delivery_by(word: &[u8], words: &[u8]) -> Option<Delivery>
    ensures value { result ≡ delivery_by word.now words.now }
    ensures least { IfSome result (λ d. 1 ≤ d.packet) }
{
    let stop = stop_of(word)?;
    let packet = count_of(words)?;
    Some(Delivery { packet, stop })
}

// Returns the moment of the crash that the first word of a line names.
fn stop_of(word: &[u8]) -> Option<Stop>
    ensures { result ≡ stop_of word.now }
{
    if word == b"deliver".as_slice() {
        Some(Stop::No)
    } else if word == b"stop-before".as_slice() {
        Some(Stop::Before)
    } else if word == b"stop-after".as_slice() {
        Some(Stop::After)
    } else {
        None
    }
}
