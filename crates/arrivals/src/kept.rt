//! The response to an arrival.
use store_data::Bytes;

/// The response to an arrival: an HTTP status and a JSON body (this project's profile).
#[derive(Drop)]
pub struct Kept {
    /// The status: 200, or 409 for a refusal.
    pub status: u16,
    /// The body, which is compact JSON.
    pub body: Bytes,
}
