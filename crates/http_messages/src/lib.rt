//! Parses the bytes of a connection as an HTTP/1.1 message (RFC 9112), and writes the heads of
//! responses and requests.
#![tactic(auto)]

mod first_line;
mod fixed;
mod flaw;
mod head;
mod message;
mod parts;
mod reading;
mod reply;
mod request_head;
mod settled;
mod source;

pub use first_line::request_line;
pub use fixed::FixedReply;
pub use flaw::{Flaw, Member};
pub use message::{Message, Reading, read_message};
pub use parts::reply_parts;
pub use reply::{Content, Method, reply_head};
pub use request_head::push_request_head;
pub use settled::{MOST_HEAD, Progress, progress_from, progress_of};
pub use source::{ByteSource, Pieces};
