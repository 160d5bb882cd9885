//! Makes the HTTP/1.1 messages (RFC 9112) of requests, and parses responses. The crate also exports
//! the functions that read requests and write the heads of responses.
#![tactic(auto)]

ghost use Rattle.wire.specs.ReplyText.{AreDistinctReplies};

mod parse;
mod sending;

pub use http_messages::{
    ByteSource, Content, FixedReply, Message, Method, Pieces, Reading, read_message, reply_head,
    reply_parts,
};
pub use http_requests::{AskFault, Asked, Wanted, to_ask};
pub use parse::parse_reply;
pub use sending::request_text;

/// Lemma: two different replies never have the same text.
pub fn replies_are_distinct()
    ensures { AreDistinctReplies }
{}
