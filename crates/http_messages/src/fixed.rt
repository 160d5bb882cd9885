//! The fixed responses to messages that contain no valid request or can't be processed.
ghost use Rattle.std.specs.Prelude.{◌≡◌};
ghost use Rattle.http_messages.specs.FixedReplies.{body_of, kind_of, status_of};

use crate::flaw::Flaw;
use crate::reply::{Content, Method};
use http::StatusCode;

/// The reason for a fixed response (this project's profile).
#[derive(Clone, Copy, Debug, PartialEq, Eq)]
pub enum FixedReply {
    /// An invalid head, name, request number or JSON body (status 400). The response doesn't depend
    /// on the flaw.
    Malformed(Flaw),
    /// A path that the server doesn't serve (status 404).
    NoRoute,
    /// A method other than the given one, which is the only method of the path (status 405).
    OnlyMethod(Method),
    /// A body of more than `MOST_INPUT` bytes (status 413).
    TooLarge,
    /// A head of more than 8,192 bytes, or with more than 34 pairs CR LF (status 431).
    HeadTooLarge,
    /// A fault of the store, or a failed allocation (status 503).
    Storage,
}

impl FixedReply {
    /// Returns the status code of the response (RFC 9110 section 15; RFC 6585 section 5).
    pub fn status(self) -> u16
        ensures { result ≡ status_of self }
    {
        let status = match self {
            FixedReply::Malformed(_) => StatusCode::BAD_REQUEST,
            FixedReply::NoRoute => StatusCode::NOT_FOUND,
            FixedReply::OnlyMethod(_) => StatusCode::METHOD_NOT_ALLOWED,
            FixedReply::TooLarge => StatusCode::PAYLOAD_TOO_LARGE,
            FixedReply::HeadTooLarge => StatusCode::REQUEST_HEADER_FIELDS_TOO_LARGE,
            FixedReply::Storage => StatusCode::SERVICE_UNAVAILABLE,
        };
        status.as_u16()
    }

    /// Returns the kind of the response's content.
    pub fn kind(self) -> Content
        ensures { result ≡ kind_of self }
    {
        match self {
            FixedReply::OnlyMethod(method) => Content::OnlyMethod(method),
            _ => Content::Json,
        }
    }

    /// Returns the body of the response.
    pub fn body(self) -> &'static [u8]
        ensures { result.now ≡ body_of self }
    {
        match self {
            FixedReply::Malformed(_) => br#"{"code":400,"refused":"malformed"}"#,
            FixedReply::NoRoute => br#"{"code":404,"refused":"no-route"}"#,
            FixedReply::OnlyMethod(_) => br#"{"code":405,"refused":"method"}"#,
            FixedReply::TooLarge => br#"{"code":413,"refused":"too-large"}"#,
            FixedReply::HeadTooLarge => br#"{"code":431,"refused":"head-too-large"}"#,
            FixedReply::Storage => br#"{"code":503,"refused":"storage"}"#,
        }
    }
}
