//! The outcome of a connection.

/// The end of a connection.
#[derive(Clone, Copy, Debug, PartialEq, Eq)]
pub enum End {
    /// The whole response was written.
    Answered,
    /// The message ended too early, and nothing was written.
    Broken,
    /// The writer failed or took no bytes, and only a prefix of the response was written.
    WriteFailed,
}

/// The outcome of a connection.
#[derive(Clone, Copy, Debug, PartialEq, Eq)]
pub struct Served {
    /// The end of the connection.
    pub end: End,
    /// `true` if an arrival was decided, that is, no fault of the store ended it. It stays decided
    /// even if its reply couldn't be written.
    pub decided: bool,
}
