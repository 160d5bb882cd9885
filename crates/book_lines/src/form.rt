//! The two forms of output lines.

/// The form of output lines.
#[derive(Clone, Copy, Debug, PartialEq, Eq)]
pub enum Form {
    /// The kind of the line, followed by its values, each after a space.
    Columns,
    /// A JSON object (RFC 8259).
    Json,
}
