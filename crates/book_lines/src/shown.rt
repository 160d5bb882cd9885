//! The value of a cell.

/// The value of a cell.
#[derive(Clone, Copy)]
pub enum Shown<'a> {
    /// No value, shown as `-` in columns and as `null` in JSON.
    Nothing,
    /// A number below 2^53, which every JSON reader reads exactly.
    Number(u64),
    /// A number that can be higher, such as a serial. It is a string of digits in JSON.
    Digits(u64),
    /// A word of plain characters.
    Word(&'a [u8]),
    /// The status word of a card.
    Status(u16),
}
