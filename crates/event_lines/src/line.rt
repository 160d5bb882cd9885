//! Builds an event line.
ghost use Rattle.std.specs.Prelude.{◌≡◌, ◌∷◌, ◌++◌, [], IfOk, OnOk};
ghost use Rattle.std.specs.List.{flat_map};
ghost use Rattle.event_lines.specs.Lines.{escaped, is_plain, number_pair, pair, quoted_pair};
ghost use Rattle.event_lines.specs.Views.{text_of};

use itoa::Buffer;
use std::alloc::{AllocError, Global};

/// An event line without the LF at its end.
#[derive(Drop)]
pub struct EventLine {
    alloc: Global,
    text: Vec<u8>,
}

impl EventLine {
    /// Creates a line that consists of the word `event`.
    ///
    /// # Errors
    ///
    /// Fails only if an allocation fails, as all functions here.
    pub fn new(alloc: Global, event: &str) -> Result<EventLine, AllocError>
        ensures { IfOk result (λ line. text_of line ≡ event.now) }
    {
        let text = Vec::from_slice(alloc, event.as_bytes())?;
        Ok(EventLine { alloc, text })
    }

    /// Adds ` key=number`, in decimal.
    pub fn number(self, key: &str, number: u64) -> Result<EventLine, AllocError>
        ensures { IfOk result (λ line. text_of line ≡ text_of self ++ number_pair key.now number) }
    {
        let mut text = Buffer::new();
        self.word(key, text.format(number))
    }

    /// Adds ` key=word`. `word` isn't escaped, so it must come from the program itself.
    pub fn word(self, key: &str, word: &str) -> Result<EventLine, AllocError>
        ensures { IfOk result (λ line. text_of line ≡ text_of self ++ pair key.now word.now) }
    {
        let EventLine { alloc, mut text } = self;
        push_key(&mut text, key)?;
        text.extend_from_slice(word.as_bytes())?;
        Ok(EventLine { alloc, text })
    }

    /// Adds ` key="bytes"`. Each quote, each backslash and each byte that isn't a printable ASCII
    /// character is written as `\x` and two hexadecimal digits.
    pub fn quoted(self, key: &str, bytes: &[u8]) -> Result<EventLine, AllocError>
        ensures { IfOk result
            (λ line. text_of line ≡ text_of self ++ quoted_pair key.now bytes.now) }
    {
        let EventLine { alloc, mut text } = self;
        push_key(&mut text, key)?;
        text.push(b'"')?;
        push_all(alloc, &mut text, bytes)?;
        text.push(b'"')?;
        Ok(EventLine { alloc, text })
    }

    /// Returns the bytes of the line, with LF at the end.
    pub fn into_bytes(self) -> Result<Vec<u8>, AllocError>
        ensures { IfOk result (λ bytes. bytes.items ≡ text_of self ++ 10 ∷ []) }
    {
        let EventLine { alloc: _, mut text } = self;
        text.push(b'\n')?;
        Ok(text)
    }
}

// Adds a space, a key and an equals sign.
fn push_key(text: &mut Vec<u8>, key: &str) -> Result<(), AllocError>
    ensures { OnOk result (text.new.items ≡ text.old.items ++ 32 ∷ key.now ++ 61 ∷ []) }
{
    text.push(b' ')?;
    text.extend_from_slice(key.as_bytes())?;
    text.push(b'=')?;
    Ok(())
}

// Adds the escaped form of `bytes`.
fn push_all(alloc: Global, text: &mut Vec<u8>, bytes: &[u8]) -> Result<(), AllocError>
    ensures { OnOk result (text.new.items ≡ text.old.items ++ flat_map escaped bytes.now) }
{
    for byte in bytes {
        push_escaped(alloc, text, *byte)?;
    }
    Ok(())
}

// Adds the escaped form of `byte`.
fn push_escaped(alloc: Global, text: &mut Vec<u8>, byte: u8) -> Result<(), AllocError>
    ensures { OnOk result (text.new.items ≡ text.old.items ++ escaped byte) }
{
    if is_plain(byte) {
        text.push(byte)?;
    } else {
        let digits = hex::encode_upper(alloc, [byte])?;
        text.extend_from_slice(b"\\x")?;
        text.extend_from_slice(digits.as_bytes())?;
    }
    Ok(())
}

// Returns `true` if `byte` needs no escape.
fn is_plain(byte: u8) -> bool
    ensures { result ≡ is_plain byte }
{
    b' ' <= byte && byte <= b'~' && byte != b'"' && byte != b'\\'
}
