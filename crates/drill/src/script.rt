//! Parses the lines of a drill that send a request to the server, and builds their messages.
ghost use Rattle.std.specs.Prelude.{◌≡◌, ◌++◌, ◌≤◌, IfOk, IfSome, bytes_eq, codes, drop};
ghost use Rattle.std.specs.Prelude.{length, map, option_map, position};
ghost use Rattle.std.specs.List.{flat_map};
ghost use Rattle.wire.specs.Asks.{import_tail};
ghost use Rattle.text_io.specs.Written.{line};
ghost use Rattle.drill.specs.Scripts.{asked, get, import_of, numbered, office_of};
ghost use Rattle.drill.specs.Scripts.{post, shown, step_by, target_of};

use http_messages::push_request_head;
use std::alloc::{AllocError, Global};
use store_data::Name;
use text_io::{is_number, word_of};

/// Returns the message of a request, and how many of the lines after it are its batch file. Returns
/// `None` if these lines have no end of a file.
pub(crate) fn asked(
    alloc: Global,
    step: Step<'_>,
    behind: &[&[u8]],
) -> Result<Option<(Vec<u8>, usize)>, AllocError>
    ensures value { IfOk result
        (λ found. option_map (λ p. (p.0.items, drop p.1 (map (λ l. l.now) behind.now))) found
        ≡ asked (shown step.entry) (map (λ l. l.now) behind.now)) }
    ensures within { IfOk result (λ found. IfSome found (λ p. p.1 ≤ length behind.now)) }
{
    match step {
        Step::Office { number, body } => Ok(Some((post(alloc, number, body)?, 0))),
        Step::Import {
            number,
            batch,
            product,
        } => {
            let Some(end) = dot_in(behind) else {
                return Ok(None);
            };
            let target = import_target(alloc, number, batch, product)?;
            let file = file_of(alloc, &behind[..end])?;
            Ok(Some((post(alloc, target.as_slice(), file.as_slice())?, end + 1)))
        }
        Step::Get { target } => Ok(Some((get(alloc, target)?, 0))),
    }
}

/// A request to the server.
#[derive(Clone, Copy)]
pub(crate) enum Step<'a> {
    /// A POST with the given body, usually JSON.
    Office {
        number: &'a [u8],
        body: &'a [u8],
    },
    /// A batch file for a product. It is in the following lines.
    Import {
        number: &'a [u8],
        batch: &'a [u8],
        product: &'a [u8],
    },
    /// A GET of an account.
    Get {
        target: &'a [u8],
    },
}

/// Parses a request by the first word of its line and the rest. Returns `None` for any other line.
pub(crate) fn step_by<'a>(word: &[u8], words: &'a [u8]) -> Option<Step<'a>>
    ensures { option_map shown result ≡ step_by word.now words.now }
{
    if word == b"get".as_slice() {
        target_of(words)
    } else if word == b"office".as_slice() {
        office_of(words)
    } else if word == b"import".as_slice() {
        import_of(words)
    } else {
        None
    }
}

// Parses a request number and a body.
fn office_of(words: &[u8]) -> Option<Step<'_>>
    ensures { option_map shown result ≡ office_of words.now }
{
    let (number, body) = numbered(words)?;
    Some(Step::Office { number, body })
}

// Parses a request number, a batch and a product.
fn import_of(words: &[u8]) -> Option<Step<'_>>
    ensures { option_map shown result ≡ import_of words.now }
{
    let (number, names) = numbered(words)?;
    let (batch, product) = word_of(names)?;
    Name::new(batch)?;
    Name::new(product)?;
    Some(Step::Import {
        number,
        batch,
        product,
    })
}

// Parses a target, which is one word.
fn target_of(words: &[u8]) -> Option<Step<'_>>
    ensures { option_map shown result ≡ target_of words.now }
{
    let is_word = !words.is_empty() && !words.contains(&b' ');
    is_word.then_some(Step::Get { target: words })
}

// Splits a line after its request number.
fn numbered(words: &[u8]) -> Option<(&[u8], &[u8])>
    ensures { option_map (λ p. (p.0.now, p.1.now)) result ≡ numbered words.now }
{
    let (number, words) = word_of(words)?;
    is_number(number).then_some((number, words))
}

// Returns the position of the first line `.`.
fn dot_in(lines: &[&[u8]]) -> Option<usize>
    ensures { result ≡ position (λ l. bytes_eq l.now (codes ".")) lines.now }
{
    lines.iter().position(|line| *line == b".".as_slice())
}

// Returns the part of an import's target after the client.
fn import_target(
    alloc: Global,
    number: &[u8],
    batch: &[u8],
    product: &[u8],
) -> Result<Vec<u8>, AllocError>
    ensures { IfOk result (λ t. t.items ≡ number.now ++ import_tail batch.now product.now) }
{
    let mut target = Vec::from_slice(alloc, number)?;
    target.extend_from_slice(b"/batch/")?;
    target.extend_from_slice(batch)?;
    target.push(b'/')?;
    target.extend_from_slice(product)?;
    Ok(target)
}

// Returns the lines of a file, each with LF at its end.
fn file_of(alloc: Global, lines: &[&[u8]]) -> Result<Vec<u8>, AllocError>
    ensures { IfOk result (λ f. f.items ≡ flat_map (λ l. line l.now) lines.now) }
{
    let mut file = Vec::new(alloc);
    for line in lines {
        file.extend_from_slice(line)?;
        file.push(b'\n')?;
    }
    Ok(file)
}

// Returns a request of the client `office`. `target` is the part of the target after the client.
fn post(alloc: Global, target: &[u8], body: &[u8]) -> Result<Vec<u8>, AllocError>
    ensures { IfOk result (λ m. m.items ≡ post target.now body.now) }
{
    let mut path = Vec::from_slice(alloc, b"/c/office/")?;
    path.extend_from_slice(target)?;
    let mut message = Vec::new(alloc);
    push_request_head(&mut message, path.as_slice(), body.len())?;
    message.extend_from_slice(body)?;
    Ok(message)
}

fn get(alloc: Global, target: &[u8]) -> Result<Vec<u8>, AllocError>
    ensures { IfOk result (λ m. m.items ≡ get target.now) }
{
    let mut message = Vec::from_slice(alloc, b"GET ")?;
    message.extend_from_slice(target)?;
    message.extend_from_slice(b" HTTP/1.1\r\nHost: localhost\r\n\r\n")?;
    Ok(message)
}
