//! The event line of a refused batch file.
ghost use Rattle.std.specs.Prelude.{◌≡◌, ◌∷◌, ◌++◌, [], IfOk, None, Some, bytes_eq};
ghost use Rattle.std.specs.Prelude.{if◌then◌else◌};
ghost use Rattle.event_lines.specs.Notes.{NotesAll};
ghost use Rattle.event_lines.specs.Views.{text_of};
ghost use Rattle.store_data.specs.Sequence.{IsProduct};
ghost use Rattle.batch_import.specs.Batch.{batch_of};
ghost use Rattle.batch_import.specs.Kinds.{name_of};
ghost use Rattle.import_causes.specs.Explanations.{cause_pair, explanation_of, fault_lines};
ghost use Rattle.import_causes.specs.Explanations.{fault_named, fault_text, label_pair};
ghost use Rattle.import_causes.specs.Explanations.{optional_pair, refused_lines, start_pairs};

use crate::cause::Cause;
use crate::explanation::{Explanation, explain_fault};
use crate::start::{RowLabel, RowStart};
use batch_import::{ImportFault, RowFault, check_batch};
use event_lines::{EventLine, EventLog};
use std::alloc::{AllocError, Global};
use std::io::Write;
use store_data::Product;

/// Writes the event line with the cause of `fault`, the fault of the batch file `raw` for
/// `product`. The file is read again only if the level isn't `Off`. If a write or an allocation
/// fails, only a prefix of the line is written.
pub fn note_fault<E: Write + Drop>(
    alloc: Global,
    raw: &[u8],
    product: &Product,
    fault: RowFault,
    events: &mut EventLog<E>,
)
    requires { IsProduct product.now }
    ensures level { events.new.level ≡ events.old.level }
    ensures noted { NotesAll events.old.level (E.contents events.old.writer)
        (E.contents events.new.writer)
        (fault_text (explanation_of raw.now product.now fault) ∷ []) }
{
    if events.is_on() {
        events.note(explained_line(alloc, raw, product, fault));
    }
}

/// Writes the event line of a reply that refuses the import of the batch file `raw` for `product`.
/// `name` is the name of the refusal. If the refusal isn't a fault of the file, nothing is written.
/// The file is read again only if the level isn't `Off`. If a write or an allocation fails, only a
/// prefix of the line is written.
pub fn note_refused<E: Write + Drop>(
    alloc: Global,
    raw: &[u8],
    product: &Product,
    name: &str,
    events: &mut EventLog<E>,
)
    requires { IsProduct product.now }
    ensures level { events.new.level ≡ events.old.level }
    ensures noted { NotesAll events.old.level (E.contents events.old.writer)
        (E.contents events.new.writer) (refused_lines raw.now product.now name.now) }
{
    if !events.is_on() {
        return;
    }
    match fault_named(alloc, raw, product, name) {
        Ok(found) => note_found(alloc, raw, product, found, events),
        Err(_) => (),
    }
}

fn note_found<E: Write + Drop>(
    alloc: Global,
    raw: &[u8],
    product: &Product,
    found: Option<RowFault>,
    events: &mut EventLog<E>,
)
    requires { IsProduct product.now }
    ensures level { events.new.level ≡ events.old.level }
    ensures noted { NotesAll events.old.level (E.contents events.old.writer)
        (E.contents events.new.writer) (fault_lines raw.now product.now found) }
{
    match found {
        Some(fault) => note_fault(alloc, raw, product, fault, events),
        None => (),
    }
}

// Returns the fault of the batch file `raw`, if its name is `name`.
fn fault_named(
    alloc: Global,
    raw: &[u8],
    product: &Product,
    name: &str,
) -> Result<Option<RowFault>, AllocError>
    requires { IsProduct product.now }
    ensures { IfOk result
        (λ found. found ≡ fault_named (batch_of product.now raw.now) name.now) }
{
    match check_batch(alloc, raw, product) {
        Ok(_) => Ok(None),
        Err(ImportFault::At(fault)) => Ok(if_named(fault, name)),
        Err(ImportFault::Memory) => Err(AllocError),
    }
}

fn if_named(fault: RowFault, name: &str) -> Option<RowFault>
    ensures { result ≡ (if bytes_eq name.now (name_of fault.kind) then Some fault else None) }
{
    if name == fault.kind.name() {
        Some(fault)
    } else {
        None
    }
}

fn explained_line(
    alloc: Global,
    raw: &[u8],
    product: &Product,
    fault: RowFault,
) -> Result<EventLine, AllocError>
    requires { IsProduct product.now }
    ensures { IfOk result
        (λ line. text_of line ≡ fault_text (explanation_of raw.now product.now fault)) }
{
    match explain_fault(alloc, raw, product, fault) {
        Ok(explanation) => fault_line(alloc, explanation),
        Err(error) => Err(error),
    }
}

/// Returns the event line of `explanation`. It contains card data only if field 1 of the row has
/// the form of a name but is something else.
///
/// # Errors
///
/// Returns `AllocError` if an allocation fails.
pub fn fault_line(alloc: Global, explanation: Explanation) -> Result<EventLine, AllocError>
    ensures { IfOk result (λ line. text_of line ≡ fault_text explanation) }
{
    let line = EventLine::new(alloc, "fault")?
        .number("code", u64::from(explanation.kind.code()))?
        .word("name", explanation.kind.name())?
        .number("row", u64::from(explanation.row))?;
    let line = with_number(line, "other", explanation.other.map(u64::from))?;
    let line = with_start(line, explanation.start)?;
    let line = with_number(line, "field", explanation.blame.field.map(u64::from))?;
    with_cause(line, explanation.blame.cause)
}

// Adds ` key=number`, if there is a number.
fn with_number(line: EventLine, key: &str, number: Option<u64>) -> Result<EventLine, AllocError>
    ensures { IfOk result (λ more. text_of more ≡ text_of line ++ optional_pair key.now number) }
{
    match number {
        Some(number) => line.number(key, number),
        None => Ok(line),
    }
}

// Adds the line at which the row begins, and its label, if the file has this row.
fn with_start(line: EventLine, start: Option<RowStart>) -> Result<EventLine, AllocError>
    ensures { IfOk result (λ more. text_of more ≡ text_of line ++ start_pairs start) }
{
    match start {
        Some(start) => with_label(line.number("line", start.line)?, start.label),
        None => Ok(line),
    }
}

// Adds field 1 of the row, or the number of its bytes.
fn with_label(line: EventLine, label: RowLabel) -> Result<EventLine, AllocError>
    ensures { IfOk result (λ more. text_of more ≡ text_of line ++ label_pair label) }
{
    match label {
        RowLabel::Record(name) => line.quoted("record", name.bytes()),
        RowLabel::Bytes(count) => line.number("record-bytes", count),
    }
}

// Adds the word of the cause, if there is one.
fn with_cause(line: EventLine, cause: Option<Cause>) -> Result<EventLine, AllocError>
    ensures { IfOk result (λ more. text_of more ≡ text_of line ++ cause_pair cause) }
{
    match cause {
        Some(cause) => line.word("cause", cause.word()),
        None => Ok(line),
    }
}
