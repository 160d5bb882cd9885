//! The output of `shopbook machines`: the machines and all other clients.
ghost use Rattle.std.specs.Prelude.{◌≡◌, ◌++◌, ℕ, IfOk, List, OnOk, Some};
ghost use Rattle.std.specs.Prelude.{find, fold, max, option_map, slice_get};
ghost use Rattle.job_facts.specs.Contents.{AreSound, Contents, Entry, Mark};
ghost use Rattle.job_facts.specs.States.{is_running};
ghost use Rattle.table_rows.specs.Tables.{HaveSameRows, StoredSession as SessionValue};
ghost use Rattle.table_rows.specs.Tables.{Tables as TablesValue};
ghost use Rattle.image_laws.specs.Image.{image};
ghost use Rattle.book_lines.specs.Lines.{line_text, lines_by};
ghost use Rattle.book_lines.specs.Machines.{IsMachine, boot_above, boot_of, clients_of};
ghost use Rattle.book_lines.specs.Machines.{machine_line, machines_text};

use crate::by_client::{ByClient, by_client};
use crate::cell::{number, optional, optional_digits, word};
use crate::form::Form;
use crate::keyed::{Keyed, first_with};
use crate::line::push_line;
use audit_order::range_of;
use job_facts::SessionState;
use std::alloc::{AllocError, Global};
use table_rows::{StoredMark, StoredReply, StoredSession, Tables};

/// The number of request numbers of each boot number. Request k of boot number 1 has the number
/// 10,000,000 + k.
const BOOT: u64 = 10_000_000;

/// The maximum boot number.
const LAST_BOOT: u64 = 9_999_999_999;

/// Returns the output of `shopbook machines`: a line for each client, the machines of sessions
/// first. A line has the running session, the release mark, the number of kept replies, and the
/// next boot number. They agree with the contents that the rows represent, and no request number of
/// the next boot number or of a higher one is kept or released.
///
/// Takes O(n log n) time for n sessions, kept replies and release marks.
///
/// # Errors
///
/// Returns `AllocError` if an allocation fails.
pub fn machines_text(alloc: Global, form: Form, tables: &Tables) -> Result<Vec<u8>, AllocError>
    ensures text { IfOk result (λ text. text.items ≡ machines_text form tables.now) }
    ensures machines { (c : Contents) (client : List ℕ) → AreSound c
        → HaveSameRows tables.now (image c) → IsMachine tables.now c client }
{
    lines_are_of_machines();
    let rows = by_client(alloc, tables)?;
    let mut text = Vec::new(alloc);
    push_machines(&mut text, form, &rows)?;
    Ok(text)
}

// Lemma: the line of each client agrees with the contents that the rows represent.
fn lines_are_of_machines()
    ensures { (t : TablesValue) (c : Contents) (client : List ℕ) → AreSound c
        → HaveSameRows t (image c) → IsMachine t c client }
{}

// ---- lines

fn push_machines(text: &mut Vec<u8>, form: Form, rows: &ByClient<'_>) -> Result<(), AllocError>
    ensures { OnOk result (text.new.items ≡ text.old.items
        ++ lines_by form (machine_line rows.now.tables.now) (clients_of rows.now.tables.now)) }
{
    for (place, client) in rows.clients.names.iter().enumerate() {
        push_machine(text, form, rows, place, client.name)?;
    }
    Ok(())
}

// Appends the line of the client `client`, which is at the position `place`.
fn push_machine(
    text: &mut Vec<u8>,
    form: Form,
    rows: &ByClient<'_>,
    place: usize,
    client: &[u8],
) -> Result<(), AllocError>
    requires { slice_get rows.now.clients.names.items place ≡ Some client.now }
    ensures { OnOk result (text.new.items ≡ text.old.items
        ++ line_text form (machine_line rows.now.tables.now client.now)) }
{
    let sessions = range_of(&rows.sessions, place as u64);
    let replies = range_of(&rows.replies, place as u64);
    let upto = upto_of(range_of(&rows.marks, place as u64));
    let cells = [
        word("name", client),
        optional("running", running_in(sessions)),
        optional_digits("mark", upto),
        number("kept", replies.len() as u64),
        optional("boot", next_boot(upto.unwrap_or(0), replies)),
    ];
    push_line(text, form, "machine", &cells)
}

// Returns the number of the first running session in `sessions`.
fn running_in(sessions: &[Keyed<'_, StoredSession>]) -> Option<u64>
    ensures { result ≡ option_map (λ (k : ℕ × SessionValue). k.1.id)
        (find (λ (k : ℕ × SessionValue). is_running k.1.state) sessions.now) }
{
    let session = first_with(sessions, SessionState::Running)?;
    Some(session.id)
}

// Returns the first release mark in `marks`.
fn upto_of(marks: &[Keyed<'_, StoredMark>]) -> Option<u64>
    ensures { result
        ≡ option_map (λ (k : ℕ × Mark). k.1.upto) (slice_get marks.now 0) }
{
    let mark = marks.first()?;
    let row = mark.row;
    Some(row.upto)
}

// ---- boot numbers

// Returns the boot number after the highest one in the release mark `upto` and in `replies`, or
// `None` if that is the maximum.
fn next_boot(upto: u64, replies: &[Keyed<'_, StoredReply>]) -> Option<u64>
    ensures { result ≡ boot_above (fold (λ last (k : ℕ × Entry). max last (boot_of k.1.number))
        (boot_of upto) replies.now) }
{
    let last = last_boot(boot_of(upto), replies);
    if last < LAST_BOOT {
        Some(last + 1)
    } else {
        None
    }
}

// Returns the highest boot number in `replies`, but at least `boot`.
fn last_boot(boot: u64, replies: &[Keyed<'_, StoredReply>]) -> u64
    ensures { result
        ≡ fold (λ last (k : ℕ × Entry). max last (boot_of k.1.number)) boot replies.now }
{
    let mut last = boot;
    for reply in replies {
        let row = reply.row;
        last = last.max(boot_of(row.number));
    }
    last
}

// Returns the boot number of the request number `number`.
fn boot_of(number: u64) -> u64
    ensures { result ≡ boot_of number }
{
    number / BOOT
}
