//! The rows that belong to clients, for look-ups by client.
ghost use Rattle.std.specs.Prelude.{◌≡◌, ℕ, IfOk, List, map};
ghost use Rattle.job_facts.specs.Contents.{Entry, Mark};
ghost use Rattle.table_rows.specs.Tables.{StoredSession as SessionValue};
ghost use Rattle.book_lines.specs.Keyed.{AreKeyed, place_of};
ghost use Rattle.book_lines.specs.Machines.{clients_of};

use crate::client::OfClient;
use crate::clients::{Clients, clients_of, place_of};
use crate::keyed::Keyed;
use audit_order::sort_rows;
use std::alloc::{AllocError, Global};
use table_rows::{StoredMark, StoredReply, StoredSession, Tables};

/// The clients of a database. Each row that belongs to a client is keyed by the position of the
/// client, and the rows are sorted by their keys.
#[derive(Drop)]
pub(crate) struct ByClient<'a> {
    // The clauses name the rows of these tables.
    pub(crate) tables: &'a Tables,
    pub(crate) clients: Clients<'a>,
    pub(crate) sessions: Vec<Keyed<'a, StoredSession>>,
    pub(crate) replies: Vec<Keyed<'a, StoredReply>>,
    pub(crate) marks: Vec<Keyed<'a, StoredMark>>,
    ghost clients_are: { clients.names.items ≡ clients_of tables.now },
    ghost sessions_are: { AreKeyed (λ (s : SessionValue). place_of clients.names.items s.machine)
        tables.now.sessions sessions.items },
    ghost replies_are: { AreKeyed (λ (e : Entry). place_of clients.names.items e.client)
        tables.now.replies replies.items },
    ghost marks_are: { AreKeyed (λ (m : Mark). place_of clients.names.items m.client)
        tables.now.marks marks.items },
}

/// Returns the rows of `tables` that belong to clients.
///
/// Takes O(n log n) time for n rows.
///
/// # Errors
///
/// Returns `AllocError` if an allocation fails.
pub(crate) fn by_client(alloc: Global, tables: &Tables) -> Result<ByClient<'_>, AllocError>
    ensures { IfOk result (λ rows. rows.tables.now ≡ tables.now) }
{
    let clients = clients_of(alloc, tables)?;
    let sessions = keyed_by(alloc, &clients, &tables.sessions)?;
    let replies = keyed_by(alloc, &clients, &tables.replies)?;
    let marks = keyed_by(alloc, &clients, &tables.marks)?;
    Ok(ByClient {
        tables,
        clients,
        sessions,
        replies,
        marks,
    })
}

// ---- keys

// Returns `rows` keyed by the positions of their clients, and sorted by their keys.
fn keyed_by<'a, T: OfClient>(
    alloc: Global,
    clients: &Clients<'_>,
    rows: &'a [T],
) -> Result<Vec<Keyed<'a, T>>, AllocError>
    ensures { IfOk result (λ keyed.
        AreKeyed (λ row. place_of clients.now.names.items (T.client row)) rows.now keyed.items) }
{
    let mut keyed = places(alloc, clients, rows)?;
    sort_rows(&mut keyed)?;
    Ok(keyed)
}

// Returns `rows` keyed by the positions of their clients, in the order of `rows`.
fn places<'a, T: OfClient>(
    alloc: Global,
    clients: &Clients<'_>,
    rows: &'a [T],
) -> Result<Vec<Keyed<'a, T>>, AllocError>
    ensures { IfOk result (λ keyed. keyed.items
        ≡ map (λ row. (place_of clients.now.names.items (T.client row), row)) rows.now) }
{
    let mut keyed = Vec::with_capacity(alloc, rows.len())?;
    for row in rows {
        let number = place_of(clients, row.client());
        keyed.push(Keyed { number, row })?;
    }
    Ok(keyed)
}
