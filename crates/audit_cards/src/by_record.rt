//! Sorts sessions by their records.
ghost use Rattle.std.specs.Prelude.{◌≡◌, ◌==◌, ◌∷◌, [], IfOk, filter};
ghost use Rattle.std.specs.List.Sorted.{IsNonDecreasingBy};
ghost use Rattle.table_rows.specs.Tables.{StoredSession as SessionValue};
ghost use Rattle.audit_cards.specs.Sessions.{AreByRecord};

use audit_order::{InOrder, Ranged, sort_rows};
use job_facts::SessionState;
use std::alloc::{AllocError, Global};
use std::marker::Model;
use table_rows::StoredSession;

/// A reference to the row of a session. Sorting moves the references and not the rows.
#[derive(Drop)]
pub(crate) struct SessionRef<'a> {
    pub(crate) row: &'a StoredSession,
}

impl<'a> Model for SessionRef<'a> {
    ghost use Rattle.table_rows.specs.Tables.{StoredSession as SessionValue};

    ghost Value = { SessionValue };

    ghost view = { λ s. s.row.now };
}

impl<'a> SessionRef<'a> {
    /// Returns the place of the record in its batch.
    pub(crate) fn place(&self) -> u64
        ensures { result ≡ self.now.place }
    {
        let row = self.row;
        row.place
    }

    /// Returns the state of the session.
    pub(crate) fn state(&self) -> SessionState
        ensures { result ≡ self.now.state }
    {
        let row = self.row;
        row.state
    }
}

/// Sessions are sorted by batch and place.
impl<'a> InOrder for SessionRef<'a> {
    ghost key = { λ s. s.batch ∷ s.place ∷ 0 ∷ [] };

    fn key(&self) -> [u64; 3] {
        let row = self.row;
        [row.batch, row.place, 0]
    }
}

/// A session is found by the id of its batch.
impl<'a> Ranged for SessionRef<'a> {
    ghost number = { λ s. s.batch };

    fn number(&self) -> u64 {
        let row = self.row;
        row.batch
    }
}

// Returns references to the rows of `sessions`, in their order.
fn refs(alloc: Global, sessions: &[StoredSession]) -> Result<Vec<SessionRef<'_>>, AllocError>
    ensures { IfOk result (λ refs. refs.items ≡ sessions.now) }
{
    let mut refs = Vec::with_capacity(alloc, sessions.len())?;
    for row in sessions {
        refs.push(SessionRef { row })?;
    }
    Ok(refs)
}

/// Returns the sessions in the order of their records.
///
/// # Errors
///
/// Returns `AllocError` if an allocation fails.
pub(crate) fn by_record(
    alloc: Global,
    sessions: &[StoredSession],
) -> Result<Vec<SessionRef<'_>>, AllocError>
    ensures { IfOk result (λ by_record. AreByRecord sessions.now by_record.items) }
{
    let mut rows = refs(alloc, sessions)?;
    sort_rows(&mut rows)?;
    Ok(rows)
}

/// Returns the sessions of the record at `place`. `sessions` are the sessions of one batch, sorted
/// by place.
pub(crate) fn sessions_at<'a, 'b>(
    sessions: &'b [SessionRef<'a>],
    place: u64,
) -> &'b [SessionRef<'a>]
    requires { IsNonDecreasingBy (λ (s : SessionValue). s.place) sessions.now }
    ensures { result.now ≡ filter (λ (s : SessionValue). s.place == place) sessions.now }
{
    let first = sessions.partition_point(|session| session.place() < place);
    let rest = &sessions[first..];
    let count = rest.partition_point(|session| session.place() <= place);
    &rest[..count]
}
