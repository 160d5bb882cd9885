//! Checks all batches of the tables with everything that belongs to them, and all remakes.
ghost use Rattle.std.specs.Prelude.{◌≡◌, ◌↔◌, IfOk, IsTrue, All, flat_map};
ghost use Rattle.audit_laws.specs.Audited.{turns_of};
ghost use Rattle.audit_order.specs.Order.{AreReady};
ghost use Rattle.audit_cards.specs.Sessions.{AreByRecord, IsAuditedFile};

use crate::batches::is_audited_file;
use crate::by_record::{SessionRef, by_record};
use crate::remakes::are_remakes;
use std::alloc::{AllocError, Global};
use table_rows::{StoredBatch, Tables};

// Returns the sessions of `tables` in the order of their records.
fn sessions_by_record(alloc: Global, tables: &Tables) -> Result<Vec<SessionRef<'_>>, AllocError>
    ensures { IfOk result (λ rows. AreByRecord tables.now.sessions rows.items) }
{
    by_record(alloc, &tables.sessions)
}

// Returns `true` if all `batches` obey the audit rules.
fn are_files(
    alloc: Global,
    tables: &Tables,
    by_record: &[SessionRef<'_>],
    batches: &[StoredBatch],
) -> Result<bool, AllocError>
    requires ready { AreReady tables.now }
    requires sessions { AreByRecord tables.now.sessions by_record.now }
    requires batches { batches.now ≡ tables.now.batches }
    ensures { IfOk result (λ sound. IsTrue sound ↔ All (IsAuditedFile tables.now) batches.now) }
{
    for batch in batches {
        if !is_audited_file(alloc, tables, by_record, batch)? {
            return Ok(false);
        }
    }
    Ok(true)
}

// Returns `true` if all batches of `tables` obey the audit rules.
fn are_all_files(
    alloc: Global,
    tables: &Tables,
    by_record: &[SessionRef<'_>],
) -> Result<bool, AllocError>
    requires ready { AreReady tables.now }
    requires sessions { AreByRecord tables.now.sessions by_record.now }
    ensures { IfOk result
        (λ sound. IsTrue sound ↔ All (IsAuditedFile tables.now) tables.now.batches) }
{
    are_files(alloc, tables, by_record, &tables.batches)
}

/// Returns `true` if every batch obeys the audit rules, together with its file, records, groupings
/// and sessions.
///
/// # Errors
///
/// Returns `AllocError` if an allocation fails.
pub fn has_files(alloc: Global, tables: &Tables) -> Result<bool, AllocError>
    requires { AreReady tables.now }
    ensures { IfOk result
        (λ sound. IsTrue sound ↔ All (IsAuditedFile tables.now) tables.now.batches) }
{
    let by_record = sessions_by_record(alloc, tables)?;
    are_all_files(alloc, tables, &by_record)
}

/// Returns `true` if the rows of `remake` are exactly the remakes of the records, in the order of
/// the records.
pub fn has_remakes(tables: &Tables) -> bool
    ensures { IsTrue result ↔ (tables.now.remakes ≡ flat_map turns_of tables.now.records) }
{
    are_remakes(&tables.remakes, &tables.records)
}
