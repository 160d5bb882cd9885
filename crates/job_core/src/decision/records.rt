//! The decisions on blanks and records, and on closing a batch.
ghost use Rattle.std.specs.Prelude.{◌≡◌, ℕ, List};
ghost use Rattle.job_facts.specs.Facts.{Facts};
ghost use Rattle.job_facts.specs.Handing.{IsOpenBatch, IsOpenRecord};
ghost use Rattle.job_facts.specs.Rows.{batch_row_of};
ghost use Rattle.job_facts.specs.Sound.{Decides, IsSound};
ghost use Rattle.job_facts.specs.States.{is_batch_finished, is_charged, lot_of, record_state_of};
ghost use Rattle.job_facts.specs.Store.{LeavesContents, Reads};
ghost use Rattle.job_facts.specs.declared.change.Change.TheVariants.{Discards, Withdraws};
ghost use Rattle.job_facts.specs.declared.reply.Reply.TheVariants.{Discarded, Withdrawn};
ghost use Rattle.job_facts.specs.declared.request.Request.TheVariants as request;

use super::{Decision, refused};
use job_facts::{BatchRow, Change, JobStore, Lot, RecordState, Refusal, Reply, StoreFault};
use store_data::Name;

/// Decides a `discard` request.
pub(crate) fn discard<S: JobStore>(
    store: &mut S,
    client: &Name,
    blank: u64,
) -> Result<Decision<'static>, StoreFault>
    ensures value { Reads (S.state store.old) (S.state store.new) result
        (λ c answer. Decides c.facts client.now (request.Discard blank) answer.0 answer.1) }
    ensures leaves { LeavesContents (S.state store.old) (S.state store.new) result }
{
    let lot = store.lot_of(blank)?;
    let charged = store.is_charged(blank)?;
    Ok(discard_by(client, blank, lot, charged))
}

// Decides from the lot of the blank, and whether the blank is charged.
#[tactic(auto, unfolding(job_facts::specs::Steps::step))]
fn discard_by(client: &Name, blank: u64, lot: Option<Lot>, charged: bool) -> Decision<'static>
    ensures { (f : Facts) → IsSound f → lot ≡ lot_of f.lots blank → charged ≡ is_charged f blank
        → Decides f client.now (request.Discard blank) result.0 result.1 }
{
    match lot {
        None => refused(Refusal::BlankUnknown),
        Some(_) if charged => refused(Refusal::BlankUsed),
        Some(lot) => discarded(blank, lot.name),
    }
}

/// Decides a `remake` request.
#[tactic(auto, unfolding(job_facts::specs::Steps::step))]
pub(crate) fn remake<S: JobStore>(
    store: &mut S,
    client: &Name,
    batch: &Name,
    rec: &Name,
) -> Result<Decision<'static>, StoreFault>
    ensures value { Reads (S.state store.old) (S.state store.new) result
        (λ c answer. Decides c.facts client.now (request.Remake batch.now rec.now)
        answer.0 answer.1) }
    ensures leaves { LeavesContents (S.state store.old) (S.state store.new) result }
{
    match record_at(store, batch, rec)? {
        Err(refusal) => Ok(refused(refusal)),
        Ok(stands) => Ok(remake_by(client, batch, rec, stands)),
    }
}

// Decides from the state of the record.
#[tactic(auto, unfolding(job_facts::specs::Steps::step))]
fn remake_by(client: &Name, batch: &Name, rec: &Name, stands: RecordState) -> Decision<'static>
    ensures { (f : Facts) → IsSound f → IsOpenRecord f batch.now rec.now (Ok stands)
        → Decides f client.now (request.Remake batch.now rec.now) result.0 result.1 }
{
    let (batch, rec) = (*batch, *rec);
    match stands {
        RecordState::Failed => (
            Reply::Waiting { batch, rec },
            Change::Remakes { batch, rec },
        ),
        _ => refused(Refusal::NotFailed),
    }
}

/// Decides a `withdraw` request.
#[tactic(auto, unfolding(job_facts::specs::Steps::step))]
pub(crate) fn withdraw<S: JobStore>(
    store: &mut S,
    client: &Name,
    batch: &Name,
    rec: &Name,
) -> Result<Decision<'static>, StoreFault>
    ensures value { Reads (S.state store.old) (S.state store.new) result
        (λ c answer. Decides c.facts client.now (request.Withdraw batch.now rec.now)
        answer.0 answer.1) }
    ensures leaves { LeavesContents (S.state store.old) (S.state store.new) result }
{
    match record_at(store, batch, rec)? {
        Err(refusal) => Ok(refused(refusal)),
        Ok(stands) => Ok(withdraw_by(client, batch, rec, stands)),
    }
}

// Decides from the state of the record.
#[tactic(auto, unfolding(job_facts::specs::Steps::step))]
fn withdraw_by(client: &Name, batch: &Name, rec: &Name, stands: RecordState) -> Decision<'static>
    ensures { (f : Facts) → IsSound f → IsOpenRecord f batch.now rec.now (Ok stands)
        → Decides f client.now (request.Withdraw batch.now rec.now) result.0 result.1 }
{
    match stands {
        RecordState::Waiting | RecordState::Failed => withdrawn(batch, rec, stands),
        _ => refused(Refusal::NotWithdrawable),
    }
}

fn withdrawn(batch: &Name, rec: &Name, was: RecordState) -> Decision<'static>
    ensures { result ≡ (Withdrawn batch.now rec.now, Withdraws batch.now rec.now was) }
{
    let (batch, rec) = (*batch, *rec);
    (
        Reply::Withdrawn { batch, rec },
        Change::Withdraws { batch, rec, was },
    )
}

fn discarded(blank: u64, lot: Name) -> Decision<'static>
    ensures { result ≡ (Discarded blank, Discards blank lot) }
{
    (Reply::Discarded { blank }, Change::Discards { blank, lot })
}

// Reads the state of the record `rec`. Returns a refusal if the batch or the record doesn't exist,
// or the batch is closed.
fn record_at<S: JobStore>(
    store: &mut S,
    batch: &Name,
    rec: &Name,
) -> Result<Result<RecordState, Refusal>, StoreFault>
    ensures value { Reads (S.state store.old) (S.state store.new) result
        (λ c found. IsOpenRecord c.facts batch.now rec.now found) }
    ensures leaves { LeavesContents (S.state store.old) (S.state store.new) result }
{
    let row = store.batch(batch)?;
    let stands = store.record_state(batch, rec)?;
    Ok(in_record(row, stands))
}

// Returns the state of a record from the row of its batch and its state in the store, or a refusal.
fn in_record(row: Option<BatchRow>, stands: Option<RecordState>) -> Result<RecordState, Refusal>
    ensures { (f : Facts) (b r : List ℕ) → row ≡ batch_row_of f b → stands ≡ record_state_of f b r
        → IsOpenRecord f b r result }
{
    in_batch(row)?;
    stands.ok_or(Refusal::RecordUnknown)
}

/// Returns the row of a batch, or a refusal if the batch doesn't exist or is closed.
pub(crate) fn in_batch(row: Option<BatchRow>) -> Result<BatchRow, Refusal>
    ensures { (f : Facts) (b : List ℕ) → row ≡ batch_row_of f b → IsOpenBatch f b result }
{
    match row {
        None => Err(Refusal::BatchUnknown),
        Some(row) if row.is_closed => Err(Refusal::BatchClosed),
        Some(row) => Ok(row),
    }
}

/// Decides a `close` request.
pub(crate) fn close<S: JobStore>(
    store: &mut S,
    client: &Name,
    batch: &Name,
) -> Result<Decision<'static>, StoreFault>
    ensures value { Reads (S.state store.old) (S.state store.new) result
        (λ c answer. Decides c.facts client.now (request.Close batch.now) answer.0 answer.1) }
    ensures leaves { LeavesContents (S.state store.old) (S.state store.new) result }
{
    let row = store.batch(batch)?;
    let finished = store.is_finished(batch)?;
    Ok(close_by(client, batch, row, finished))
}

// Decides from the row of the batch, and whether all of its records are good or withdrawn.
#[tactic(auto, unfolding(job_facts::specs::Steps::step))]
fn close_by(client: &Name, batch: &Name, row: Option<BatchRow>, finished: bool) -> Decision<'static>
    ensures { (f : Facts) → IsSound f → row ≡ batch_row_of f batch.now
        → finished ≡ is_batch_finished f batch.now
        → Decides f client.now (request.Close batch.now) result.0 result.1 }
{
    let batch = *batch;
    match in_batch(row) {
        Err(refusal) => refused(refusal),
        Ok(_) if finished => (Reply::Closed { batch }, Change::Closes { batch }),
        Ok(_) => refused(Refusal::NotFinished),
    }
}
