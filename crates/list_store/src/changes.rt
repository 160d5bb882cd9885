//! Applies a change to the facts.
ghost use Rattle.std.specs.Prelude.{◌≡◌, IfErr, IfOk, Ok, OnErr, OnOk};
ghost use Rattle.store_data.specs.Sequence.{IsProduct};
ghost use Rattle.job_facts.specs.declared.store.StoreFault.TheVariants.{Memory};
ghost use Rattle.job_facts.specs.Facts.{at_session, ended, worded};
ghost use Rattle.job_facts.specs.Sound.{changed};

use crate::kept::copied;
use crate::lists::{FactLists, KeptBatch, KeptRecord, KeptSession};
use job_facts::{Change, StoreFault};
use std::alloc::Global;
use store_data::{Product, ValidProduct};

/// Applies `change` to `facts`. After an error `facts` is unchanged.
pub(crate) fn change_facts(
    alloc: Global,
    facts: &mut FactLists,
    change: &Change<'_>,
) -> Result<(), StoreFault>
    ensures ok { OnOk result (facts.new ≡ changed facts.old change.now) }
    ensures err { OnErr result (facts.new ≡ facts.old) }
    ensures cause { IfErr result (λ fault. fault ≡ Memory) }
{
    match *change {
        Change::Nothing => (),
        Change::AddsProduct { product } => facts.products.push(valid(product)?)?,
        Change::AddsLot { lot } => facts.lots.push(lot)?,
        Change::AddsBatch { ref batch } => facts.batches.push(KeptBatch {
            name: batch.name,
            product: batch.product.code,
            raw: copied(alloc, batch.raw)?,
        })?,
        Change::Opens {
            session,
            batch,
            rec,
        } => facts.sessions.push(KeptSession {
            machine: session.machine,
            batch,
            rec,
            blank: session.blank,
            words: Vec::new(alloc),
            ended: false,
        })?,
        Change::AddsWord { word, .. } => add_word(&mut facts.sessions, word.session, word.sw)?,
        Change::Ends { session } => end(&mut facts.sessions, session),
        Change::Discards { blank, .. } => facts.discarded.push(blank)?,
        Change::Remakes { batch, rec } => facts.remakes.push(KeptRecord { batch, rec })?,
        Change::Withdraws { batch, rec, .. } => { facts.withdrawn.push(KeptRecord { batch, rec })? }
        Change::Closes { batch } => facts.closed.push(batch)?,
    }
    Ok(())
}

// Wraps `product`. A product out of range returns `Memory`. Sound facts contain no such product.
fn valid(product: Product) -> Result<ValidProduct, StoreFault>
    ensures value { IfOk result (λ valid. valid ≡ product) }
    ensures there { IsProduct product → result ≡ Ok product }
    ensures cause { IfErr result (λ fault. fault ≡ Memory) }
{
    ValidProduct::new(product).ok_or(StoreFault::Memory)
}

// Adds the status word `sw` to the session with the number `session`. Does nothing if the session
// doesn't exist.
fn add_word(sessions: &mut [KeptSession], session: u64, sw: u16) -> Result<(), StoreFault>
    ensures ok { OnOk result (sessions.new ≡ at_session session (worded sw) sessions.old) }
    ensures err { OnErr result (sessions.new ≡ sessions.old) }
    ensures cause { IfErr result (λ fault. fault ≡ Memory) }
{
    if session > 0 && session <= sessions.len() as u64 {
        sessions[(session - 1) as usize].add_word(sw)?;
    }
    Ok(())
}

// Ends the session with the number `session`. Does nothing if the session doesn't exist.
fn end(sessions: &mut [KeptSession], session: u64)
    ensures { sessions.new ≡ at_session session ended sessions.old }
{
    if session > 0 && session <= sessions.len() as u64 {
        sessions[(session - 1) as usize].end();
    }
}
