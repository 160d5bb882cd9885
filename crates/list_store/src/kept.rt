//! Copies and finds kept replies.
ghost use Rattle.std.specs.Prelude.{◌≡◌, option_map};
ghost use Rattle.job_facts.specs.Contents.{entry_of, reply_of_entry};
ghost use Rattle.job_facts.specs.Kept.{kept_reply};
ghost use Rattle.list_store.specs.Results.{GivesOrMemory};

use crate::lists::KeptRow;
use job_facts::{Entry, KeptReply, StoreFault};
use std::alloc::Global;
use store_data::{Bytes, Name};

/// Returns a copy of the reply that is kept for `client` under `number`.
pub(crate) fn reply_of(
    alloc: Global,
    rows: &[KeptRow],
    client: &Name,
    number: u64,
) -> Result<Option<KeptReply>, StoreFault>
    ensures { GivesOrMemory result
        (λ answer. answer ≡ option_map reply_of_entry (entry_of rows.now client.now number)) }
{
    for row in rows {
        if row.client == *client && row.number == number {
            return Ok(Some(KeptReply {
                ask: copied(alloc, row.ask.as_slice())?,
                status: row.status,
                body: copied(alloc, row.body.as_slice())?,
            }));
        }
    }
    Ok(None)
}

/// Returns a kept reply with copies of the request bytes and the body.
pub(crate) fn row(alloc: Global, entry: &Entry<'_>) -> Result<KeptRow, StoreFault>
    ensures { GivesOrMemory result (λ row. row ≡ kept_reply entry.now) }
{
    Ok(KeptRow {
        client: *entry.client,
        number: entry.number,
        ask: copied(alloc, entry.ask)?,
        status: entry.status,
        body: copied(alloc, entry.body)?,
    })
}

pub(crate) fn copied(alloc: Global, bytes: &[u8]) -> Result<Bytes, StoreFault>
    ensures { GivesOrMemory result (λ copy. copy ≡ bytes.now) }
{
    Ok(Bytes::from_vec(bytes.to_vec(alloc)?))
}
