//! Reads and sets release marks.
ghost use Rattle.std.specs.Prelude.{◌≡◌, IfErr, OnErr, OnOk};
ghost use Rattle.job_facts.specs.declared.store.StoreFault.TheVariants.{Memory};
ghost use Rattle.job_facts.specs.Contents.{above, mark_of, with_mark};

use crate::lists::{KeptMark, KeptRow};
use job_facts::StoreFault;
use store_data::Name;

/// Returns the release mark of `client`, or 0 if it has released nothing.
pub(crate) fn mark_of(marks: &[KeptMark], client: &Name) -> u64
    ensures { result ≡ mark_of marks.now client.now }
{
    for mark in marks {
        if mark.client == *client {
            return mark.upto;
        }
    }
    0
}

/// Sets the release mark of `client` to `upto`. After an error the marks are unchanged.
pub(crate) fn set_mark(
    marks: &mut Vec<KeptMark>,
    client: &Name,
    upto: u64,
) -> Result<(), StoreFault>
    ensures ok { OnOk result (marks.new.items ≡ with_mark marks.old.items client.now upto) }
    ensures err { OnErr result (marks.new.items ≡ marks.old.items) }
    ensures cause { IfErr result (λ fault. fault ≡ Memory) }
{
    marks.reserve(1)?;
    marks.retain(|mark| mark.client != *client);
    marks
        .push(KeptMark {
            client: *client,
            upto,
        })
        .unwrap();
    Ok(())
}

/// Removes the kept replies whose numbers are released.
pub(crate) fn drop_released(kept: &mut Vec<KeptRow>, marks: &[KeptMark])
    ensures { kept.new.items ≡ above marks.now kept.old.items }
{
    kept.retain(|row| mark_of(marks, &row.client) < row.number);
}
