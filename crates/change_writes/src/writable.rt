//! Checks that all numbers of a write are integers of SQL.
ghost use Rattle.std.specs.Prelude.{◌↔◌, ◌-◌, ◌^◌, IsTrue};
ghost use Rattle.change_writes.specs.Writable.{AreBelow, HasRoom, IsWritable};

use job_facts::BatchTotals;
use table_rows::{RecordPlace, Writing};

/// The upper limit of integers in SQL, which are less than this.
pub(crate) const LIMIT: u64 = 1 << 63;

/// The limit for counts, so that each count can be increased by one.
const COUNT_LIMIT: u64 = LIMIT - 1;

// Returns `true` if every counter of a batch can be increased by one.
fn can_grow(totals: &BatchTotals) -> bool
    ensures { IsTrue result ↔ AreBelow (2 ^ 63 - 1) totals.now }
{
    totals.waiting < COUNT_LIMIT
        && totals.running < COUNT_LIMIT
        && totals.failed < COUNT_LIMIT
        && totals.withdrawn < COUNT_LIMIT
        && totals.good < COUNT_LIMIT
        && totals.sessions < COUNT_LIMIT
        && totals.spoiled < COUNT_LIMIT
}

// Returns `true` if the batch id and the position of the record are integers of SQL, and each count
// of the record and its batch can be increased by one.
fn has_room(place: &RecordPlace) -> bool
    ensures { IsTrue result ↔ HasRoom place.now }
{
    place.batch < LIMIT
        && place.place < LIMIT
        && place.spoiled < COUNT_LIMIT
        && place.remakes < COUNT_LIMIT
        && can_grow(&place.totals)
}

/// Returns `true` if all numbers that the statements of `writing` contain are integers of SQL. No
/// statement checks this again.
pub(crate) fn is_writable(writing: &Writing<'_>) -> bool
    ensures { IsTrue result ↔ IsWritable writing.now }
{
    match writing {
        Writing::Nothing => true,
        Writing::AddsProduct { .. } => true,
        Writing::AddsLot { lot } => lot.first < LIMIT,
        Writing::AddsBatch { batch } => batch.number < LIMIT,
        Writing::Opens { session, place } => {
            session.number < LIMIT && session.blank < LIMIT && has_room(place)
        }
        Writing::AddsWord { word } => word.session < LIMIT,
        Writing::AddsLastWord { word, place, .. } => word.session < LIMIT && has_room(place),
        Writing::Ends { session, place } => *session < LIMIT && has_room(place),
        Writing::Discards {
            blank,
            discarded,
            ..
        } => *blank < LIMIT && *discarded < COUNT_LIMIT,
        Writing::Remakes { place } => has_room(place),
        Writing::Withdraws { place, .. } => has_room(place),
        Writing::Closes { .. } => true,
        Writing::Releases { upto, .. } => *upto < LIMIT,
    }
}
