//! Finds the lot of a serial.
ghost use Rattle.std.specs.Prelude.{◌≡◌, ◌≤◌, option_map};
ghost use Rattle.job_facts.specs.States.{is_in, lot_of};
ghost use Rattle.audit_order.specs.Order.{AreLotsInOrder, AreReady, lots_of};

use table_rows::{StoredLot, Tables};

// Returns `true` if `lot` contains `serial`, which is not below the first serial of the lot.
fn is_around(lot: &StoredLot, serial: u64) -> bool
    requires { lot.now.lot.first ≤ serial }
    ensures { result ≡ is_in serial lot.now.lot }
{
    serial - lot.low_serial < u64::from(lot.amount)
}

// Returns the lot that contains `serial`. It can only be the last lot whose first serial is at most
// `serial`, because lots don't overlap.
fn lot_of(lots: &[StoredLot], serial: u64) -> Option<&StoredLot>
    requires { AreLotsInOrder lots.now }
    ensures { option_map (λ lot. lot.now.lot) result ≡ lot_of (lots_of lots.now) serial }
{
    let count = lots.partition_point(|lot| lot.low_serial <= serial);
    let lot = lots[..count].last()?;
    if is_around(lot, serial) {
        Some(lot)
    } else {
        None
    }
}

/// Returns the lot of `tables` that contains `serial`.
pub fn lot_for(tables: &Tables, serial: u64) -> Option<&StoredLot>
    requires { AreReady tables.now }
    ensures { option_map (λ lot. lot.now.lot) result ≡ lot_of (lots_of tables.now.lots) serial }
{
    lot_of(&tables.lots, serial)
}
