//! Opens the store over a database.
ghost use Rattle.std.specs.Prelude.{◌≡◌, ◌≢◌, ◌⊎◌, ◌↔◌, false, IfErr, IfOk, IsTrue, None};
ghost use Rattle.std.specs.Prelude.{option_map};
ghost use Rattle.sqlite.specs.Held.{state};
ghost use Rattle.sqlite.specs.State.{HasCleanDisk};
ghost use Rattle.sql_base.specs.Columns.{no_schema};
ghost use Rattle.schema.specs.Left.{TakesAt};
ghost use Rattle.schema.specs.Link.{FindsAtOpen};
ghost use Rattle.schema.specs.Stores.{connection, stands_for};
ghost use Rattle.over_tables.specs.Opens.{Begins, IsOlder, IsOpened, older_number};
ghost use Rattle.over_tables.specs.Refusals.{IsDamaged, IsNotOurs, IsOfStore, IsRefused};
ghost use Rattle.over_tables.specs.Refusals.{ReportsStorage};

use crate::fault::FileFault;
use adoption::fault_of;
use schema::SqlStore;
use sql_base::is_empty;
use sql_tables::{Version, VersionMatch, version_in};
use sqlite::{Alter, Connection};
use std::alloc::Global;

/// The databases that may be opened.
#[derive(Clone, Copy, Debug, PartialEq, Eq)]
pub enum Wanted {
    /// An empty database, such as the one of a new file, in which tables are created, or a database
    /// with the tables of a store, in any schema version.
    Any,
    /// Only a database with the tables of a store, in any schema version.
    Ours,
}

/// Returns `true` if a new store is created in the database, because it is empty and `wanted`
/// allows that.
pub fn begins<S: Alter>(conn: &Connection<S>, wanted: Wanted) -> bool
    ensures { IsTrue result ↔ Begins wanted (state S.Store conn.now).now }
{
    match wanted {
        Wanted::Any => is_empty(conn.schema()),
        Wanted::Ours => false,
    }
}

/// Returns the number of the schema version of the database, for an event line, if the version is
/// older than the current one. The result is `None` if the database has other tables.
///
/// # Errors
///
/// - `Memory`: an allocation fails.
/// - `Storage`: the tables of a version can't be created in memory for another reason.
pub fn older_version<S: Alter>(alloc: Global, conn: &Connection<S>) -> Result<Option<u8>, FileFault>
    ensures exact { IfOk result (IsOlder (state S.Store conn.now).now) }
    ensures failed { IfErr result IsOfStore }
{
    match version_in(alloc, conn) {
        Ok(found) => Ok(older_number(version_of(found))),
        Err(error) => Err(FileFault::from(fault_of(error))),
    }
}

fn version_of(found: Option<VersionMatch>) -> Option<Version>
    ensures { result ≡ option_map (λ m. m.version) found }
{
    match found {
        Some(found) => Some(found.version),
        None => None,
    }
}

fn older_number(found: Option<Version>) -> Option<u8>
    ensures { result ≡ older_number found }
{
    match found {
        Some(Version::One) => Some(1),
        Some(Version::Two) => Some(2),
        Some(Version::Three) => None,
        None => None,
    }
}

/// Opens the store over the database `conn`. If the database is empty and `wanted` allows that, a
/// new store is created. Otherwise the store has the contents whose rows the database contains, in
/// the tables of any schema version. A crash leaves what it could leave before, or the contents of
/// the store.
///
/// # Errors
///
/// Returns the connection with one of these faults. The database is unchanged.
///
/// - `NotOurs`: the tables don't have the form of any schema version (refusal 81).
/// - `Damaged`: the rows don't represent sound contents (refusal 82).
/// - `Storage`: the device failed or is full.
/// - `Memory`: an allocation fails.
pub fn store_over<S: Alter>(
    alloc: Global,
    conn: Connection<S>,
    wanted: Wanted,
) -> Result<SqlStore<S>, (Connection<S>, FileFault)>
    requires { conn.in_transaction ≡ false }
    ensures taken { IfOk result (λ store. HasCleanDisk (state S.Store (connection store))
        → IsOpened wanted (state S.Store conn).now (stands_for S.Store store)) }
    ensures takes { IfOk result (λ store. HasCleanDisk (state S.Store (connection store))
        → TakesAt (state S.Store conn).now.trees (stands_for S.Store store)) }
    ensures clean { IfOk result (λ store. HasCleanDisk (state S.Store (connection store))
        → HasCleanDisk (state S.Store conn)) }
    ensures counts { IfOk result (λ store. ((stands_for S.Store store).failed ≡ 0)
        × ((stands_for S.Store store).full ≡ 0)) }
    ensures refused { IfErr result (λ e. IsRefused wanted (state S.Store conn)
        (state S.Store e.0) e.1) }
    // No trees with sound contents are refused, except the trees of an empty database.
    ensures refuses { IfErr result (λ e. HasCleanDisk (state S.Store e.0)
        → IsTrue (state S.Store conn).is_open → (IsNotOurs e.1 ⊎ IsDamaged e.1)
        → (state S.Store conn).now.schema ≢ no_schema
        → FindsAtOpen None (state S.Store conn).now.trees) }
    ensures storage { IfErr result (λ e. HasCleanDisk (state S.Store e.0)
        → e.1 ≡ FileFault.Storage
        → ReportsStorage S.Store (state S.Store conn) (state S.Store e.0)) }
    ensures idle { IfErr result (λ e. e.0.in_transaction ≡ false) }
{
    let opened = if begins(&conn, wanted) {
        SqlStore::create(alloc, conn)
    } else {
        SqlStore::adopt(alloc, conn)
    };
    match opened {
        Ok(store) => Ok(store),
        Err((conn, fault)) => Err((conn, FileFault::from(fault))),
    }
}
