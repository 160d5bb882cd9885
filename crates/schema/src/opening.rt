//! Creates stores over SQLite, and opens existing ones.
ghost use Rattle.std.specs.Prelude.{◌≡◌, ◌≢◌, ◌⊎◌, false, IfErr, IfOk, IsTrue, MatchResult};
ghost use Rattle.sqlite.specs.Held.{state};
ghost use Rattle.sqlite.specs.State.{HasCleanDisk};
ghost use Rattle.job_facts.specs.Contents.{no_contents};
ghost use Rattle.job_facts.specs.Reopening.{LeavesOnly};
ghost use Rattle.job_facts.specs.Store.{IsFound};
ghost use Rattle.job_facts.specs.declared.store.StoreFault.{StoreFault};
ghost use Rattle.sql_base.specs.Columns.{no_schema};
ghost use Rattle.sql_base.specs.Ends.{IsKept};
ghost use Rattle.examination.specs.declared.damage.Damage.{Damage};
ghost use Rattle.examination.specs.declared.difference.Difference.{Difference};
ghost use Rattle.adoption.specs.Causes.{IsCaused};
ghost use Rattle.schema.specs.Begun.{LeavesNoOther};
ghost use Rattle.schema.specs.Left.{TakesAt};
ghost use Rattle.schema.specs.Link.{link};
ghost use Rattle.schema.specs.Opening.{OpensExisting};
ghost use Rattle.schema.specs.Stores.{connection, stands_for};

use crate::faults::Counts;
use crate::store::SqlStore;
use adoption::{OpenFault, adopt};
use sql_base::{is_empty, laws};
use sql_tables::make_tables;
use sqlite::{Alter, Connection};
use std::alloc::Global;
use store_reads::Known;

impl<S: Alter> SqlStore<S> {
    /// Creates a store without contents in an empty database. A crash leaves what it could leave
    /// before, or a database that is opened with empty contents.
    ///
    /// # Errors
    ///
    /// Returns the connection with one of these faults. The database is unchanged.
    ///
    /// - `NotEmpty`: the database isn't empty (refusal 81).
    /// - `Store`: the device failed or is full, or an allocation fails.
    pub fn create(
        alloc: Global,
        mut conn: Connection<S>,
    ) -> Result<SqlStore<S>, (Connection<S>, OpenFault)>
        requires { conn.in_transaction ≡ false }
        ensures empty { IfOk result (λ store. HasCleanDisk (state S.Store (connection store))
            → (state S.Store conn).now.schema ≡ no_schema) }
        ensures holds { IfOk result (λ store. HasCleanDisk (state S.Store (connection store))
            → (stands_for S.Store store).holds no_contents) }
        ensures counts { IfOk result (λ store. ((stands_for S.Store store).failed ≡ 0)
            × ((stands_for S.Store store).full ≡ 0)) }
        ensures crash { IfOk result (λ store. HasCleanDisk (state S.Store (connection store))
            → (d : _) → (stands_for S.Store store).may_leave d → IsFound d no_contents) }
        ensures refused { IfErr result (λ e. e.1 ≡ OpenFault.NotEmpty
            → (state S.Store conn).now.schema ≢ no_schema) }
        ensures no_difference { IfErr result
            (λ e. (difference : Difference) → e.1 ≢ OpenFault.NotOurs difference) }
        ensures unread { IfErr result (λ e. (damage : Damage) → e.1 ≢ OpenFault.Damaged damage) }
        ensures kept { IfErr result (λ e. HasCleanDisk (state S.Store e.0)
            → IsTrue (state S.Store conn).is_open
            → IsKept (state S.Store conn) (state S.Store e.0)) }
        ensures idle { IfErr result (λ e. e.0.in_transaction ≡ false) }
        ensures late { IfErr result (λ e. HasCleanDisk (state S.Store e.0) → (d : _)
            → (link (state S.Store e.0) 0 0).may_leave d
            → (link (state S.Store conn) 0 0).may_leave d ⊎ IsFound d no_contents) }
        ensures file { MatchResult result
            (λ store. LeavesNoOther (state S.Store conn) (state S.Store (connection store)))
            (λ e. LeavesNoOther (state S.Store conn) (state S.Store e.0)) }
        ensures clean { MatchResult result
            (λ store. HasCleanDisk (state S.Store (connection store))
            → HasCleanDisk (state S.Store conn))
            (λ e. HasCleanDisk (state S.Store e.0) → HasCleanDisk (state S.Store conn)) }
        ensures open { IfOk result (λ store. HasCleanDisk (state S.Store (connection store))
            → IsTrue (state S.Store (connection store)).is_open) }
        ensures takes { IfOk result (λ store. HasCleanDisk (state S.Store (connection store))
            → TakesAt (state S.Store conn).now.trees (stands_for S.Store store)) }
        ensures leaves { IfErr result (λ e. HasCleanDisk (state S.Store e.0)
            → IsTrue (state S.Store conn).is_open → (state S.Store conn).now.schema ≡ no_schema
            → LeavesOnly (link (state S.Store e.0) 0 0) no_contents) }
        ensures cause { IfErr result (λ e. HasCleanDisk (state S.Store e.0) → (own : StoreFault)
            → e.1 ≡ OpenFault.Store own
            → IsCaused S.Store (state S.Store conn) (state S.Store e.0) own) }
    {
        image_laws::same_rows_same_contents();
        laws::is_committed(&conn);
        laws::is_live(&conn);
        if !is_empty(conn.schema()) {
            return Err((conn, OpenFault::NotEmpty));
        }
        match make_tables(&mut conn) {
            Ok(()) => {
                let counts = Counts { failed: 0, full: 0 };
                Ok(SqlStore {
                    alloc,
                    conn,
                    counts,
                    known: Known::new(alloc),
                })
            }
            Err(error) => Err((conn, OpenFault::from(error))),
        }
    }

    /// Opens the store in a database that contains the rows of sound contents, in the tables of any
    /// schema version and in any order. The store has these contents, in the tables of the current
    /// schema. If the tables are exactly those that the store creates, the database isn't modified.
    /// A crash leaves what it could leave before, or a database with the same contents.
    ///
    /// # Errors
    ///
    /// Returns the connection with one of these faults. The database is unchanged.
    ///
    /// - `NotOurs`: the tables don't have the form of any schema version (refusal 81). It has the
    ///   first difference from the nearest version.
    /// - `Damaged`: the rows don't represent sound contents (refusal 82). It has the first audit
    ///   rule that they break, or says that a row can't be read.
    /// - `Store`: the device failed or is full, or an allocation fails.
    ///
    /// No clause excludes that a full disk is reported as `Device` (docs/DECISIONS.md, "Full
    /// disks"). Only tests show that a database with sound contents is opened, and that any other
    /// database gets its refusal instead of `Store`.
    pub fn adopt(
        alloc: Global,
        mut conn: Connection<S>,
    ) -> Result<SqlStore<S>, (Connection<S>, OpenFault)>
        requires { conn.in_transaction ≡ false }
        ensures { OpensExisting S.Store conn result }
    {
        image_laws::same_rows_same_contents();
        table_reads::laws::held_rows_are_one();
        table_reads::laws::rows_are_held_in_any_order();
        laws::is_committed(&conn);
        laws::is_live(&conn);
        match adopt(alloc, &mut conn) {
            Ok(()) => {
                let counts = Counts { failed: 0, full: 0 };
                Ok(SqlStore {
                    alloc,
                    conn,
                    counts,
                    known: Known::new(alloc),
                })
            }
            Err(fault) => Err((conn, fault)),
        }
    }
}
