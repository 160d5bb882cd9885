//! Reads and audits a database.
ghost use Rattle.std.specs.Prelude.{◌≡◌, false, IfErr, IfOk};
ghost use Rattle.sqlite.specs.Held.{state};
ghost use Rattle.sqlite.specs.State.{HasCleanDisk};
ghost use Rattle.sql_base.specs.Unchanged.{Looks};
ghost use Rattle.over_tables.specs.Refusals.{Explains, ReportsStorage};
ghost use Rattle.book_file.specs.Found.{HasVerdict, IsFound, answer_of};

use crate::book::Book;
use adoption::fault_of;
use examination::{Damage, Finding, examine};
use over_tables::{Cause, FileFault};
use sqlite::{Alter, Connection, Error};
use std::alloc::Global;

// Returns the book, or the fault that states why the database can't be read. Rows that break an
// audit rule aren't a fault.
fn answer_of(found: Result<Finding, Error>) -> Result<Book, FileFault>
    ensures { result ≡ answer_of found }
{
    match found {
        Ok(Finding::Read { rows, failing }) => Ok(Book {
            version: rows.version,
            failing,
            tables: rows.tables,
            size: None,
        }),
        Ok(Finding::NotOurs { difference }) => {
            let cause = Cause::Tables { difference };
            Err(FileFault::NotOurs { cause })
        }
        Ok(Finding::Unreadable) => {
            let cause = Damage::UnreadableRow;
            Err(FileFault::Damaged { cause })
        }
        Err(error) => Err(FileFault::from(fault_of(error))),
    }
}

/// Returns the rows of a database, sorted, with its schema version and the first audit rule that
/// they break. All tables are read into memory, without the request bytes and bodies of replies,
/// which no subcommand of `shopbook` prints. Nothing is written, and a crash leaves what it could
/// leave before.
///
/// # Errors
///
/// - `NotOurs`: the tables don't have the form of any schema version.
/// - `Damaged`: a row has a value that no row of its table can have.
/// - `Storage`: the device failed.
/// - `Memory`: an allocation fails.
pub fn read_book<S: Alter>(alloc: Global, conn: &mut Connection<S>) -> Result<Book, FileFault>
    requires { conn.old.in_transaction ≡ false }
    ensures value { HasCleanDisk (state S.Store conn.new)
        → IfOk result (IsFound (state S.Store conn.old).now) }
    ensures verdict { IfOk result (λ book. HasVerdict book.tables book.failing) }
    ensures why { HasCleanDisk (state S.Store conn.new)
        → IfErr result (Explains (state S.Store conn.old).now) }
    ensures storage { HasCleanDisk (state S.Store conn.new) → IfErr result
        (λ fault. fault ≡ FileFault.Storage
        → ReportsStorage S.Store (state S.Store conn.old) (state S.Store conn.new)) }
    ensures looks { Looks (state S.Store conn.old) (state S.Store conn.new) }
{
    audit_laws::sound_rows_are_audited();
    answer_of(examine(alloc, conn))
}
