//! Executes a unit of work in one transaction.
ghost use Rattle.std.specs.Prelude.{◌≡◌, false, IfErr, OnErr, OnOk};
ghost use Rattle.sqlite.specs.Held.{state};
ghost use Rattle.sqlite.specs.State.{HasCleanDisk, Survives};
ghost use Rattle.sql_base.specs.Causes.{HadCause};
ghost use Rattle.sql_base.specs.Ends.{Ends, IsKept, IsLeft};

use crate::laws;
use sqlite::{Alter, Connection, Error, Transaction};

/// Work that is done in one transaction.
pub trait UnitOfWork {
    ghost use Rattle.std.specs.Prelude.{◌≡◌};
    ghost use Rattle.sqlite.specs.Effect.{Database};
    ghost use Rattle.sqlite.specs.Held.{state};
    ghost use Rattle.sqlite.specs.State.{HasCleanDisk, Survives};
    ghost use Rattle.sql_base.specs.Causes.{ReportsCause};
    ghost use Rattle.sql_base.specs.Ends.{Wrote};

    /// The effect on the database: the relation between the database before and after the work.
    ghost makes: { Self → Database → Database → Type 0 };

    /// The condition under which `run` reports a disk error only if the disk has failed or refused
    /// an operation. The default ⊥ promises nothing.
    ghost explains: { Type 0 } = { ⊥ };

    /// Does the work in the open transaction `tx`. A crash leaves no trace of it.
    fn run<S: Alter>(&self, tx: &mut Transaction<'_, S>) -> Result<(), Error>
        ensures same_reference { tx.new.conn.ghost_name ≡ tx.old.conn.ghost_name }
        ensures made { HasCleanDisk (state S.Store tx.new.conn.now)
            → Wrote (makes self.now) (state S.Store tx.old.conn.now)
            (state S.Store tx.new.conn.now) result }
        ensures survives { Survives (state S.Store tx.old.conn.now)
            (state S.Store tx.new.conn.now) (λ _. ⊥) }
        ensures cause { explains → HasCleanDisk (state S.Store tx.new.conn.now)
            → ReportsCause (state S.Store tx.old.conn.now)
            (state S.Store tx.new.conn.now) result };
}

/// Does the work in a transaction of its own: all of it or, after an error, none of it. After a
/// crash the database is as it could be before the call, or has all of the work.
pub fn transact<W: UnitOfWork, S: Alter>(conn: &mut Connection<S>, work: &W) -> Result<(), Error>
    requires { conn.old.in_transaction ≡ false }
    ensures ok { HasCleanDisk (state S.Store conn.new) → OnOk result
        (Ends (W.makes work.now) (state S.Store conn.old) (state S.Store conn.new)) }
    ensures err { HasCleanDisk (state S.Store conn.new) → OnErr result
        (IsKept (state S.Store conn.old) (state S.Store conn.new)) }
    ensures idle { conn.new.in_transaction ≡ false }
    ensures crash { Survives (state S.Store conn.old) (state S.Store conn.new)
        (IsLeft (W.makes work.now) (state S.Store conn.old)) }
    ensures cause { W.explains → HasCleanDisk (state S.Store conn.new) → IfErr result
        (HadCause S.Store (state S.Store conn.old) (state S.Store conn.new)) }
{
    laws::is_committed(conn);
    let mut tx = conn.transaction();
    work.run(&mut tx)?;
    tx.commit()
}
