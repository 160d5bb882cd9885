//! Runs statements one after the other in an open transaction.
ghost use Rattle.std.specs.Prelude.{◌≡◌, ◌++◌};
ghost use Rattle.sqlite.specs.Held.{state};
ghost use Rattle.sqlite.specs.State.{HasCleanDisk, Survives};
ghost use Rattle.sql_base.specs.Causes.{ReportsCause};
ghost use Rattle.sql_tables.specs.Each.{WroteEach};

use sqlite::{Alter, Error, Transaction};

/// A statement for each item of a list.
pub trait Runs<X> {
    ghost use Rattle.std.specs.Prelude.{◌≡◌};
    ghost use Rattle.sqlite.specs.Effect.{Database};
    ghost use Rattle.sqlite.specs.Held.{state};
    ghost use Rattle.sqlite.specs.State.{HasCleanDisk, Survives};
    ghost use Rattle.sql_base.specs.Causes.{ReportsCause};
    ghost use Rattle.sql_base.specs.Ends.{Wrote};

    /// The effect of the statement of an item on the database.
    ghost makes: { X → Database → Database → Type 0 };

    /// The condition under which `run` reports a disk error only if the disk has failed or refused
    /// an operation. The default ⊥ promises nothing.
    ghost explains: { Type 0 } = { ⊥ };

    /// Runs the statement of `item`. A crash leaves no trace of it.
    fn run<S: Alter>(tx: &mut Transaction<'_, S>, item: &X) -> Result<usize, Error>
        ensures same_reference { tx.new.conn.ghost_name ≡ tx.old.conn.ghost_name }
        ensures made { HasCleanDisk (state S.Store tx.new.conn.now)
            → Wrote (makes item.now) (state S.Store tx.old.conn.now)
            (state S.Store tx.new.conn.now) result }
        ensures survives { Survives (state S.Store tx.old.conn.now)
            (state S.Store tx.new.conn.now) (λ _. ⊥) }
        ensures cause { explains → HasCleanDisk (state S.Store tx.new.conn.now)
            → ReportsCause (state S.Store tx.old.conn.now)
            (state S.Store tx.new.conn.now) result };
}

/// Runs the statement of each item, one after the other, up to the first error. A crash leaves no
/// trace of them.
pub fn run_each<R: Runs<X>, X, S: Alter>(
    tx: &mut Transaction<'_, S>,
    items: &[X],
) -> Result<(), Error>
    ensures same_reference { tx.new.conn.ghost_name ≡ tx.old.conn.ghost_name }
    ensures made { HasCleanDisk (state S.Store tx.new.conn.now)
        → WroteEach R.makes items.now (state S.Store tx.old.conn.now)
        (state S.Store tx.new.conn.now) result }
    ensures survives { Survives (state S.Store tx.old.conn.now) (state S.Store tx.new.conn.now)
        (λ _. ⊥) }
    ensures cause { R.explains → HasCleanDisk (state S.Store tx.new.conn.now)
        → ReportsCause (state S.Store tx.old.conn.now) (state S.Store tx.new.conn.now) result }
{
    for item in items {
        R::run(tx, item)?;
    }
    Ok(())
}

/// Runs the statements of `first` and then those of `rest`, up to the first error. A crash leaves
/// no trace of them.
pub fn run_both<R: Runs<X>, X, S: Alter>(
    tx: &mut Transaction<'_, S>,
    first: &[X],
    rest: &[X],
) -> Result<(), Error>
    ensures same_reference { tx.new.conn.ghost_name ≡ tx.old.conn.ghost_name }
    ensures made { HasCleanDisk (state S.Store tx.new.conn.now)
        → WroteEach R.makes (first.now ++ rest.now) (state S.Store tx.old.conn.now)
        (state S.Store tx.new.conn.now) result }
    ensures survives { Survives (state S.Store tx.old.conn.now) (state S.Store tx.new.conn.now)
        (λ _. ⊥) }
    ensures cause { R.explains → HasCleanDisk (state S.Store tx.new.conn.now)
        → ReportsCause (state S.Store tx.old.conn.now) (state S.Store tx.new.conn.now) result }
{
    run_each::<R, X, S>(tx, first)?;
    run_each::<R, X, S>(tx, rest)
}
