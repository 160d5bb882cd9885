//! Replaces the tables of any schema version by empty tables of the current schema, in an open
//! transaction.
ghost use Rattle.std.specs.Prelude.{◌≡◌, ◌++◌, ⊤, map};
ghost use Rattle.sqlite.specs.Held.{state};
ghost use Rattle.sqlite.specs.State.{HasCleanDisk};
ghost use Rattle.sql_base.specs.Ends.{Wrote};
ghost use Rattle.sql_base.specs.Unchanged.{LeavesNoTraceWithCause};
ghost use Rattle.remaking.specs.Anew.{DropsAll, MakesAnew};
ghost use Rattle.remaking.specs.Drop.{DropsTable};
ghost use Rattle.remaking.specs.Texts.{drops_of};

use sql_tables::{Runs, Version, make_all, run_both};
use sqlite::{Alter, Error, Transaction};

// Version 2 has one table more than version 1, for release marks. No other table refers to it.
const ONE: &[&str] = &["DROP TABLE version"];

const TWO: &[&str] = &["DROP TABLE version", "DROP TABLE mark"];

const EARLIER: &[&str] = &[
    "DROP TABLE grouping",
    "DROP TABLE reply",
    "DROP TABLE remake",
    "DROP TABLE blank",
    "DROP TABLE word",
    "DROP TABLE session",
    "DROP TABLE record",
    "DROP TABLE batch",
    "DROP TABLE lot",
    "DROP TABLE product",
];

const THREE: &[&str] = &[
    "DROP TABLE mark",
    "DROP TABLE reply",
    "DROP TABLE remake",
    "DROP TABLE blank",
    "DROP TABLE word",
    "DROP TABLE session",
    "DROP TABLE grouping2",
    "DROP TABLE record",
    "DROP TABLE batch",
    "DROP TABLE lot",
    "DROP TABLE product",
    "DROP TABLE version",
];

// Returns the texts that drop all tables of `version`, in reverse order of their creation: first
// its own tables, then the tables that versions 1 and 2 share.
fn drops_of(version: Version) -> (&'static [&'static str], &'static [&'static str])
    ensures { map (λ text. text.now) (result.0.now ++ result.1.now) ≡ drops_of version }
{
    match version {
        Version::One => (ONE, EARLIER),
        Version::Two => (TWO, EARLIER),
        Version::Three => (THREE, &[]),
    }
}

// Statements that drop tables, given by their texts.
struct Dropping;

impl<'a> Runs<&'a str> for Dropping {
    ghost makes = { λ text. DropsTable text.now };

    ghost explains = { ⊤ };

    fn run<S: Alter>(tx: &mut Transaction<'_, S>, text: &&'a str) -> Result<usize, Error> {
        tx.execute(text, &[])
    }
}

// Drops all tables of `version`.
fn drop_all<S: Alter>(tx: &mut Transaction<'_, S>, version: Version) -> Result<(), Error>
    ensures made { HasCleanDisk (state S.Store tx.new.conn.now)
        → Wrote (DropsAll version) (state S.Store tx.old.conn.now)
        (state S.Store tx.new.conn.now) result }
    ensures no_trace { LeavesNoTraceWithCause S.Store tx.old.conn tx.new.conn result }
{
    let (own, shared) = drops_of(version);
    run_both::<Dropping, &str, S>(tx, own, shared)
}

/// Drops all tables of `version`, creates the tables of the current schema and inserts the row of
/// `version`, in an open transaction. A crash leaves no trace of this.
pub(crate) fn make_anew<S: Alter>(
    tx: &mut Transaction<'_, S>,
    version: Version,
) -> Result<(), Error>
    ensures made { HasCleanDisk (state S.Store tx.new.conn.now)
        → Wrote (MakesAnew version) (state S.Store tx.old.conn.now)
        (state S.Store tx.new.conn.now) result }
    ensures no_trace { LeavesNoTraceWithCause S.Store tx.old.conn tx.new.conn result }
{
    drop_all(tx, version)?;
    make_all(tx)
}
