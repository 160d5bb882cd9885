//! Lemmas about connections. Each function does nothing, and its contract is the lemma.
ghost use Rattle.std.specs.Prelude.{◌≡◌, false, IsTrue};
ghost use Rattle.sqlite.specs.Held.{state};
ghost use Rattle.sqlite.specs.State.{IsLive};

use sqlite::{Alter, Connection};

/// Lemma: outside a transaction, everything that an open connection shows is committed.
pub fn is_committed<S: Alter>(conn: &Connection<S>)
    requires { conn.now.in_transaction ≡ false }
    ensures { IsTrue (state S.Store conn.now).is_open
        → (state S.Store conn.now).now ≡ (state S.Store conn.now).committed }
{
    let _ = conn.is_autocommit();
}

/// Lemma: an open connection shows a database.
pub fn is_live<S: Alter>(conn: &Connection<S>)
    ensures { IsLive (state S.Store conn.now) }
{
    let _ = conn.schema();
}
