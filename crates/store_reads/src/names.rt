//! Reads a product.
ghost use Rattle.std.specs.Prelude.{IfOk, IfSome, false, ◌≡◌};
ghost use Rattle.sqlite.specs.Held.{state};
ghost use Rattle.store_data.specs.Sequence.{IsProduct};
ghost use Rattle.job_facts.specs.States.{product_named};
ghost use Rattle.row_reads.specs.Reads.{Looks};
ghost use Rattle.store_reads.specs.ReadsContents.{ReadsContents};

use sqlite::{Alter, Connection, Error};
use store_data::{Name, Product};

/// Returns the product with the name `code`.
pub fn product<S: Alter>(conn: &mut Connection<S>, code: &Name) -> Result<Option<Product>, Error>
    requires { conn.old.in_transaction ≡ false }
    ensures value { ReadsContents (state S.Store conn.old) (state S.Store conn.new) result
        (λ c answer. answer ≡ product_named c.facts.products code.now) }
    ensures ranged { IfOk result (λ answer. IfSome answer IsProduct) }
    ensures looks { Looks (state S.Store conn.old) (state S.Store conn.new) }
{
    row_reads::product(conn, code)
}
