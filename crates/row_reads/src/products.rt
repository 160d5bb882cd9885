//! The statements that read the table `product`.
ghost use Rattle.std.specs.Prelude.{◌≡◌, false, length, map, IfOk, IfSome};
ghost use Rattle.sqlite.specs.Held.{state};
ghost use Rattle.store_data.specs.Sequence.{IsProduct};
ghost use Rattle.store_data.specs.declared.row.Product.{Product as ProductValue};
ghost use Rattle.job_facts.specs.Sound.{AreNamedOnce};
ghost use Rattle.job_facts.specs.States.{product_named};
ghost use Rattle.row_reads.specs.Decoding.{product_in};
ghost use Rattle.row_reads.specs.Readable.{IsProductAnswer};
ghost use Rattle.row_reads.specs.Reads.{FindsRows};

use crate::answered::{Answered, one_of};
use crate::values::{count, flag_at, name_at, within_at};
use sql_base::rows_of;
use sqlite::types::ValueRef;
use sqlite::{Alter, Connection, Error, Row};
use store_data::{Name, Product};

impl Answered for Product {
    ghost value = { product_in };

    ghost fits = { IsProduct };

    ghost readable = { IsProductAnswer };

    fn read(row: &Row) -> Result<Product, Error> {
        Ok(Product {
            code: name_at(row, 0)?,
            max: within_at(row, 1, 16, 255)? as u8,
            low: within_at(row, 2, 0, 31)? as u8,
            check: flag_at(row, 3)?,
        })
    }
}

/// Returns the product with the name `code`.
pub fn product<S: Alter>(conn: &mut Connection<S>, code: &Name) -> Result<Option<Product>, Error>
    requires { conn.old.in_transaction ≡ false }
    ensures finds { FindsRows (state S.Store conn.old) (state S.Store conn.new) result
        (λ t found. AreNamedOnce (map (λ (p : ProductValue). p.code) t.products)
        → found ≡ product_named t.products code.now) }
    ensures ranged { IfOk result (λ found. IfSome found IsProduct) }
{
    let sql = "SELECT name, max, low, checked FROM product WHERE name = ?1";
    one_of(conn, sql, &[ValueRef::Text(code.bytes())])
}

/// Returns the number of products.
pub fn product_count<S: Alter>(conn: &mut Connection<S>) -> Result<u64, Error>
    requires { conn.old.in_transaction ≡ false }
    ensures { FindsRows (state S.Store conn.old) (state S.Store conn.new) result
        (λ t count. count ≡ length t.products) }
{
    let rows = rows_of(conn, "SELECT name FROM product", &[])?;
    Ok(count(rows.as_slice()))
}
