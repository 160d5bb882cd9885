//! A product, and a batch file with its printed plan.
ghost use Rattle.std.specs.Prelude.{◌≤◌, IfOk};
ghost use Rattle.store_data.specs.Sequence.{IsProduct};

use crate::exchanges::name;
use std::test::Fail;
use store_data::Product;

/// A batch file with two records. The first has an encrypted segment before a plain one.
pub(crate) const FILE: &[u8] =
    b"record,aid,rank,enc,tol,dgi\nR2,F00000000101,2,0,0,0102027000\nR1,F00000000101,1,0,0,0101027000\nR2,F00000000101,1,1,0,8000020102\n";

/// The printed plan of `FILE`.
pub(crate) const PRINTED: &str =
    "record R2\n00A4040006F00000000101\n80E26000058000020102\n80E28001050102027000\nrecord R1\n00A4040006F00000000101\n80E28000050101027000\n";

/// Returns a product with these settings.
pub(crate) fn product(max: u8, low: u8, check: bool) -> Result<Product, Fail>
    requires least { 16 ≤ max }
    requires most { low ≤ 31 }
    ensures { IfOk result IsProduct }
{
    Ok(Product {
        code: name("P1")?,
        max,
        low,
        check,
    })
}
