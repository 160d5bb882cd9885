//! Finds products, lots and batches by name.
ghost use Rattle.std.specs.Prelude.{◌≡◌, IfSome, option_copied};
ghost use Rattle.store_data.specs.Sequence.{IsProduct};
ghost use Rattle.job_facts.specs.States.{batch_named, lot_named, product_named};

use crate::lists::KeptBatch;
use job_facts::Lot;
use store_data::{Name, Product, ValidProduct};

pub(crate) fn product_named(products: &[ValidProduct], code: &Name) -> Option<Product>
    ensures value { result ≡ product_named products.now code.now }
    ensures ranged { IfSome result IsProduct }
{
    for valid in products {
        let product = valid.product();
        if product.code == *code {
            return Some(product);
        }
    }
    None
}

pub(crate) fn lot_named<'a>(lots: &'a [Lot], name: &Name) -> Option<&'a Lot>
    ensures { option_copied result ≡ lot_named lots.now name.now }
{
    lots.iter().find(|lot| lot.name == *name)
}

pub(crate) fn batch_named<'a>(batches: &'a [KeptBatch], name: &Name) -> Option<&'a KeptBatch>
    ensures { option_copied result ≡ batch_named batches.now name.now }
{
    batches.iter().find(|batch| batch.name == *name)
}
