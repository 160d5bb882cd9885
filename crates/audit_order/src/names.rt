//! Checks names, and finds the product with a name.
ghost use Rattle.std.specs.Prelude.{◌≡◌, IfSome, bytes_eq};
ghost use Rattle.store_data.specs.Name.{is_name};
ghost use Rattle.store_data.specs.Sequence.{IsProduct};
ghost use Rattle.job_facts.specs.Sound.{AreProducts, IsName};
ghost use Rattle.job_facts.specs.States.{product_named};

use store_data::{Name, Product};
use table_rows::StoredProduct;

/// Returns `true` if `bytes` is a valid name.
pub fn is_name(bytes: &[u8]) -> bool
    ensures { result ≡ is_name bytes.now }
{
    Name::new(bytes).is_some()
}

// Returns the product of a row of `product`.
fn product_of(row: &StoredProduct) -> Product
    requires { IsName row.now.code }
    ensures { result ≡ row.now }
{
    Product {
        code: Name::new(&row.name).unwrap(),
        max: row.max,
        low: row.low,
        check: row.checked,
    }
}

fn has_name(row: &StoredProduct, name: &[u8]) -> bool
    ensures { result ≡ bytes_eq row.now.code name.now }
{
    row.name.as_slice() == name
}

/// Returns the product with the name `name`.
pub fn product_named(products: &[StoredProduct], name: &[u8]) -> Option<Product>
    requires { AreProducts products.now }
    ensures value { result ≡ product_named products.now name.now }
    ensures ranged { IfSome result IsProduct }
{
    for row in products {
        if has_name(row, name) {
            return Some(product_of(row));
        }
    }
    None
}
