//! Checks the names and values of products and lots.
ghost use Rattle.std.specs.Prelude.{◌≡◌, ◌↔◌, ◌+◌, ◌&&◌, ◌||◌, IsSome, IsTrue, All, not, bytes_eq};
ghost use Rattle.std.specs.Prelude.{nat_le};
ghost use Rattle.store_data.specs.Sequence.{IsProduct};
ghost use Rattle.job_facts.specs.Sound.{AreLots, AreProducts, IsLot, IsName};
ghost use Rattle.job_facts.specs.States.{product_named};
ghost use Rattle.table_rows.specs.Tables.{StoredLot as LotValue};
ghost use Rattle.store_data.specs.declared.row.Product.{Product as ProductValue};
ghost use Rattle.audit_order.specs.Order.{lots_of};
ghost use Rattle.audit_rows.specs.Audit.{IsRanged};

use crate::once::{Apart, are_apart};
use audit_order::{is_name, product_named};
use table_rows::{StoredBatch, StoredLot, StoredProduct};

/// The limit of serials: all serials are below it.
const END: u64 = 1_000_000_000_000_000_000;

/// Two products are apart if they have different names.
impl Apart for StoredProduct {
    ghost apart = { λ p q. not (bytes_eq p.code q.code) };

    fn is_apart(&self, other: &Self) -> bool {
        self.name.as_slice() != other.name.as_slice()
    }
}

/// Two batches are apart if they have different names.
impl Apart for StoredBatch {
    ghost apart = { λ b c. not (bytes_eq b.name c.name) };

    fn is_apart(&self, other: &Self) -> bool {
        self.name.as_slice() != other.name.as_slice()
    }
}

// Returns `true` if the last serial of `lot` is below the first serial of `other`.
fn ends_before(lot: &StoredLot, other: &StoredLot) -> bool
    ensures { result ≡ nat_le (lot.now.lot.first + lot.now.lot.count) other.now.lot.first }
{
    lot.low_serial <= other.low_serial && u64::from(lot.amount) <= other.low_serial - lot.low_serial
}

// Returns `true` if the two lots have different names.
fn differ(lot: &StoredLot, other: &StoredLot) -> bool
    ensures { result ≡ not (bytes_eq lot.now.lot.name other.now.lot.name) }
{
    lot.name.as_slice() != other.name.as_slice()
}

/// Two lots are apart if they have different names and share no serial.
impl Apart for StoredLot {
    ghost apart = { λ l m. not (bytes_eq l.lot.name m.lot.name)
        && (nat_le (l.lot.first + l.lot.count) m.lot.first
        || nat_le (m.lot.first + m.lot.count) l.lot.first) };

    fn is_apart(&self, other: &Self) -> bool {
        differ(self, other) && (ends_before(self, other) || ends_before(other, self))
    }
}

// Returns `true` if the product has a valid name and its values are in range.
fn is_product(row: &StoredProduct) -> bool
    ensures { IsTrue result ↔ (IsName row.now.code × IsProduct row.now) }
{
    is_name(&row.name) && row.max >= 16 && row.low <= 31
}

// Returns `true` if all products have valid names and their values are in range.
fn are_in_range(products: &[StoredProduct]) -> bool
    ensures { IsTrue result ↔ All (λ (p : ProductValue). IsName p.code × IsProduct p) products.now }
{
    products.iter().all(|row| is_product(row))
}

/// Returns `true` if there are at most 256 products, their values are in range, and no two have the
/// same name.
pub(crate) fn are_products(products: &[StoredProduct]) -> bool
    ensures { IsTrue result ↔ AreProducts products.now }
{
    if products.len() > 256 {
        return false;
    }
    if !are_apart(products) {
        return false;
    }
    are_in_range(products)
}

// Returns `true` if the product of `lot` exists.
fn has_product(products: &[StoredProduct], lot: &StoredLot) -> bool
    requires { AreProducts products.now }
    ensures { IsTrue result ↔ IsSome (product_named products.now lot.now.lot.product) }
{
    product_named(products, &lot.product).is_some()
}

// Returns `true` if the lot has a valid name and its serials are in range.
fn is_ranged(lot: &StoredLot) -> bool
    ensures { IsTrue result ↔ IsRanged lot.now.lot }
{
    is_name(&lot.name)
        && lot.amount >= 1
        && lot.amount <= 1_000_000
        && lot.low_serial <= END - u64::from(lot.amount)
}

// Returns `true` if the values of `lot` are in range and its product exists.
fn is_lot(products: &[StoredProduct], lot: &StoredLot) -> bool
    requires { AreProducts products.now }
    ensures { IsTrue result ↔ IsLot products.now lot.now.lot }
{
    if !is_ranged(lot) {
        return false;
    }
    has_product(products, lot)
}

// Returns `true` if the values of all lots are in range and their products exist.
fn are_lots_in_range(products: &[StoredProduct], lots: &[StoredLot]) -> bool
    requires { AreProducts products.now }
    ensures { IsTrue result ↔ All (λ (l : LotValue). IsLot products.now l.lot) lots.now }
{
    lots.iter().all(|lot| is_lot(products, lot))
}

/// Returns `true` if there are at most 4,096 lots, their values are in range, their products exist,
/// and no two have the same name or share a serial.
pub(crate) fn are_lots(products: &[StoredProduct], lots: &[StoredLot]) -> bool
    requires { AreProducts products.now }
    ensures { IsTrue result ↔ AreLots products.now (lots_of lots.now) }
{
    if lots.len() > 4096 {
        return false;
    }
    if !are_apart(lots) {
        return false;
    }
    are_lots_in_range(products, lots)
}
