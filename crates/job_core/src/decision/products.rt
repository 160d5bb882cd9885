//! The decisions on products, lots and imports.
ghost use Rattle.std.specs.Prelude.{◌≡◌, ◌<◌, ◌+◌, None, Some, IfErr, IfOk, IfSome, length};
ghost use Rattle.store_data.specs.Sequence.{IsProduct};
ghost use Rattle.batch_import.specs.Batch.{batch_of};
ghost use Rattle.job_facts.specs.Facts.{Facts};
ghost use Rattle.job_facts.specs.Sound.{Decides, IsSound, Makes};
ghost use Rattle.job_facts.specs.Requests.{IsLotRange};
ghost use Rattle.job_facts.specs.Rows.{batch_has, batch_row_of, batch_size_of};
ghost use Rattle.job_facts.specs.States.{any_overlaps, batch_named, lot_named, product_named};
ghost use Rattle.job_facts.specs.Steps.{new_batch, new_lot, same_product, taken_in};
ghost use Rattle.job_facts.specs.Store.{LeavesContents, Reads};
ghost use Rattle.job_facts.specs.declared.request.Request.TheVariants as request;
ghost use Rattle.job_facts.specs.declared.store.StoreFault.TheVariants.{Memory};

use super::{Decision, refused};
use batch_import::{ImportFault, check_batch};
use job_facts::{
    BatchRow, BatchSize, Change, JobStore, Lot, Made, NewBatch, Refusal, Reply, StoreFault,
};
use std::alloc::Global;
use store_data::{Name, Product, laws};

/// The maximum number of products (this project's profile).
const MOST_PRODUCTS: u64 = 256;

/// The maximum number of lots (this project's profile).
const MOST_LOTS: u64 = 4096;

/// The maximum number of batches (this project's profile).
const MOST_BATCHES: u64 = 4096;

/// Decides a `product` request.
pub(crate) fn product<S: JobStore>(
    store: &mut S,
    client: &Name,
    product: &Product,
) -> Result<Decision<'static>, StoreFault>
    requires { IsProduct product.now }
    ensures value { Reads (S.state store.old) (S.state store.new) result
        (λ c answer. Decides c.facts client.now (request.Product product.now) answer.0 answer.1) }
    ensures leaves { LeavesContents (S.state store.old) (S.state store.new) result }
{
    let kept = store.product(&product.code)?;
    let products = store.product_count()?;
    Ok(product_by(client, product, kept, products))
}

// Decides from `kept`, the stored product with the same name, and `products`, the number of
// products.
#[tactic(auto, unfolding(job_facts::specs::Steps::step))]
fn product_by(
    client: &Name,
    product: &Product,
    kept: Option<Product>,
    products: u64,
) -> Decision<'static>
    requires { IsProduct product.now }
    ensures { (f : Facts) → IsSound f → kept ≡ product_named f.products product.now.code
        → products ≡ length f.products
        → Decides f client.now (request.Product product.now) result.0 result.1 }
{
    let code = product.code;
    laws::is_a_name(&code);
    match kept {
        Some(kept) if same_product(&kept, product) => {
            let made = Made::Known;
            (
                Reply::Product {
                    product: code,
                    made,
                },
                Change::Nothing,
            )
        }
        Some(_) => refused(Refusal::ProductDiffers),
        None if products >= MOST_PRODUCTS => refused(Refusal::Limit),
        None => {
            let (made, product) = (Made::Created, *product);
            (
                Reply::Product {
                    product: code,
                    made,
                },
                Change::AddsProduct { product },
            )
        }
    }
}

fn same_product(p: &Product, q: &Product) -> bool
    ensures { result ≡ same_product p.now q.now }
{
    p.code == q.code && p.max == q.max && p.low == q.low && p.check == q.check
}

/// Decides a `lot` request.
pub(crate) fn lot<S: JobStore>(
    store: &mut S,
    client: &Name,
    lot: &Lot,
) -> Result<Decision<'static>, StoreFault>
    requires { IsLotRange lot.now }
    ensures value { Reads (S.state store.old) (S.state store.new) result
        (λ c answer. Decides c.facts client.now (request.Lot lot.now) answer.0 answer.1) }
    ensures leaves { LeavesContents (S.state store.old) (S.state store.new) result }
{
    let kept = store.lot(&lot.name)?;
    let product = store.product(&lot.product)?;
    let overlaps = store.overlaps(lot.first, lot.count)?;
    let lots = store.lot_count()?;
    let facts = LotFacts {
        kept,
        product,
        overlaps,
        lots,
    };
    Ok(lot_by(client, lot, facts))
}

// The facts that decide a `lot` request: the stored lot with the same name, the product, whether a
// lot already has one of the serials, and the number of lots.
#[derive(Clone, Copy)]
struct LotFacts {
    kept: Option<Lot>,
    product: Option<Product>,
    overlaps: bool,
    lots: u64,
}

// Decides from `facts`.
#[tactic(auto, unfolding(job_facts::specs::Steps::step))]
fn lot_by(client: &Name, lot: &Lot, facts: LotFacts) -> Decision<'static>
    requires { IsLotRange lot.now }
    ensures { (f : Facts) → IsSound f → facts.kept ≡ lot_named f.lots lot.now.name
        → facts.product ≡ product_named f.products lot.now.product
        → facts.overlaps ≡ any_overlaps f.lots lot.now.first lot.now.count
        → facts.lots ≡ length f.lots
        → Decides f client.now (request.Lot lot.now) result.0 result.1 }
{
    match facts.kept {
        None => new_lot(lot, facts.product, facts.overlaps, facts.lots),
        Some(kept) if kept == *lot => {
            let (lot, made) = (lot.name, Made::Known);
            (Reply::Lot { lot, made }, Change::Nothing)
        }
        Some(_) => refused(Refusal::LotDiffers),
    }
}

// Decides on a lot with a new name.
fn new_lot(lot: &Lot, product: Option<Product>, overlaps: bool, lots: u64) -> Decision<'static>
    requires { IsLotRange lot.now }
    ensures { (f : Facts) → IsSound f → lot_named f.lots lot.now.name ≡ None
        → product ≡ product_named f.products lot.now.product
        → overlaps ≡ any_overlaps f.lots lot.now.first lot.now.count → lots ≡ length f.lots
        → Makes f (new_lot f lot.now) result.0 result.1 }
{
    let name = lot.name;
    laws::is_a_name(&name);
    match product {
        None => refused(Refusal::ProductUnknown),
        Some(_) if overlaps => refused(Refusal::SerialsOverlap),
        Some(_) if lots >= MOST_LOTS => refused(Refusal::Limit),
        Some(_) => {
            let (made, lot) = (Made::Created, *lot);
            (Reply::Lot { lot: name, made }, Change::AddsLot { lot })
        }
    }
}

/// A batch file to import: its bytes, and the names of its batch and its product.
#[derive(Clone, Copy)]
pub(crate) struct BatchFile<'a> {
    pub(crate) batch: Name,
    pub(crate) product: Name,
    pub(crate) raw: &'a [u8],
}

/// Decides the import of `file`.
#[tactic(auto, unfolding(job_facts::specs::Steps::step))]
pub(crate) fn import<'a, S: JobStore>(
    alloc: Global,
    store: &mut S,
    client: &Name,
    file: &BatchFile<'a>,
) -> Result<Decision<'a>, StoreFault>
    ensures value { Reads (S.state store.old) (S.state store.new) result
        (λ c answer. Decides c.facts client.now
        (request.Import file.now.batch file.now.product file.now.raw.now)
        answer.0 answer.1) }
    ensures leaves { LeavesContents (S.state store.old) (S.state store.new) result }
{
    match store.batch(&file.batch)? {
        None => {
            let under = store.product(&file.product)?;
            let batches = store.batch_count()?;
            new_batch(alloc, file, under, batches)
        }
        Some(kept) => {
            let same = store.batch_has(&file.batch, file.raw)?;
            let size = store.batch_size(&file.batch)?;
            Ok(import_known(client, file, kept, same, size))
        }
    }
}

// Decides from `kept`, the stored batch with the same name, whether its file is the `same`, and its
// size.
#[tactic(auto, unfolding(job_facts::specs::Steps::step))]
fn import_known(
    client: &Name,
    file: &BatchFile<'_>,
    kept: BatchRow,
    same: bool,
    size: Option<BatchSize>,
) -> Decision<'static>
    ensures { (f : Facts) → IsSound f → batch_row_of f file.now.batch ≡ Some kept
        → same ≡ batch_has f file.now.batch file.now.raw.now
        → size ≡ batch_size_of f file.now.batch
        → Decides f client.now
        (request.Import file.now.batch file.now.product file.now.raw.now) result.0 result.1 }
{
    match size {
        Some(size) if kept.product == file.product && same => {
            let reply = Reply::Import {
                batch: file.batch,
                records: size.records,
                made: Made::Known,
                rows: size.rows,
            };
            (reply, Change::Nothing)
        }
        _ => refused(Refusal::BatchDiffers),
    }
}

// Decides on a batch with a new name. `under` is its product, and `batches` the number of batches.
fn new_batch<'a>(
    alloc: Global,
    file: &BatchFile<'a>,
    under: Option<Product>,
    batches: u64,
) -> Result<Decision<'a>, StoreFault>
    requires { IfSome under IsProduct }
    ensures value { (f : Facts) → IsSound f → batch_named f.batches file.now.batch ≡ None
        → under ≡ product_named f.products file.now.product
        → batches ≡ length f.batches
        → IfOk result (λ answer.
        Makes f (new_batch f file.now.batch file.now.product file.now.raw.now)
        answer.0 answer.1) }
    ensures cause { IfErr result (λ fault. fault ≡ Memory) }
{
    match under {
        None => Ok(refused(Refusal::ProductUnknown)),
        Some(_) if batches >= MOST_BATCHES => Ok(refused(Refusal::Limit)),
        Some(under) => taken_in(alloc, &file.batch, file.raw, under, batches + 1),
    }
}

// Decides from the totals of the batch file, or its first fault. `number` is the number of the new
// batch.
fn taken_in<'a>(
    alloc: Global,
    batch: &Name,
    raw: &'a [u8],
    product: Product,
    number: u64,
) -> Result<Decision<'a>, StoreFault>
    requires { IsProduct product }
    ensures value { (f : Facts) → IsSound f → batch_named f.batches batch.now ≡ None
        → product_named f.products product.code ≡ Some product
        → length f.batches < 4096 → number ≡ length f.batches + 1
        → IfOk result (λ answer.
        Makes f (taken_in f batch.now product.code raw.now (batch_of product raw.now))
        answer.0 answer.1) }
    ensures cause { IfErr result (λ fault. fault ≡ Memory) }
{
    laws::is_a_name(batch);
    match check_batch(alloc, raw, &product) {
        Ok(totals) => {
            let reply = Reply::Import {
                batch: *batch,
                records: totals.records,
                made: Made::Created,
                rows: totals.rows,
            };
            let batch = NewBatch {
                number,
                name: *batch,
                product,
                records: totals.records,
                raw,
            };
            Ok((reply, Change::AddsBatch { batch }))
        }
        Err(ImportFault::At(fault)) => Ok((Reply::Faulty { fault }, Change::Nothing)),
        Err(ImportFault::Memory) => Err(StoreFault::Memory),
    }
}
