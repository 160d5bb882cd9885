//! The output of `shopbook list`: products, lots and batches, limits, and the size of the database
//! file.
ghost use Rattle.std.specs.Prelude.{◌≡◌, ◌++◌, ◌+◌, ◌-◌, ◌≤◌, ◌^◌, IfOk, OnOk, All, filter, length};
ghost use Rattle.std.specs.Prelude.{◌&&◌, nat_le, nat_lt};
ghost use Rattle.std.specs.List.Sorted.{IsNonDecreasingBy};
ghost use Rattle.table_rows.specs.Keys.{is_record_of};
ghost use Rattle.table_rows.specs.Tables.{StoredBlank as BlankValue, StoredLot as LotValue};
ghost use Rattle.audit_laws.specs.Audited.{opened_rows};
ghost use Rattle.audit_order.specs.Order.{AreReady, AreSorted};
ghost use Rattle.book_lines.specs.Lists.{batch_line, charged_in, list_text};
ghost use Rattle.book_lines.specs.Lists.{open_or_closed, yes_or_no};

use crate::cell::{Cell, digits, number, word};
use crate::form::Form;
use crate::limits::{push_limits, push_size};
use crate::line::push_line;
use crate::printed::{Printed, print_all};
use audit_order::range_of;
use std::alloc::{AllocError, Global};
use table_rows::{StoredBatch, StoredBlank, StoredLot, StoredProduct, Tables};

/// Returns the output of `shopbook list`: a line for each product, lot and batch, in the order of
/// their rows. Lines follow with the used and the allowed numbers of products, lots and batches,
/// and with the size of the database file in bytes, `size`, if it is known.
///
/// The time is linear in the number of products, lots, batches and charged blanks, except for a
/// binary search for each lot and each batch.
///
/// # Errors
///
/// Returns `AllocError` if an allocation fails.
pub fn list_text(
    alloc: Global,
    form: Form,
    size: Option<u64>,
    tables: &Tables,
) -> Result<Vec<u8>, AllocError>
    requires ready { AreReady tables.now }
    requires sorted { AreSorted tables.now }
    ensures { IfOk result (λ text. text.items ≡ list_text form size tables.now) }
{
    let mut text = Vec::new(alloc);
    print_all(&mut text, form, tables, &tables.products)?;
    print_all(&mut text, form, tables, &tables.lots)?;
    print_all(&mut text, form, tables, &tables.batches)?;
    push_limits(&mut text, form, tables)?;
    push_size(&mut text, form, size)?;
    Ok(text)
}

// ---- products

impl Printed for StoredProduct {
    ghost use Rattle.std.specs.Prelude.{⊤};
    ghost use Rattle.book_lines.specs.Lists.{product_line};

    ghost fits = { λ t p. ⊤ };

    ghost line = { λ t p. product_line p };

    fn print(&self, text: &mut Vec<u8>, form: Form, _tables: &Tables) -> Result<(), AllocError> {
        let cells = [
            word("name", &self.name),
            number("max", u64::from(self.max)),
            number("low", u64::from(self.low)),
            word("check", yes_or_no(self.checked).as_bytes()),
        ];
        push_line(text, form, "product", &cells)
    }
}

fn yes_or_no(is_so: bool) -> &'static str
    ensures { result.now ≡ yes_or_no is_so }
{
    if is_so { "yes" } else { "no" }
}

// ---- lots

impl Printed for StoredLot {
    ghost use Rattle.std.specs.Prelude.{◌+◌, ◌≤◌, ◌^◌};
    ghost use Rattle.std.specs.List.Sorted.{IsNonDecreasingBy};
    ghost use Rattle.table_rows.specs.Tables.{StoredBlank};
    ghost use Rattle.book_lines.specs.Lists.{lot_line};

    ghost fits = { λ t l. IsNonDecreasingBy (λ (b : StoredBlank). b.serial) t.blanks
        × (l.lot.first + l.lot.count ≤ 10 ^ 18) };

    ghost line = { λ t l. lot_line t.blanks l };

    fn print(&self, text: &mut Vec<u8>, form: Form, tables: &Tables) -> Result<(), AllocError> {
        let charged = charged_in(&tables.blanks, self);
        let cells = [
            word("name", &self.name),
            word("product", &self.product),
            digits("first", self.low_serial),
            number("count", u64::from(self.amount)),
            number("free", free(self, charged)),
            number("used", used(charged)),
            number("discarded", self.discarded),
        ];
        push_line(text, form, "lot", &cells)
    }
}

// Returns the number of blanks in `lot` that aren't charged.
fn free(lot: &StoredLot, charged: &[StoredBlank]) -> u64
    ensures { result ≡ lot.now.lot.count - length charged.now }
{
    u64::from(lot.amount).saturating_sub(charged.len() as u64)
}

// Returns the number of blanks in `charged` that a session charged. The others are discarded.
fn used(charged: &[StoredBlank]) -> u64
    ensures { result ≡ length (opened_rows charged.now) }
{
    charged.iter().filter(|blank| !blank.discarded).count() as u64
}

// Returns the charged blanks in `lot`, in the order of serials.
fn charged_in<'a>(blanks: &'a [StoredBlank], lot: &StoredLot) -> &'a [StoredBlank]
    requires rising { IsNonDecreasingBy (λ (b : BlankValue). b.serial) blanks.now }
    requires range { lot.now.lot.first + lot.now.lot.count ≤ 10 ^ 18 }
    ensures { result.now ≡ charged_in lot.now blanks.now }
{
    let low = lot.low_serial;
    between(blanks, low, low + u64::from(lot.amount))
}

// Returns the blanks whose serials are at least `low` and below `end`.
fn between(blanks: &[StoredBlank], low: u64, end: u64) -> &[StoredBlank]
    requires { IsNonDecreasingBy (λ (b : BlankValue). b.serial) blanks.now }
    ensures { result.now
        ≡ filter (λ (b : BlankValue). nat_le low b.serial && nat_lt b.serial end) blanks.now }
{
    let first = blanks.partition_point(|blank| blank.serial < low);
    let rest = &blanks[first..];
    let count = rest.partition_point(|blank| blank.serial < end);
    &rest[..count]
}

// ---- batches

impl Printed for StoredBatch {
    ghost use Rattle.audit_order.specs.Order.{AreReady};
    ghost use Rattle.book_lines.specs.Lists.{batch_line};

    ghost fits = { λ t b. AreReady t };

    ghost line = { λ t b. batch_line t b };

    fn print(&self, text: &mut Vec<u8>, form: Form, tables: &Tables) -> Result<(), AllocError> {
        push_line(text, form, "batch", &batch_cells(tables, self))
    }
}

/// Returns the cells of the line of `batch`.
pub fn batch_cells<'a>(tables: &Tables, batch: &'a StoredBatch) -> [Cell<'a>; 11]
    requires { AreReady tables.now }
    ensures { result ≡ (batch_line tables.now batch.now).cells }
{
    [
        word("name", &batch.name),
        word("product", &batch.product),
        word("state", open_or_closed(batch.closed).as_bytes()),
        number("records", records(tables, batch)),
        number("waiting", batch.waiting),
        number("running", batch.running),
        number("failed", batch.failed),
        number("withdrawn", batch.withdrawn),
        number("good", batch.good),
        number("sessions", batch.sessions),
        number("spoiled", batch.spoiled),
    ]
}

/// Returns the number of records of `batch`.
pub(crate) fn records(tables: &Tables, batch: &StoredBatch) -> u64
    requires { AreReady tables.now }
    ensures { result ≡ length (filter (is_record_of batch.now.id) tables.now.records) }
{
    range_of(&tables.records, batch.id).len() as u64
}

/// Returns the word for the state of a batch: `closed` or `open`.
pub fn open_or_closed(is_closed: bool) -> &'static str
    ensures { result.now ≡ open_or_closed is_closed }
{
    if is_closed { "closed" } else { "open" }
}
