//! The output of `shopbook blanks`: the charged blanks of a product, and their sums.
ghost use Rattle.std.specs.Prelude.{◌≡◌, ◌∷◌, ◌++◌, ◌<◌, ◌^◌, [], ℕ, IfOk, List, OnOk};
ghost use Rattle.std.specs.Prelude.{bytes_eq, filter, if◌then◌else◌};
ghost use Rattle.std.specs.Prelude.{flat_map, is_some, length, option_and_then, option_map, sum_by};
ghost use Rattle.std.specs.List.Sorted.{IsNonDecreasingBy};
ghost use Rattle.job_facts.specs.Accounts.{blank_totals};
ghost use Rattle.job_facts.specs.Contents.{AreSound, Contents};
ghost use Rattle.job_facts.specs.States.{product_named};
ghost use Rattle.table_rows.specs.Keys.{is_lot_for};
ghost use Rattle.table_rows.specs.Tables.{StoredLot as LotValue, StoredSession as SessionValue};
ghost use Rattle.table_rows.specs.Tables.{HaveSameRows, Tables as TablesValue};
ghost use Rattle.image_laws.specs.Image.{image};
ghost use Rattle.audit_order.specs.Order.{AreReady};
ghost use Rattle.book_lines.specs.Blanks.{IsAccount, batch_charges, batch_for, blank_line};
ghost use Rattle.book_lines.specs.Blanks.{blanks_for, blanks_of, blanks_text, charge_of};
ghost use Rattle.book_lines.specs.Blanks.{charges_of, count_in_state, is_charged_to, is_of};
ghost use Rattle.book_lines.specs.Blanks.{is_wanted};
ghost use Rattle.book_lines.specs.Blanks.{record_for, share_for, sums_line, wanted_text};
ghost use Rattle.book_lines.specs.Book.{IsBook};
ghost use Rattle.book_lines.specs.Keyed.{AreKeyed};
ghost use Rattle.book_lines.specs.Lines.{line_text};

use crate::blank_state::BlankState;
use crate::cell::{Cell, digits, name, number, word};
use crate::charge::Charge;
use crate::form::Form;
use crate::keyed::{Keyed, by_serial, session_on};
use crate::line::push_line;
use audit_order::{lot_for, product_named, range_of};
use std::alloc::{AllocError, Global};
use store_data::Name;
use table_rows::{StoredBlank, StoredLot, StoredSession, Tables};

/// Returns the output of `shopbook blanks` for the product `product`, or `None` if the product
/// doesn't exist. It has a line for each charged blank, in the order of serials, and a line with
/// the sums. If `state` is given, only the blanks in this state have lines, but the sums include
/// all blanks. The sums are equal to the product's account of blanks.
///
/// Takes O(n log n) time for n blanks, lots, records and sessions.
///
/// # Errors
///
/// Returns `AllocError` if an allocation fails.
pub fn blanks_of(
    alloc: Global,
    form: Form,
    tables: &Tables,
    product: &Name,
    state: Option<BlankState>,
) -> Result<Option<Vec<u8>>, AllocError>
    requires { IsBook tables.now }
    ensures text { IfOk result (λ found. option_map (λ text. text.items) found
        ≡ blanks_of form tables.now product.now state) }
    ensures account { (c : Contents) → AreSound c → HaveSameRows tables.now (image c)
        → IsAccount tables.now product.now (blank_totals c.facts product.now) }
{
    sums_are_accounts();
    if !has_product(tables, product) {
        return Ok(None);
    }
    let text = blanks_text(alloc, form, tables, product, state)?;
    Ok(Some(text))
}

// Lemma: the sums of a product are its account, for any contents that the rows represent.
fn sums_are_accounts()
    ensures { (t : TablesValue) (c : Contents) (p : List ℕ) → IsBook t → AreSound c
        → HaveSameRows t (image c) → IsAccount t p (blank_totals c.facts p) }
{}

fn has_product(tables: &Tables, product: &Name) -> bool
    requires { AreReady tables.now }
    ensures { result ≡ is_some (product_named tables.now.products product.now) }
{
    product_named(&tables.products, product.bytes()).is_some()
}

// Returns the lines and the sums of the product `product`.
fn blanks_text(
    alloc: Global,
    form: Form,
    tables: &Tables,
    product: &Name,
    state: Option<BlankState>,
) -> Result<Vec<u8>, AllocError>
    requires { IsBook tables.now }
    ensures { IfOk result (λ text. text.items ≡ blanks_text form tables.now product.now state) }
{
    let by_serial = by_serial(alloc, &tables.sessions)?;
    let charges = charges_of(alloc, tables, &by_serial, product)?;
    let mut text = Vec::new(alloc);
    push_blanks(&mut text, form, tables, &charges, state)?;
    push_sums(&mut text, form, tables, product, &charges)?;
    Ok(text)
}

// ---- charged blanks

// Returns the charged blanks of the product `product`, in the order of serials.
fn charges_of<'a>(
    alloc: Global,
    tables: &'a Tables,
    by_serial: &[Keyed<'a, StoredSession>],
    product: &Name,
) -> Result<Vec<Charge<'a>>, AllocError>
    requires ready { AreReady tables.now }
    requires sessions { AreKeyed (λ (s : SessionValue). s.serial)
        tables.now.sessions by_serial.now }
    ensures { IfOk result (λ charges. charges.items ≡ charges_of tables.now product.now) }
{
    let mut charges = Vec::new(alloc);
    for blank in &tables.blanks {
        if is_of(tables, product, blank) {
            charges.push(charge_of(by_serial, blank))?;
        }
    }
    Ok(charges)
}

// Returns `true` if `blank` is in a lot of the product `product`.
fn is_of(tables: &Tables, product: &Name, blank: &StoredBlank) -> bool
    requires { AreReady tables.now }
    ensures { result ≡ is_of tables.now product.now blank.now }
{
    match lot_for(tables, blank.serial) {
        None => false,
        Some(lot) => is_for(lot, product),
    }
}

// Returns `true` if `lot` is a lot of the product `product`.
fn is_for(lot: &StoredLot, product: &Name) -> bool
    ensures { result ≡ is_lot_for product.now lot.now }
{
    lot.product.as_slice() == product.bytes()
}

// Returns the charged blank `blank` with its session. A discarded blank has no session.
fn charge_of<'a>(by_serial: &[Keyed<'a, StoredSession>], blank: &'a StoredBlank) -> Charge<'a>
    requires { IsNonDecreasingBy (λ (k : ℕ × SessionValue). k.0) by_serial.now }
    ensures { (t : TablesValue)
        → AreKeyed (λ (s : SessionValue). s.serial) t.sessions by_serial.now
        → result ≡ charge_of t blank.now }
{
    let on = if blank.discarded {
        None
    } else {
        session_on(by_serial, blank.serial)
    };
    Charge { blank, on }
}

/// Returns the blanks charged to the batch with the id `id`, in the order of their rows.
///
/// Takes O(n log n) time for n blanks and sessions.
///
/// # Errors
///
/// Returns `AllocError` if an allocation fails.
pub fn batch_charges(alloc: Global, tables: &Tables, id: u64) -> Result<Vec<Charge<'_>>, AllocError>
    ensures { IfOk result (λ charges. charges.items ≡ batch_charges tables.now id) }
{
    let by_serial = by_serial(alloc, &tables.sessions)?;
    let mut charges = Vec::new(alloc);
    add_charges(&mut charges, tables, &by_serial, id)?;
    Ok(charges)
}

fn add_charges<'a>(
    charges: &mut Vec<Charge<'a>>,
    tables: &'a Tables,
    by_serial: &[Keyed<'a, StoredSession>],
    id: u64,
) -> Result<(), AllocError>
    requires { AreKeyed (λ (s : SessionValue). s.serial) tables.now.sessions by_serial.now }
    ensures { OnOk result (charges.new.items
        ≡ charges.old.items ++ batch_charges tables.now id) }
{
    for blank in &tables.blanks {
        add_charge(charges, charge_of(by_serial, blank), id)?;
    }
    Ok(())
}

fn add_charge<'a>(
    charges: &mut Vec<Charge<'a>>,
    charge: Charge<'a>,
    id: u64,
) -> Result<(), AllocError>
    ensures { OnOk result (charges.new.items
        ≡ charges.old.items ++ (if is_charged_to id charge.entry then charge.entry ∷ [] else [])) }
{
    if is_charged_to(&charge, id) {
        charges.push(charge)?;
    }
    Ok(())
}

// Returns `true` if the session of the blank belongs to the batch with the id `id`.
fn is_charged_to(charge: &Charge<'_>, id: u64) -> bool
    ensures { result ≡ is_charged_to id charge.now }
{
    match charge.on {
        None => false,
        Some(session) => session.batch == id,
    }
}

// ---- lines

fn push_blanks<'a>(
    text: &mut Vec<u8>,
    form: Form,
    tables: &'a Tables,
    charges: &[Charge<'a>],
    state: Option<BlankState>,
) -> Result<(), AllocError>
    requires { AreReady tables.now }
    ensures { OnOk result (text.new.items
        ≡ text.old.items ++ flat_map (wanted_text form tables.now state) charges.now) }
{
    for charge in charges {
        push_wanted(text, form, tables, charge, state)?;
    }
    Ok(())
}

fn push_wanted<'a>(
    text: &mut Vec<u8>,
    form: Form,
    tables: &'a Tables,
    charge: &Charge<'a>,
    state: Option<BlankState>,
) -> Result<(), AllocError>
    requires { AreReady tables.now }
    ensures { OnOk result
        (text.new.items ≡ text.old.items ++ wanted_text form tables.now state charge.now) }
{
    if is_wanted(charge, state) {
        push_blank(text, form, tables, charge)?;
    }
    Ok(())
}

fn is_wanted(charge: &Charge<'_>, state: Option<BlankState>) -> bool
    ensures { result ≡ is_wanted state charge.now }
{
    match state {
        None => true,
        Some(state) => charge.is_in_state(state),
    }
}

fn push_blank<'a>(
    text: &mut Vec<u8>,
    form: Form,
    tables: &'a Tables,
    charge: &Charge<'a>,
) -> Result<(), AllocError>
    requires { AreReady tables.now }
    ensures { OnOk result
        (text.new.items ≡ text.old.items ++ line_text form (blank_line tables.now charge.now)) }
{
    push_line(text, form, "blank", &blank_cells(tables, charge))
}

/// Returns the cells of the line of a charged blank.
pub fn blank_cells<'a>(tables: &'a Tables, charge: &Charge<'a>) -> [Cell<'a>; 5]
    requires { AreReady tables.now }
    ensures { result ≡ (blank_line tables.now charge.now).cells }
{
    let blank = charge.blank;
    [
        digits("serial", blank.serial),
        word("lot", &blank.lot),
        word("state", charge.stands().word().as_bytes()),
        name("record", record_on(tables, charge)),
        name("batch", batch_on(tables, charge)),
    ]
}

// Returns the name of the record that the blank was charged for, if it has a session.
fn record_on<'a>(tables: &'a Tables, charge: &Charge<'_>) -> Option<&'a [u8]>
    requires { AreReady tables.now }
    ensures { option_map (λ n. n.now) result
        ≡ option_and_then (record_for tables.now) charge.now.on }
{
    match charge.on {
        None => None,
        Some(session) => record_for(tables, session),
    }
}

// Returns the name of the batch that the blank is charged to, if it has a session.
fn batch_on<'a>(tables: &'a Tables, charge: &Charge<'_>) -> Option<&'a [u8]>
    ensures { option_map (λ n. n.now) result
        ≡ option_and_then (batch_for tables.now) charge.now.on }
{
    match charge.on {
        None => None,
        Some(session) => batch_for(tables, session),
    }
}

// Returns the name of the record of `session`.
fn record_for<'a>(tables: &'a Tables, session: &StoredSession) -> Option<&'a [u8]>
    requires { AreReady tables.now }
    ensures { option_map (λ n. n.now) result ≡ record_for tables.now session.now }
{
    let records = range_of(&tables.records, session.batch);
    let record = records.get(session.place as usize)?;
    Some(&record.name)
}

// Returns the name of the batch of `session`.
fn batch_for<'a>(tables: &'a Tables, session: &StoredSession) -> Option<&'a [u8]>
    ensures { option_map (λ n. n.now) result ≡ batch_for tables.now session.now }
{
    let batch = tables
        .batches
        .get(session.batch.saturating_sub(1) as usize)?;
    Some(&batch.name)
}

// ---- sums

fn push_sums(
    text: &mut Vec<u8>,
    form: Form,
    tables: &Tables,
    product: &Name,
    charges: &[Charge<'_>],
) -> Result<(), AllocError>
    requires { sum_by (λ (l : LotValue). l.lot.count) tables.now.lots < 2 ^ 64 }
    ensures { OnOk result (text.new.items
        ≡ text.old.items ++ line_text form (sums_line product.now tables.now.lots charges.now)) }
{
    let total = blanks_for(&tables.lots, product);
    let cells = [
        number("lots", lots_for(&tables.lots, product)),
        number("total", total),
        number("free", total.saturating_sub(charges.len() as u64)),
        number("good", count_in_state(charges, BlankState::Good)),
        number("running", count_in_state(charges, BlankState::Running)),
        number("spoiled", count_in_state(charges, BlankState::Spoiled)),
        number("discarded", count_in_state(charges, BlankState::Discarded)),
    ];
    push_line(text, form, "sums", &cells)
}

// Returns the number of lots of the product `product`.
fn lots_for(lots: &[StoredLot], product: &Name) -> u64
    ensures { result ≡ length (filter (is_lot_for product.now) lots.now) }
{
    lots.iter().filter(|lot| is_for(lot, product)).count() as u64
}

// Returns the number of blanks in the lots of the product `product`.
fn blanks_for(lots: &[StoredLot], product: &Name) -> u64
    requires { sum_by (λ (l : LotValue). l.lot.count) lots.now < 2 ^ 64 }
    ensures { result ≡ blanks_for product.now lots.now }
{
    let mut total = 0;
    for lot in lots {
        let more = share_for(lot, product);
        total += more;
    }
    total
}

// Returns the number of blanks in `lot` if it is a lot of the product `product`, otherwise 0.
fn share_for(lot: &StoredLot, product: &Name) -> u64
    ensures { result ≡ share_for product.now lot.now }
{
    if is_for(lot, product) {
        u64::from(lot.amount)
    } else {
        0
    }
}

// Returns the number of charged blanks in the state `state`.
fn count_in_state(charges: &[Charge<'_>], state: BlankState) -> u64
    ensures { result ≡ count_in_state state charges.now }
{
    charges
        .iter()
        .filter(|charge| charge.is_in_state(state))
        .count() as u64
}
