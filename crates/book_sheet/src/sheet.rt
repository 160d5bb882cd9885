//! The sheet of a batch.
ghost use Rattle.std.specs.Prelude.{◌≡◌, ◌++◌, ℕ, Contains, IfOk, IsTrue, List, OnOk, flat_map};
ghost use Rattle.std.specs.Prelude.{option_map};
ghost use Rattle.sha2.specs.Sha256.{sha256};
ghost use Rattle.job_facts.specs.Contents.{AreSound, Contents};
ghost use Rattle.table_rows.specs.Tables.{HaveSameRows};
ghost use Rattle.image_laws.specs.Image.{image};
ghost use Rattle.audit_order.specs.Order.{AreReady};
ghost use Rattle.reports.specs.Report.{report_text};
ghost use Rattle.book_lines.specs.Book.{IsBook};
ghost use Rattle.book_lines.specs.Report.{report_of};
ghost use Rattle.book_sheet.specs.Html.{escaped, is_text};
ghost use Rattle.book_sheet.specs.Sheet.{account_heads, account_html, bar_html, blank_heads};
ghost use Rattle.book_sheet.specs.Sheet.{blanks_html, card_heads, card_html, cards_html};
ghost use Rattle.book_sheet.specs.Sheet.{charge_html, counts_html, digest_html, digests_html};
ghost use Rattle.book_sheet.specs.Sheet.{ended_html, going_html, head_html, part_html, parts_html};
ghost use Rattle.book_sheet.specs.Sheet.{sheet_of};
ghost use Rattle.book_sheet.specs.Sheet.{sheet_text, start, style, title_html, top_html};

use crate::html::{push_between, push_escaped, push_named, push_plain, push_row};
use book_lines::{
    Card, Charge, batch_cards, batch_cells, batch_charges, batch_named, batch_report, blank_cells,
    card_cells, open_or_closed, push_number, reports_by_rows, stands_by,
};
use sha2::{Digest, Sha256};
use std::alloc::{AllocError, Global};
use store_data::Name;
use table_rows::{StoredBatch, Tables};

/// The start of the page, up to the title.
const START: &str = "<!DOCTYPE html>\n<html lang=\"en\">\n<head>\n\
<meta charset=\"utf-8\">\n<title>Batch ";

/// The rest of the head, with the style for screen and paper.
const STYLE: &str = "</title>\n<style>body{font-family:sans-serif}table{border-collapse:collapse}\
th,td{border:1px solid;padding:2px 8px;text-align:left}\
.bar{display:flex;border:1px solid;height:20px;print-color-adjust:exact}\
.waiting{background:#eee}.running{background:#9cf}\
.failed,.spoiled{background:#f99;font-weight:bold}\
.withdrawn{background:#aaa}.good{background:#9d9}</style>\n</head>\n<body>\n";

/// The column headings of the account.
const ACCOUNT: &str = "<table>\n<thead>\n<tr><th>records</th><th class=\"waiting\">waiting</th>\
<th class=\"running\">running</th><th class=\"failed\">failed</th>\
<th class=\"withdrawn\">withdrawn</th><th class=\"good\">good</th>\
<th>sessions</th><th>spoiled</th></tr>\n</thead>\n";

/// The column headings of the cards.
const CARDS: &str = "<h2>Cards</h2>\n<table>\n<thead>\n<tr><th>record</th><th>session</th>\
<th>machine</th><th>serial</th><th>state</th><th>words</th><th>last</th></tr>\n</thead>\n";

/// The column headings of the blanks.
const BLANKS: &str = "<h2>Blanks</h2>\n<table>\n<thead>\n<tr><th>serial</th><th>lot</th>\
<th>state</th><th>record</th></tr>\n</thead>\n";

/// The text before the SHA-256 of the batch file.
const FILE: &str = "<p>SHA-256 of the batch file <code>";

/// The text before the SHA-256 of the report.
const REPORT: &str = "<p>SHA-256 of the close report, as it would be written now <code>";

/// Returns the sheet of the batch `batch`, or `None` if the batch doesn't exist. The sheet has the
/// name, the product and the state of the batch; its records by state, as a bar and in numbers; its
/// cards; the blanks charged to it; and the SHA-256 of the batch file and of the current report.
///
/// Text from the rows is escaped, so it never becomes markup. For any contents that the rows
/// represent, the report is the output of `persod report`.
///
/// Takes O(f + n log n) time for a batch file of f bytes and n sessions, blanks, status words and
/// records of the batch.
///
/// # Errors
///
/// Returns `AllocError` if an allocation fails.
pub fn sheet_of(alloc: Global, tables: &Tables, batch: &Name) -> Result<Option<Vec<u8>>, AllocError>
    requires { IsBook tables.now }
    ensures page { IfOk result (λ found. option_map (λ page. page.items) found
        ≡ sheet_of tables.now batch.now) }
    ensures names { (text : List ℕ) → IsTrue (is_text (escaped text)) }
    ensures report { (c : Contents) → AreSound c → HaveSameRows tables.now (image c)
        → report_of tables.now batch.now ≡ report_text c.facts batch.now }
{
    escaped_is_text();
    reports_by_rows();
    match batch_named(&tables.batches, batch) {
        None => Ok(None),
        Some(row) => {
            let page = sheet_text(alloc, tables, row)?;
            Ok(Some(page))
        }
    }
}

// Lemma: no character of escaped text begins or ends markup.
fn escaped_is_text()
    ensures { (text : List ℕ) → IsTrue (is_text (escaped text)) }
{}

fn sheet_text(alloc: Global, tables: &Tables, batch: &StoredBatch) -> Result<Vec<u8>, AllocError>
    requires book { IsBook tables.now }
    requires there { Contains tables.now.batches batch.now }
    ensures { IfOk result (λ page. page.items ≡ sheet_text tables.now batch.now) }
{
    let cards = batch_cards(alloc, tables, batch)?;
    let charges = batch_charges(alloc, tables, batch.id)?;
    let report = batch_report(alloc, tables, batch)?;
    let mut page = Vec::new(alloc);
    push_top(&mut page, tables, batch)?;
    push_cards(&mut page, &cards)?;
    push_blanks(&mut page, tables, &charges)?;
    push_digests(&mut page, &batch.raw, &report)?;
    Ok(page)
}

fn push_top(page: &mut Vec<u8>, tables: &Tables, batch: &StoredBatch) -> Result<(), AllocError>
    requires { AreReady tables.now }
    ensures { OnOk result (page.new.items ≡ page.old.items ++ top_html tables.now batch.now) }
{
    push_head(page, &batch.name)?;
    push_title(
        page,
        &batch.name,
        &batch.product,
        open_or_closed(batch.closed),
    )?;
    push_bar(page, batch)?;
    push_account(page, tables, batch)
}

// ---- head

#[tactic(auto, unfolding(crate::specs::Sheet::head_html))]
fn push_head(page: &mut Vec<u8>, batch: &[u8]) -> Result<(), AllocError>
    ensures { OnOk result (page.new.items ≡ page.old.items ++ head_html batch.now) }
{
    push_start(page)?;
    push_escaped(page, batch)?;
    push_style(page)
}

#[tactic(auto, unfolding(crate::specs::Sheet::start))]
fn push_start(page: &mut Vec<u8>) -> Result<(), AllocError>
    ensures { OnOk result (page.new.items ≡ page.old.items ++ start) }
{
    push_plain(page, START)
}

#[tactic(auto, unfolding(crate::specs::Sheet::style))]
fn push_style(page: &mut Vec<u8>) -> Result<(), AllocError>
    ensures { OnOk result (page.new.items ≡ page.old.items ++ style) }
{
    push_plain(page, STYLE)
}

// Appends the name, the product and the state of the batch.
#[tactic(auto, unfolding(crate::specs::Sheet::title_html))]
fn push_title(
    page: &mut Vec<u8>,
    batch: &[u8],
    product: &[u8],
    state: &str,
) -> Result<(), AllocError>
    ensures { OnOk result
        (page.new.items ≡ page.old.items ++ title_html batch.now product.now state.now) }
{
    push_named(page, "<h1>Batch ", batch, "</h1>\n")?;
    push_named(page, "<p>Product ", product, ", ")?;
    push_plain(page, state)?;
    push_plain(page, "</p>\n")
}

// ---- records by state

#[tactic(auto, unfolding(crate::specs::Sheet::bar_html))]
fn push_bar(page: &mut Vec<u8>, batch: &StoredBatch) -> Result<(), AllocError>
    ensures { OnOk result (page.new.items ≡ page.old.items ++ bar_html batch.now) }
{
    push_plain(page, "<div class=\"bar\">")?;
    push_parts(page, batch)?;
    push_plain(page, "</div>\n")
}

#[tactic(auto, unfolding(crate::specs::Sheet::parts_html))]
fn push_parts(page: &mut Vec<u8>, batch: &StoredBatch) -> Result<(), AllocError>
    ensures { OnOk result (page.new.items ≡ page.old.items ++ parts_html batch.now) }
{
    push_going(page, batch)?;
    push_ended(page, batch)
}

#[tactic(auto, unfolding(crate::specs::Sheet::going_html))]
fn push_going(page: &mut Vec<u8>, batch: &StoredBatch) -> Result<(), AllocError>
    ensures { OnOk result (page.new.items ≡ page.old.items ++ going_html batch.now) }
{
    push_part(page, "waiting", batch.waiting)?;
    push_part(page, "running", batch.running)?;
    push_part(page, "failed", batch.failed)
}

#[tactic(auto, unfolding(crate::specs::Sheet::ended_html))]
fn push_ended(page: &mut Vec<u8>, batch: &StoredBatch) -> Result<(), AllocError>
    ensures { OnOk result (page.new.items ≡ page.old.items ++ ended_html batch.now) }
{
    push_part(page, "withdrawn", batch.withdrawn)?;
    push_part(page, "good", batch.good)
}

// Appends the part of the bar for `count` records in the state `state`. The width of a part is
// proportional to its number of records.
#[tactic(auto, unfolding(crate::specs::Sheet::part_html))]
fn push_part(page: &mut Vec<u8>, state: &str, count: u64) -> Result<(), AllocError>
    ensures { OnOk result (page.new.items ≡ page.old.items ++ part_html state.now count) }
{
    push_between(page, "<div class=\"", state, "\" style=\"flex:")?;
    push_number(page, count)?;
    push_plain(page, " 0 0\"></div>")
}

// ---- tables

#[tactic(auto, unfolding(crate::specs::Sheet::table_html))]
fn push_account(page: &mut Vec<u8>, tables: &Tables, batch: &StoredBatch) -> Result<(), AllocError>
    requires { AreReady tables.now }
    ensures { OnOk result (page.new.items ≡ page.old.items ++ account_html tables.now batch.now) }
{
    push_account_heads(page)?;
    push_counts(page, tables, batch)?;
    push_plain(page, "</table>\n")
}

// Appends the account: the cells of the batch's line after its name, its product and its state.
fn push_counts(page: &mut Vec<u8>, tables: &Tables, batch: &StoredBatch) -> Result<(), AllocError>
    requires { AreReady tables.now }
    ensures { OnOk result (page.new.items ≡ page.old.items ++ counts_html tables.now batch.now) }
{
    let cells = batch_cells(tables, batch);
    let all = &cells[..];
    push_row(page, "sums", &all[3..])
}

#[tactic(auto, unfolding(crate::specs::Sheet::account_heads))]
fn push_account_heads(page: &mut Vec<u8>) -> Result<(), AllocError>
    ensures { OnOk result (page.new.items ≡ page.old.items ++ account_heads) }
{
    push_plain(page, ACCOUNT)
}

#[tactic(auto, unfolding(crate::specs::Sheet::table_html))]
fn push_cards(page: &mut Vec<u8>, cards: &[Card<'_>]) -> Result<(), AllocError>
    ensures { OnOk result (page.new.items ≡ page.old.items ++ cards_html cards.now) }
{
    push_card_heads(page)?;
    push_card_rows(page, cards)?;
    push_plain(page, "</table>\n")
}

#[tactic(auto, unfolding(crate::specs::Sheet::card_heads))]
fn push_card_heads(page: &mut Vec<u8>) -> Result<(), AllocError>
    ensures { OnOk result (page.new.items ≡ page.old.items ++ card_heads) }
{
    push_plain(page, CARDS)
}

fn push_card_rows(page: &mut Vec<u8>, cards: &[Card<'_>]) -> Result<(), AllocError>
    ensures { OnOk result (page.new.items ≡ page.old.items ++ flat_map card_html cards.now) }
{
    for card in cards {
        push_card(page, card)?;
    }
    Ok(())
}

fn push_card(page: &mut Vec<u8>, card: &Card<'_>) -> Result<(), AllocError>
    ensures { OnOk result (page.new.items ≡ page.old.items ++ card_html card.now) }
{
    let session = card.session;
    let cells = card_cells(card);
    push_row(page, stands_by(session.state).word(), &cells)
}

#[tactic(auto, unfolding(crate::specs::Sheet::table_html))]
fn push_blanks<'a>(
    page: &mut Vec<u8>,
    tables: &'a Tables,
    charges: &[Charge<'a>],
) -> Result<(), AllocError>
    requires { AreReady tables.now }
    ensures { OnOk result (page.new.items ≡ page.old.items ++ blanks_html tables.now charges.now) }
{
    push_blank_heads(page)?;
    push_blank_rows(page, tables, charges)?;
    push_plain(page, "</table>\n")
}

#[tactic(auto, unfolding(crate::specs::Sheet::blank_heads))]
fn push_blank_heads(page: &mut Vec<u8>) -> Result<(), AllocError>
    ensures { OnOk result (page.new.items ≡ page.old.items ++ blank_heads) }
{
    push_plain(page, BLANKS)
}

fn push_blank_rows<'a>(
    page: &mut Vec<u8>,
    tables: &'a Tables,
    charges: &[Charge<'a>],
) -> Result<(), AllocError>
    requires { AreReady tables.now }
    ensures { OnOk result
        (page.new.items ≡ page.old.items ++ flat_map (charge_html tables.now) charges.now) }
{
    for charge in charges {
        push_blank(page, tables, charge)?;
    }
    Ok(())
}

// Appends the row of a charged blank, without the name of the batch, which is the same in every
// row.
fn push_blank<'a>(
    page: &mut Vec<u8>,
    tables: &'a Tables,
    charge: &Charge<'a>,
) -> Result<(), AllocError>
    requires { AreReady tables.now }
    ensures { OnOk result
        (page.new.items ≡ page.old.items ++ charge_html tables.now charge.now) }
{
    let cells = blank_cells(tables, charge);
    push_row(page, charge.stands().word(), &cells[..4])
}

// ---- digests of the batch file and the report

#[tactic(auto, unfolding(crate::specs::Sheet::digests_html))]
fn push_digests(page: &mut Vec<u8>, raw: &[u8], report: &[u8]) -> Result<(), AllocError>
    ensures { OnOk result (page.new.items ≡ page.old.items ++ digests_html raw.now report.now) }
{
    push_digest(page, FILE, raw)?;
    push_digest(page, REPORT, report)?;
    push_plain(page, "</body>\n</html>\n")
}

#[tactic(auto, unfolding(crate::specs::Sheet::digest_html))]
fn push_digest(page: &mut Vec<u8>, before: &str, bytes: &[u8]) -> Result<(), AllocError>
    ensures { OnOk result (page.new.items ≡ page.old.items ++ digest_html before.now bytes.now) }
{
    let alloc = *page.allocator();
    let digest = hex::encode(alloc, sha256_of(bytes))?;
    push_between(page, before, &digest, "</code></p>\n")
}

fn sha256_of(bytes: &[u8]) -> [u8; 32]
    ensures { result ≡ sha256 bytes.now }
{
    let mut hasher = Sha256::new();
    hasher.update(bytes);
    hasher.finalize()
}
