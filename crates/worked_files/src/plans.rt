//! Checks batch files with their commands or their refusal.
ghost use Rattle.std.specs.Prelude.{All, IfOk, IfSome};
ghost use Rattle.store_data.specs.Sequence.{AreRows, IsProduct};

use crate::fault::{CaseFault, check_bytes};
use crate::text::{Case, Line, put_bytes};
use crate::walks::text_of;
use batch_import::{ImportFault, RowFault, check_batch, read_batch, rows};
use plan_print::{BatchFault, plan_engine};
use std::alloc::{AllocError, Global};
use store_data::{Name, Product, Row, grouped};
use text_io::RunStop;

/// The largest number of commands, and the largest file, for which a machine also makes the cards.
const MOST_COMMANDS: usize = 300;

const MOST_FILE: usize = 16_384;

/// More rows than any batch has (this project's profile).
const PAST_ROWS: u32 = 5000;

/// A batch whose commands were printed. They are few enough for a machine to make the cards.
#[derive(Drop)]
pub struct Printed {
    /// The line of the file with the input.
    pub line: u64,
    pub product: Product,
    /// The batch file.
    pub raw: Vec<u8>,
    /// The number of records.
    pub records: usize,
    /// A line for the name of each record and for each of its commands.
    pub text: String,
}

/// Runs a case through every public function that needs no store. Returns the printed commands if
/// there are any and a machine should make the cards.
pub fn check_plan(alloc: Global, case: &Case) -> Result<Option<Printed>, CaseFault> {
    let form = CaseFault::Form { line: case.number };
    let Some((head, lines)) = case.lines.split_first() else {
        return Err(form);
    };
    let Some((is_bytes, product)) = product_of(head.text.as_str()) else {
        return Err(form);
    };
    let Some(raw) = file_of(alloc, is_bytes, lines)? else {
        return Err(form);
    };
    let text = plan_text(alloc, &product, raw.as_slice())?;
    let line = head.number;
    let batch = Batch {
        line,
        product,
        raw: raw.as_slice(),
    };
    match check_printed(alloc, &batch, lines, text.as_str())? {
        Some(records) => Ok(Some(Printed {
            line,
            product,
            raw,
            records,
            text,
        })),
        None => Ok(None),
    }
}

// The batch file of a case, the product of its options, and its line.
#[derive(Clone, Copy)]
struct Batch<'a> {
    line: u64,
    product: Product,
    raw: &'a [u8],
}

// Checks that every function returns what `persod plan` printed, and that this is the expected
// output. Returns the number of records that a machine should make.
fn check_printed(
    alloc: Global,
    batch: &Batch<'_>,
    lines: &[Line],
    printed: &str,
) -> Result<Option<usize>, CaseFault>
    requires { IsProduct batch.now.product }
{
    let totals = totals(alloc, &batch.product, batch.raw)?;
    let totals = totals.as_str();
    check_answers(alloc, batch.line, lines, printed, totals)?;
    if printed.starts_with("refused 413") {
        return Ok(None);
    }
    check_rows(alloc, batch, totals)?;
    if printed.starts_with("refused ") {
        check_text(alloc, batch.line, "check_batch", printed, totals)?;
        return Ok(None);
    }
    check_commands(alloc, batch, printed)
}

// Checks that two texts are equal.
fn check_text(
    alloc: Global,
    line: u64,
    way: &'static str,
    wanted: &str,
    came: &str,
) -> Result<(), CaseFault> {
    check_bytes(alloc, line, way, wanted.as_bytes(), came.as_bytes())
}

// The meaning of the next word in the first line of a case.
#[derive(Clone, Copy)]
enum Awaited {
    Word,
    Max,
    Low,
}

// Returns whether the file is written with escapes, and the product of the options.
fn product_of(head: &str) -> Option<(bool, Product)>
    ensures { IfSome result (λ p. IsProduct p.1) }
{
    let (mut max, mut low, mut check) = (255u8, 0u8, false);
    let mut is_bytes = false;
    let mut awaited = Awaited::Word;
    for word in head.split(' ') {
        let before = awaited;
        awaited = Awaited::Word;
        match (before, word) {
            (Awaited::Max, _) => max = word.parse().ok()?,
            (Awaited::Low, _) => low = word.parse().ok()?,
            (Awaited::Word, "--max") => awaited = Awaited::Max,
            (Awaited::Word, "--low") => awaited = Awaited::Low,
            (Awaited::Word, "--check") => check = true,
            (Awaited::Word, "plan") => is_bytes = false,
            (Awaited::Word, "bytes") => is_bytes = true,
            (Awaited::Word, _) => return None,
        }
    }
    let product = product_with(max, low, check)?;
    Some((is_bytes, product))
}

fn product_with(max: u8, low: u8, check: bool) -> Option<Product>
    ensures { IfSome result (λ p. IsProduct p) }
{
    if max < 16 || low > 31 {
        return None;
    }
    let code = Name::new(b"P1")?;
    Some(Product {
        code,
        max,
        low,
        check,
    })
}

// Returns the bytes of the batch file.
fn file_of(alloc: Global, is_bytes: bool, lines: &[Line]) -> Result<Option<Vec<u8>>, AllocError> {
    let mut bytes = Vec::new(alloc);
    let mut is_over = false;
    for line in lines {
        let text = line.text.as_str();
        if line.is_answer {
            is_over = true;
        } else if is_over {
            // A file has no line after the expected output.
            if !text.is_empty() {
                return Ok(None);
            }
        } else if !is_bytes {
            bytes.extend_from_slice(text.as_bytes())?;
            bytes.push(b'\n')?;
        } else if !put_bytes(&mut bytes, text)? {
            return Ok(None);
        }
    }
    Ok(Some(bytes))
}

// Returns the output of `persod plan`, or the text of its refusal.
fn plan_text(alloc: Global, product: &Product, raw: &[u8]) -> Result<String, CaseFault>
    requires { IsProduct product.now }
{
    let mut input = raw;
    let mut written = Vec::new(alloc);
    match plan_engine(alloc, product, &mut input, &mut written) {
        Ok(()) => Ok(String::from_utf8_lossy(alloc, written.as_slice())?),
        Err(RunStop::Own(BatchFault::Refused(fault))) => Ok(refused(alloc, fault)?),
        Err(RunStop::Own(BatchFault::TooLarge)) => Ok(String::from_str(alloc, "refused 413\n")?),
        Err(RunStop::Stream(_)) => Err(CaseFault::Memory),
    }
}

fn refused(alloc: Global, fault: RowFault) -> Result<String, AllocError> {
    let (code, kind, row) = (fault.kind.code(), fault.kind, fault.row);
    format!(in alloc; "refused {code} {kind} row {row}\n")
}

// Returns the result of the batch check.
fn totals(alloc: Global, product: &Product, raw: &[u8]) -> Result<String, CaseFault>
    requires { IsProduct product.now }
{
    match check_batch(alloc, raw, product) {
        Ok(totals) => Ok(format!(in alloc;
            "accepted {} rows {} records\n",
            totals.rows, totals.records
        )?),
        Err(ImportFault::At(fault)) => Ok(refused(alloc, fault)?),
        Err(ImportFault::Memory) => Err(CaseFault::Memory),
    }
}

// Checks that the output is the expected one.
fn check_answers(
    alloc: Global,
    line: u64,
    lines: &[Line],
    printed: &str,
    totals: &str,
) -> Result<(), CaseFault> {
    let wanted = answers(alloc, lines)?;
    let wanted = wanted.as_str();
    if wanted == "any\n" {
        return Ok(());
    }
    if wanted.starts_with("accepted ") {
        return check_text(alloc, line, "check_batch", wanted, totals);
    }
    check_text(alloc, line, "plan", wanted, printed)
}

fn answers(alloc: Global, lines: &[Line]) -> Result<String, AllocError> {
    let mut wanted = String::new(alloc);
    for line in lines {
        if line.is_answer {
            wanted.push_str(line.text.as_str())?;
            wanted.push('\n')?;
        }
    }
    Ok(wanted)
}

// Checks that the rows, read one by one, are as many as the batch check counts or end with the same
// fault, and that `read_batch` returns the same.
fn check_rows(alloc: Global, batch: &Batch<'_>, totals: &str) -> Result<(), CaseFault>
    requires { IsProduct batch.now.product }
{
    let (count, fault) = streamed(alloc, &batch.product, batch.raw)?;
    let one_by_one = match fault {
        Some(fault) => refused(alloc, fault)?,
        None => format!(in alloc; "accepted {count} rows")?,
    };
    let read = read(alloc, &batch.product, batch.raw)?;
    // The faults 40 and 21 to 23 concern the whole file, not a row.
    let is_of_file = fault.is_none()
        && totals.starts_with("refused ")
        && !totals.starts_with("refused 3");
    if (is_of_file || totals.starts_with(one_by_one.as_str()))
        && totals.starts_with(read.as_str())
    {
        return Ok(());
    }
    let came = format!(in alloc; "{one_by_one} one by one, {read} by read_batch")?;
    check_text(alloc, batch.line, "rows", totals, came.as_str())
}

// Returns how many rows are read one by one, and the fault after them.
fn streamed(
    alloc: Global,
    product: &Product,
    raw: &[u8],
) -> Result<(u32, Option<RowFault>), CaseFault>
    requires { IsProduct product.now }
{
    let mut stream = rows(alloc, raw, product);
    for count in 0..PAST_ROWS {
        match stream.next() {
            Ok(Some(_)) => {}
            Ok(None) => return Ok((count, None)),
            Err(ImportFault::At(fault)) => return Ok((count, Some(fault))),
            Err(ImportFault::Memory) => break,
        }
    }
    Err(CaseFault::Memory)
}

// Returns the result of `read_batch`.
fn read(alloc: Global, product: &Product, raw: &[u8]) -> Result<String, CaseFault>
    requires { IsProduct product.now }
{
    match read_batch(alloc, raw, product) {
        Ok(batch) => Ok(format!(in alloc; "accepted {} rows", batch.rows.len())?),
        Err(ImportFault::At(fault)) => Ok(refused(alloc, fault)?),
        Err(ImportFault::Memory) => Err(CaseFault::Memory),
    }
}

// Returns the rows of each record.
fn records(alloc: Global, product: &Product, raw: &[u8]) -> Result<Vec<Vec<Row>>, CaseFault>
    requires { IsProduct product.now }
    ensures { IfOk result (λ records. All (λ rows. AreRows rows.items) records.items) }
{
    match read_batch(alloc, raw, product) {
        Ok(batch) => Ok(grouped(alloc, batch.rows)?),
        Err(_) => Err(CaseFault::Memory),
    }
}

// Checks that the list and the cursor give the printed commands. Returns the number of records if
// these are few.
fn check_commands(
    alloc: Global,
    batch: &Batch<'_>,
    printed: &str,
) -> Result<Option<usize>, CaseFault>
    requires { IsProduct batch.now.product }
{
    let records = records(alloc, &batch.product, batch.raw)?;
    let text = text_of(alloc, &batch.product, records.as_slice())?;
    check_text(alloc, batch.line, "list and cursor", printed, text.as_str())?;
    if batch.raw.len() > MOST_FILE || printed.lines().count() > MOST_COMMANDS {
        return Ok(None);
    }
    Ok(Some(records.len()))
}
