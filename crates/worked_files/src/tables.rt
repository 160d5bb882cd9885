//! Checks tables of groupings, EMV records and status words.
ghost use Rattle.std.specs.Prelude.{◌≤◌};
ghost use Rattle.store_data.specs.Sequence.{IsProduct};

use crate::fault::{CaseFault, check_bytes};
use crate::text::{Case, Line};
use batch_import::{ImportFault, Kind, RowFault, check_batch};
use dgi::{
    DgiFault, Grouping, MAX_BODY, coded_len, from_hex_text, read_one, read_whole, write_coded,
};
use std::alloc::Global;
use store_data::{Class, Name, Product, class};
use tlv_check::is_record;

/// The kind of rows of a table.
#[derive(Clone, Copy)]
pub enum Table {
    Groupings,
    Records,
    Words,
}

/// Checks that each row of a case has the result in the line after it.
pub fn check_table(alloc: Global, table: Table, case: &Case) -> Result<(), CaseFault> {
    for (i, line) in case.lines.iter().enumerate() {
        if line.is_answer {
            continue;
        }
        let answer = match case.lines.get(i.saturating_add(1)) {
            Some(answer) if answer.is_answer => answer,
            _ if line.text.is_empty() => continue,
            _ => return Err(CaseFault::Form { line: line.number }),
        };
        check_row(alloc, table, line, answer)?;
    }
    Ok(())
}

fn check_row(alloc: Global, table: Table, line: &Line, answer: &Line) -> Result<(), CaseFault> {
    let came = match table {
        Table::Groupings => grouping(alloc, line)?,
        Table::Records => record(alloc, line)?,
        Table::Words => word(alloc, line)?,
    };
    let wanted = answer.text.as_bytes();
    check_bytes(alloc, line.number, "table", wanted, came.as_bytes())
}

// Returns the encoding that is sent for the text of a grouping, or its first fault.
fn grouping(alloc: Global, line: &Line) -> Result<String, CaseFault> {
    let text = line.text.as_str();
    let by_text = match &from_hex_text(alloc, text.as_bytes()) {
        Ok(sent) => hex::encode_upper(alloc, sent.as_slice())?,
        Err(fault) => fault_text(alloc, *fault)?,
    };
    match hex::decode(alloc, text) {
        Ok(bytes) => by_bytes(alloc, bytes.as_slice(), by_text),
        Err(_) => Ok(by_text),
    }
}

// Returns `by_text`, the result of reading the text, if reading the bytes has the same result.
fn by_bytes(alloc: Global, bytes: &[u8], by_text: String) -> Result<String, CaseFault> {
    let one = match read_one(bytes) {
        Ok((grouping, [])) => Ok(grouping),
        Ok(_) => Err(DgiFault::Trailing),
        Err(fault) => Err(fault),
    };
    let read = written(alloc, read_whole(bytes))?;
    let one = written(alloc, one)?;
    if read == by_text && one == by_text {
        return Ok(by_text);
    }
    Ok(format!(in alloc; "{by_text}, {read} by read_whole, {one} by read_one")?)
}

fn fault_text(alloc: Global, fault: DgiFault) -> Result<String, CaseFault> {
    match fault {
        DgiFault::Memory => Err(CaseFault::Memory),
        _ => Ok(format!(in alloc; "fault {} {fault}", fault.code())?),
    }
}

// Returns the encoding that is sent for a grouping.
fn written(alloc: Global, read: Result<Grouping<'_>, DgiFault>) -> Result<String, CaseFault> {
    let grouping = match read {
        Ok(grouping) => grouping,
        Err(fault) => return fault_text(alloc, fault),
    };
    if grouping.body.len() > MAX_BODY {
        return Ok(String::from_str(alloc, "too long")?);
    }
    let mut out = vec![in alloc; 0u8; coded_len(&grouping)]?;
    let size = write_coded(&grouping, out.as_mut_slice());
    let sent = out.as_slice().get(..size).unwrap_or(&[]);
    Ok(hex::encode_upper(alloc, sent)?)
}

// Returns whether data is an EMV record, by itself and as a grouping of a batch.
fn record(alloc: Global, line: &Line) -> Result<String, CaseFault> {
    let text = line.text.as_str();
    let Ok(data) = hex::decode(alloc, text) else {
        return Err(CaseFault::Form { line: line.number });
    };
    let is_one = is_record(data.as_slice());
    let found = if is_one { "record" } else { "none" };
    let size = data.len();
    if size > 254 {
        return Ok(String::from_str(alloc, found)?);
    }
    let file = format!(in alloc;
        "record,aid,rank,enc,tol,dgi\nR1,F00000000101,1,0,0,0101{size:02X}{text}\n"
    )?;
    let fault = RowFault {
        row: 2,
        kind: Kind::NotARecord,
    };
    let is_same = match check_batch(alloc, file.as_bytes(), &checking()) {
        Ok(_) => is_one,
        Err(ImportFault::At(first)) => !is_one && first == fault,
        Err(ImportFault::Memory) => return Err(CaseFault::Memory),
    };
    let other = if is_same { "" } else { ", but not in a batch" };
    Ok(format!(in alloc; "{found}{other}")?)
}

// Returns a product that checks records.
fn checking() -> Product
    ensures { IsProduct result }
{
    Product {
        code: Name::new(b"P1").unwrap(),
        max: 255,
        low: 0,
        check: true,
    }
}

// Returns the meaning of a status word in general, and for the last piece of a tolerant segment.
fn word(alloc: Global, line: &Line) -> Result<String, CaseFault> {
    let Ok(sw) = u16::from_str_radix(line.text.as_str(), 16) else {
        return Err(CaseFault::Form { line: line.number });
    };
    let (general, tolerant) = (class_text(sw, false), class_text(sw, true));
    Ok(format!(in alloc; "{general} {tolerant}")?)
}

fn class_text(sw: u16, is_tolerant_last: bool) -> &'static str {
    match class(sw, is_tolerant_last) {
        Class::Go => "go",
        Class::Stop => "stop",
    }
}
