//! Lists the commands of the records of a batch by the list and by the cursor.
ghost use Rattle.std.specs.Prelude.{All};
ghost use Rattle.store_data.specs.Sequence.{AreRows, IsProduct};

use crate::fault::CaseFault;
use std::alloc::{AllocError, Global};
use store_data::{Cursor, PlanFault, Product, RecordPlan, Row, count, list, plan};

/// Returns the lines of each record: its name, and its commands if the list and the cursor agree.
pub fn text_of(alloc: Global, product: &Product, records: &[Vec<Row>]) -> Result<String, CaseFault>
    requires product { IsProduct product.now }
    requires records { All (λ rows. AreRows rows.items) records.now }
{
    let mut text = String::new(alloc);
    for rows in records {
        put_record(alloc, product, rows.as_slice(), &mut text)?;
    }
    Ok(text)
}

fn put_record(
    alloc: Global,
    product: &Product,
    rows: &[Row],
    text: &mut String,
) -> Result<(), CaseFault>
    requires product { IsProduct product.now }
    requires rows { AreRows rows.now }
{
    let plan = match plan(alloc, rows, product) {
        Ok(plan) => plan,
        Err(PlanFault::Memory) => return Err(CaseFault::Memory),
        Err(_) => return Ok(text.push_str("a record that is refused\n")?),
    };
    if let Some(row) = rows.first() {
        put_name(alloc, text, row.rec.bytes())?;
    }
    let commands = list(alloc, &plan)?;
    if !is_walked(&plan, commands.as_slice()) {
        text.push_str("the cursor differs\n")?;
    }
    Ok(put_commands(alloc, text, commands.as_slice())?)
}

fn put_commands(alloc: Global, text: &mut String, commands: &[Vec<u8>]) -> Result<(), AllocError> {
    for command in commands {
        put_command(alloc, text, command.as_slice())?;
    }
    Ok(())
}

/// Adds the line with the name of a record.
pub fn put_name(alloc: Global, text: &mut String, name: &[u8]) -> Result<(), AllocError> {
    text.push_str("record ")?;
    text.push_str(String::from_utf8_lossy(alloc, name)?.as_str())?;
    text.push('\n')
}

/// Adds the line of a command.
pub fn put_command(alloc: Global, text: &mut String, command: &[u8]) -> Result<(), AllocError> {
    text.push_str(hex::encode_upper(alloc, command)?.as_str())?;
    text.push('\n')
}

// Returns `true` if the cursor gives exactly these commands, one after another.
fn is_walked(plan: &RecordPlan<'_>, commands: &[Vec<u8>]) -> bool {
    let mut cursor = Cursor::start();
    let mut command = [0; 260];
    let mut is_same = true;
    for k in 0..count(plan) {
        let is_early = cursor.is_done(plan);
        let size = cursor.put(plan, &mut command);
        let wanted = commands.get(k as usize).map(|wanted| wanted.as_slice());
        is_same = is_same && !is_early && wanted == Some(&command[..size]);
        cursor.step(plan);
    }
    is_same && cursor.is_done(plan) && count(plan) as usize == commands.len()
}
