//! Prints the commands of a record.
ghost use Rattle.std.specs.Prelude.{◌≡◌, ◌+◌, ◌*◌, ◌++◌, ◌<◌, ◌≤◌, length, slice_index, take};
ghost use Rattle.std.specs.Prelude.{codes};
ghost use Rattle.hex.specs.Hex.{encode_upper, upper_digits};
ghost use Rattle.text_io.specs.Written.{Writes, line};
ghost use Rattle.plan_print.specs.Printed.{command_lines, text_of};

use std::io::Write;
use store_data::{Cursor, Name, RecordPlan, count};
use text_io::{WriteFailed, write_text};

/// The name of a record and its plan.
#[derive(Drop)]
pub struct Planned<'a> {
    pub name: Name,
    pub plan: RecordPlan<'a>,
}

/// Writes the lines of a record: its name, then one line for each command, in hexadecimal.
///
/// # Errors
///
/// Fails if a write fails. Only a prefix of the lines was written then.
pub fn write_record<W: Write>(writer: &mut W, planned: &Planned<'_>) -> Result<(), WriteFailed>
    ensures { Writes (W.contents writer.old) (W.contents writer.new) (text_of planned.now) result }
{
    write_name(writer, &planned.name)?;
    write_commands(writer, &planned.plan)
}

// Writes the line with the name of a record.
fn write_name<W: Write>(writer: &mut W, name: &Name) -> Result<(), WriteFailed>
    ensures { Writes (W.contents writer.old) (W.contents writer.new)
        (line (codes "record " ++ name.now)) result }
{
    write_text(writer, b"record ")?;
    write_text(writer, name.bytes())?;
    write_text(writer, b"\n")
}

// Writes the commands of `plan` in the order of its cursor.
fn write_commands<W: Write>(writer: &mut W, plan: &RecordPlan<'_>) -> Result<(), WriteFailed>
    ensures { Writes (W.contents writer.old) (W.contents writer.new)
        (command_lines plan.now) result }
{
    let mut cursor = Cursor::start();
    let mut command = [0; 260];
    let mut text = [0; 521];
    for _ in 0..count(plan) {
        let size = cursor.put(plan, &mut command);
        let written = put_line(&command[..size], &mut text);
        write_text(writer, &text[..written])?;
        cursor.step(plan);
    }
    Ok(())
}

// Puts a line with `bytes` in upper-case hexadecimal at the front of `text`, and returns its
// length.
fn put_line(bytes: &[u8], text: &mut [u8; 521]) -> usize
    requires { length bytes.now ≤ 260 }
    ensures line { take result text.new ≡ line (encode_upper bytes.now) }
    ensures room { result ≤ 521 }
{
    let mut at = 0;
    for byte in bytes {
        text[at] = upper_digit(*byte / 16);
        text[at + 1] = upper_digit(*byte % 16);
        at += 2;
    }
    text[at] = b'\n';
    at + 1
}

// Arithmetic instead of a table, so that the compiler can vectorise the loop over the bytes.
fn upper_digit(value: u8) -> u8
    requires { value < 16 }
    ensures { result ≡ slice_index upper_digits value }
{
    if value < 10 {
        b'0' + value
    } else {
        b'A' + (value - 10)
    }
}
