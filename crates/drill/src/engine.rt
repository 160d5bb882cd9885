//! Runs the lines of a script.
ghost use Rattle.std.specs.Prelude.{◌≡◌, ◌+◌, ◌≤◌, ◌∷◌, IfErr, IfOk, Err, drop, length, map};
ghost use Rattle.std.specs.Prelude.{true};
ghost use Rattle.drill.specs.Floors.{empty_floor};
ghost use Rattle.drill.specs.Ends.{DrillsOver, Goes, GoesOn, IsUnopened, Runs};

use crate::floor::Floor;
use crate::step::step;
use crate::stop::{DrillFault, DrillStop, unopened};
use job_facts::Reopen;
use std::alloc::Global;
use std::io::{Read, Write};
use text_io::{RunStop, lines_of, read_whole, write_text};

/// Runs the lines of a script with `store` and a shop floor that has no machines yet, and writes
/// the result of each line to `writer` before it runs the next line. The lines are `office N JSON`,
/// `import N BATCH PRODUCT` with the lines of a batch file up to a line `.`, `get TARGET`, `power M
/// BOOT`, `insert M BATCH SERIAL`, `send M`, `deliver K`, `back J`, `card M SW`, `stop-before K`
/// and `stop-after K` (this project's profile).
///
/// The script is read completely at first. The caller flushes `writer`. If an allocation fails
/// while a request is served, the response has status 503.
///
/// The contract describes only the output as a whole. It doesn't say when the result of a line is
/// written, or how many lines were run before a failed write.
///
/// # Errors
///
/// - `BadLine`: a line is malformed, or names a machine, packet or reply that doesn't exist. All
///   lines before it were run.
/// - `Storage`: the store can't be opened again after a crash.
/// - `ReadFailed`, `WriteFailed`: a read or a write fails.
/// - `Memory`: an allocation fails.
pub fn drill_over<S: Reopen + Drop, R: Read, W: Write>(
    alloc: Global,
    store: S,
    reader: &mut R,
    writer: &mut W,
) -> Result<(), DrillStop>
    ensures { DrillsOver S.state S.usable store (R.remaining reader.old) (W.contents writer.old)
        (W.contents writer.new) result }
{
    let raw = read_whole(alloc, reader)?;
    let lines = lines_of(alloc, raw.as_slice())?;
    do_lines(alloc, store, lines.as_slice(), writer)
}

// Runs `lines`.
fn do_lines<S: Reopen + Drop, W: Write>(
    alloc: Global,
    mut store: S,
    lines: &[&[u8]],
    writer: &mut W,
) -> Result<(), DrillStop>
    ensures { Runs S.state S.usable store empty_floor (length lines.now)
        (map (λ l. l.now) lines.now) (W.contents writer.old) (W.contents writer.new) result }
{
    let mut floor = Floor::new(alloc);
    let mut at = 0;
    while at < lines.len() {
        let line = NextLine {
            number: (at + 1) as u64,
            text: lines[at],
            behind: &lines[at + 1..],
        };
        let (next, taken) = do_line(alloc, &mut floor, store, line, writer)?;
        store = next;
        at += 1 + taken;
    }
    Ok(())
}

// The next line with its number, counted from 1, and the lines after it.
#[derive(Clone, Copy)]
struct NextLine<'a> {
    number: u64,
    text: &'a [u8],
    behind: &'a [&'a [u8]],
}

// Runs a line. Returns the store after it, and how many of the following lines were its file.
fn do_line<S: Reopen + Drop, W: Write>(
    alloc: Global,
    floor: &mut Floor,
    mut store: S,
    line: NextLine<'_>,
    writer: &mut W,
) -> Result<(S, usize), DrillStop>
    ensures done { IfOk result (λ p. let behind = map (λ l. l.now) line.entry.behind.now in
        Goes S.state S.usable store floor.old (line.entry.text.now ∷ behind)
        (W.contents writer.old) (W.contents writer.new) p.0 floor.new (drop p.1 behind)) }
    ensures within { IfOk result (λ p. p.1 ≤ length line.entry.behind.now) }
    ensures ends { IfErr result (λ why. Runs S.state S.usable store floor.old
        (line.entry.number + length line.entry.behind.now)
        (line.entry.text.now ∷ map (λ l. l.now) line.entry.behind.now)
        (W.contents writer.old) (W.contents writer.new) (Err why)) }
{
    let Some(did) = step(alloc, floor, &mut store, line.text, line.behind)? else {
        return Err(RunStop::Own(DrillFault::BadLine(line.number)));
    };
    write_text(writer, did.text.as_slice())?;
    let taken = did.taken;
    let store = go_on(alloc, store, did.stops)?;
    Ok((store, taken))
}

// Returns the store for the next line: the same one, or after a crash the reopened one.
fn go_on<S: Reopen>(alloc: Global, store: S, stops: bool) -> Result<S, DrillStop>
    ensures goes { IfOk result (λ next. GoesOn S.state S.usable store next stops) }
    ensures stopped { IfErr result (λ why. (stops ≡ true) × IsUnopened why) }
{
    if !stops {
        return Ok(store);
    }
    match store.reopen(alloc) {
        Ok(next) => Ok(next),
        Err(fault) => Err(unopened(fault)),
    }
}
