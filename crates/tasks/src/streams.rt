//! Runs the subcommands that need no database file.
ghost use Rattle.std.specs.Prelude.{None};
ghost use Rattle.arguments.specs.Words.{InRange, IsBoot, UsesStreams};
ghost use Rattle.subcommands.specs.Runs.{FeedRuns, Feeds, Runs};

use arguments::{FeedStart, Words};
use event_lines::EventLog;
use loopback::Port;
use std::io::{self, BufWriter, Write};
use subcommands::{End, run, run_feed};

/// Simulates a machine that gets its cards from standard input, and sends its requests to the
/// server on the port `port` of 127.0.0.1. Standard output isn't buffered, so a machine that loses
/// power has already printed its cards.
pub fn feed<E: Write + Drop>(
    rt: &HostRuntime,
    port: u16,
    start: FeedStart,
    events: &mut EventLog<E>,
) -> End
    requires { IsBoot start.boot }
    ensures runs { FeedRuns E.contents start None None None None None events.old events.new
        result }
    ensures feeds { Feeds start None None None None None result }
{
    let mut exchange = Port::new(rt, rt.alloc(), port);
    run_feed(
        rt.alloc(),
        start,
        &mut rt.reader(),
        &mut io::writer(rt),
        &mut exchange,
        events,
    )
}

/// Runs a subcommand that needs only standard input and standard output.
pub fn over_streams<E: Write + Drop>(
    rt: &HostRuntime,
    words: Words,
    events: &mut EventLog<E>,
) -> End
    requires range { InRange words }
    requires streams { UsesStreams words }
    ensures { Runs E.contents words None None None events.old events.new result }
{
    match BufWriter::new(rt.alloc(), io::writer(rt)) {
        Ok(mut writer) => run(rt.alloc(), words, &mut rt.reader(), &mut writer, events),
        Err(_) => End::Memory,
    }
}
