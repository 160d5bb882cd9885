//! Serves the connections of a server one at a time, with the event lines of each.
ghost use Rattle.std.specs.Prelude.{◌≡◌, ◌<◌, List, IfErr, OnErr, OnOk, length};
ghost use Rattle.server.specs.Exchanges.{Exchange};
ghost use Rattle.server.specs.declared.connections.NextFault.{NextFault as NextFaultValue};
ghost use Rattle.server_run.specs.declared.observation.Observation.{Observation as Observed};
ghost use Rattle.server_run.specs.ObservedRuns.{ObservesAll};
ghost use Rattle.server_run.specs.ServerLines.{of_next};

use crate::ended::Ended;
use crate::import::with_product;
use crate::noted::note_connection;
use crate::observing::serve_observed;
use crate::stopping::ServeStop;
use event_lines::EventLog;
use http_requests::Routes;
use job_facts::ServerStore;
use server::Connections;
use std::alloc::Global;
use std::io::Write;

/// The number of connections served, and the reason if there were fewer than requested.
#[derive(Clone, Copy)]
pub(crate) struct Run {
    pub(crate) count: u32,
    pub(crate) outcome: Result<(), ServeStop>,
}

/// Serves `turns` connections, one at a time, and writes the event lines of each.
pub(crate) fn serve_connections<S: ServerStore, C: Connections, E: Write + Drop>(
    alloc: Global,
    store: &mut S,
    connections: &mut C,
    events: &mut EventLog<E>,
    turns: u32,
) -> Run
    ensures served { (es : List Exchange) × (os : List Observed)
        × ObservesAll S.state store.old store.new (C.queue connections.old)
        (C.queue connections.new) events.old.level (E.contents events.old.writer)
        (E.contents events.new.writer) es os × (length es ≡ result.count) }
    ensures all { OnOk result.outcome (result.count ≡ turns) }
    ensures fewer { OnErr result.outcome (result.count < turns) }
    ensures cause { IfErr result.outcome (λ stop. (fault : NextFaultValue)
        × (stop ≡ of_next fault) × C.refuses connections.new fault) }
    ensures level { events.new.level ≡ events.old.level }
{
    reply_store::laws::left_in_turn::<S>();
    let mut routes = Routes::new();
    let mut is_failing = false;
    let mut count = 0;
    while count < turns {
        let (incoming, writer) = match connections.next() {
            Ok(connection) => connection,
            Err(fault) => {
                let outcome = Err(ServeStop::from(fault));
                return Run { count, outcome };
            }
        };
        let (incoming, writer, observation) = serve_observed(
            &mut routes,
            alloc,
            store,
            incoming,
            writer,
        );
        let observation = with_product(store, events.is_on(), observation);
        let ended = Ended::new(connections, incoming, writer, observation);
        is_failing = note_connection(alloc, events, is_failing, &ended);
        drop(ended);
        count += 1;
    }
    let outcome = Ok(());
    Run { count, outcome }
}
