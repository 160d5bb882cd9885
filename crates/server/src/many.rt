//! Serves a list of connections. The contract of `serve_all` is the main theorem.
ghost use Rattle.std.specs.Prelude.{◌≡◌, List, OnOk, OnErr, IfErr, length, ◌<◌};
ghost use Rattle.server.specs.Exchanges.{Exchange, Moves, ServesAll};

use crate::connections::{Connections, NextFault};
use crate::one::serve_by;
use http_requests::Routes;
use job_facts::JobStore;
use std::alloc::Global;

/// Serves `turns` connections, one at a time.
///
/// # Errors
///
/// Returns the fault if the next connection can't be accepted. Connections served before are not
/// affected.
pub fn serve_all<S: JobStore, C: Connections>(
    alloc: Global,
    store: &mut S,
    connections: &mut C,
    turns: u64,
) -> Result<(), NextFault>
    ensures served { (es : List Exchange)
        × Moves (C.queue connections.old) (C.queue connections.new) es
        × ServesAll (S.state store.old) (S.state store.new) es × OnOk result (length es ≡ turns)
        × OnErr result (length es < turns) }
    ensures cause { IfErr result (λ fault. C.refuses connections.new fault) }
{
    reply_store::laws::left_in_turn::<S>();
    let mut routes = Routes::new();
    let mut turn = 0;
    while turn < turns {
        let (mut incoming, mut writer) = connections.next()?;
        let (served, meaning) = serve_by(&mut routes, alloc, store, &mut incoming, &mut writer);
        drop(meaning);
        connections.back(incoming, writer, served);
        turn += 1;
    }
    Ok(())
}
