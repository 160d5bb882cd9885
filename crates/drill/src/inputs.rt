//! The main theorem for a store in memory, without any premise.
ghost use Rattle.std.specs.Prelude.{◌≡◌, ◌<◌, IfErr, IfOk, List, length, take};
ghost use Rattle.server.specs.declared.connections.NextFault.TheVariants.{Device};
ghost use Rattle.list_store.specs.Lists.{contents};
ghost use Rattle.server.specs.Exchanges.{Exchange, IsServed};
ghost use Rattle.server.specs.Memory.{queue, texts};

use list_store::ListStore;
use server::{MemoryConnections, NextFault, serve_all};
use std::alloc::Global;

/// Serves `turns` of the messages in `inputs`, in order, with a list store that is empty at first.
/// Each message arrives in pieces of at most `most` bytes.
///
/// # Errors
///
/// - `Device`: there are fewer inputs than `turns`.
/// - `Memory`: an allocation fails.
pub fn serve_inputs(
    alloc: Global,
    inputs: Vec<Vec<u8>>,
    most: usize,
    turns: u64,
) -> Result<(ListStore, MemoryConnections), NextFault>
    ensures served { IfOk result (λ r. (es : List Exchange) × (length es ≡ turns)
        × IsServed (take turns (texts inputs.items)) (queue r.1).done (contents r.0) es) }
    ensures cause { IfErr result (λ fault. fault ≡ Device → length inputs.items < turns) }
{
    let mut store = ListStore::new(alloc);
    let mut connections = MemoryConnections::new(alloc, inputs, most);
    serve_all(alloc, &mut store, &mut connections, turns)?;
    Ok((store, connections))
}
