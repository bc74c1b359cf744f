//! A whole service.
ghost use Rattle.std.specs.Prelude.{◌≡◌, ◌≤◌, vec_len, IfOk};
ghost use Rattle.hub_service.specs.Services.{IsService, service_of};

use connection_handlers::ConnectionHandlers;
use connections::Connections;
use hub_core::Hub;
use hub_serving::{Hooks, HubKeeper, ServedHub, serve_hub};
use hub_shared::Tally;
use hub_threads::{Lent, ThreadFault};
use hub_workers::Gate;
use inbox::Left;
use std::alloc::Global;
use std::random::RandomSource;
use std::sync::Wait;
use std::thread::Threads;

/// What a service leaves.
#[derive(Drop)]
pub struct Service {
    pub hub: Hub,
    /// How many calls the history had before the service.
    pub earlier: u64,
    /// How many calls its workers made that were answered: those that the history has since.
    pub sum: u64,
    /// How many calls met a fault of the hub.
    pub refused: u64,
    /// What the sessions of each handler were told, one after another, in the order of the handlers.
    pub tallies: Vec<Tally>,
    /// What each lane still held.
    pub left: Vec<Left>,
}

/// Serves whoever connects, by 1 to 64 connection handlers in threads of their own, with 1 to 8 workers in threads of their own.
///
/// Handler `i` serves the connections that are brought to it, one after another, by worker `i mod workers`. The calling thread does
/// what the keeper does, and then waits until no more connections come, each session has ended and the workers have made all calls
/// that were left. All memory that the service takes for itself is taken before the first thread starts: where it is refused, the
/// answer is [`ThreadFault::Memory`]. No session begins before all threads are there: where one can't be started the others end at
/// once, and the answer is [`ThreadFault::Thread`]. After either fault no line was read, no thread is left, and there is no hub.
pub fn run_service<A, G, D, R>(
    rt: &R,
    alloc: Global,
    hooks: Hooks<'_, G, D>,
    handlers: Vec<(A, ())>,
    workers: usize,
) -> Result<Service, ThreadFault>
where
    A: Connections + Send + Drop,
    G: Gate + Sync,
    D: HubKeeper + Sync,
    R: Threads + Wait + Sync + RandomSource,
    requires handlers { (1 ≤ vec_len handlers) × (vec_len handlers ≤ 64) }
    requires workers { (1 ≤ workers) × (workers ≤ 8) }
    ensures { IfOk result (λ s. IsService (vec_len handlers) workers s) }
{
    let Hooks { gate, keeper } = hooks;
    let lent = Lent {
        shared: gate,
        kind: &ConnectionHandlers,
        keeper,
    };
    let served = serve_hub(rt, alloc, lent, handlers, workers)?;
    Ok(into_service(served))
}

// The service whose handlers were the threads that served.
pub(crate) fn into_service(served: ServedHub) -> Service
    ensures { result ≡ service_of served }
{
    let ServedHub {
        hub,
        earlier,
        sum,
        refused,
        tallies,
        left,
        ..
    } = served;
    Service {
        hub,
        earlier,
        sum,
        refused,
        tallies,
        left,
    }
}
