//! A service over the connections of a listener.
ghost use Rattle.std.specs.Prelude.{◌≡◌, ◌≤◌, vec_len, IfOk, IfErr};
ghost use Rattle.hub_service.specs.Services.{IsService};
ghost use Rattle.hub_shared.specs.declared.settling.SettleFault.{SettleFault};
ghost use Rattle.open_server.specs.Faults.{fault_of_threads};
ghost use Rattle.open_server.specs.Settled.{IsSettledService, IsUnsettledService};

use crate::acceptor::AcceptThread;
use crate::handlers::handler_starts;
use crate::keeper::InputKeeper;
use crate::listening::Listening;
use hub_service::{
    Hooks, HubKeeper, Service, SettledService, ThreadFault, run_service, settle_service,
};
use hub_threads::run_beside;
use hub_workers::OpenGate;
use server_faults::ServerFault;
use std::alloc::Global;
use std::io::Read;
use std::random::RandomSource;
use std::rt::Clock;
use std::sync::Wait;
use std::thread::Threads;

/// Serves whoever connects, as many sessions at a time as the limits of the queue say, until the input ends, and settles.
///
/// A connection that is reset, silent, slow or sends noise is a session that ends or is answered by fault lines; the others are served
/// all the same, and the railway may connect again. Once the input has ended it waits for the sessions that are left, for the grace of
/// the limits and a little longer. The answer is [`ServerFault::NotSettled`] only where there was a service whose tallies do not tell its
/// history; what else it is says [`ServerFault`].
pub fn serve_open<I, R>(
    rt: &R,
    alloc: Global,
    listening: &Listening,
    input: I,
    workers: usize,
) -> Result<SettledService, ServerFault>
where
    I: Read + Send + Drop,
    R: Threads + Wait + Clock + Sync + RandomSource,
    requires workers { (1 ≤ workers) × (workers ≤ 8) }
    ensures settled { IfOk result (λ s.
        IsSettledService listening.now.queue.limits.handlers workers s.service s.calls) }
    ensures not_settled { IfErr result (λ f. (why : SettleFault) → f ≡ ServerFault.NotSettled why
        → IsUnsettledService listening.now.queue.limits.handlers workers why) }
{
    let keeper = InputKeeper::new(rt, listening, input);
    let service = match run_accepting(rt, alloc, listening, &keeper, workers) {
        Ok(service) => service,
        Err(fault) => return Err(fault_of_threads(fault)),
    };
    let settled = settle_service(alloc, service)?;
    Ok(settled)
}

// Runs a service whose connections are accepted by a thread of its own.
fn run_accepting<D, R>(
    rt: &R,
    alloc: Global,
    listening: &Listening,
    keeper: &D,
    workers: usize,
) -> Result<Service, ThreadFault>
where
    D: HubKeeper + Sync,
    R: Threads + Wait + Clock + Sync + RandomSource,
    requires { (1 ≤ workers) × (workers ≤ 8) }
    ensures { IfOk result (λ s. IsService listening.now.queue.limits.handlers workers s) }
{
    let handlers = handler_starts(rt, alloc, listening)?;
    let acceptor = AcceptThread { rt, listening };
    run_beside(
        rt,
        &acceptor,
        move ||
            requires handlers { (1 ≤ vec_len handlers) × (vec_len handlers ≤ 64) }
            requires workers { (1 ≤ workers) × (workers ≤ 8) }
        {
            let gate = &OpenGate;
            run_service(rt, alloc, Hooks { gate, keeper }, handlers, workers)
        },
    )
}

// Why a service was not run.
pub(crate) fn fault_of_threads(fault: ThreadFault) -> ServerFault
    ensures { result ≡ fault_of_threads fault }
{
    match fault {
        ThreadFault::Thread => ServerFault::Thread,
        ThreadFault::Memory => ServerFault::Memory,
    }
}
