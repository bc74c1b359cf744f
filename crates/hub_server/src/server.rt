//! A shift over the connections of a listener.
ghost use Rattle.std.specs.Prelude.{◌≡◌, IfOk, IfErr};
ghost use Rattle.hub_shared.specs.declared.settling.SettleFault.{SettleFault};
ghost use Rattle.hub_server.specs.Faults.{fault_of_shift};
ghost use Rattle.hub_server.specs.Settled.{IsSettledShift, IsUnsettledShift};

use connections::{Acceptor, ends_of};
use hub_shifts::{
    Hooks, HubKeeper, OpenGate, SettledShift, ShiftFault, run_kept_shift, settle_shift,
};
use server_faults::ServerFault;
use shift_size::ShiftSize;
use std::alloc::AllocGlobal;
use std::io::{Read, Write};
use std::net::{OpenListener, OpenStream};
use std::random::RandomSource;
use std::sync::Wait;
use std::thread::Threads;

/// Accepts a connection for each session of the shift, serves each as soon as it is there, and settles.
///
/// The calling thread does meanwhile what the keeper does, and the hub is looked at where it does so. It waits for each client, before
/// it connects and while it is connected. A connection that is reset, silent, slow or sends
/// noise is a session that ends or is answered by fault lines, and one that could not be accepted is a session whose reader failed;
/// the others are served all the same. The answer is [`ServerFault::NotSettled`] only where there was a shift whose tallies do not
/// tell its history; what else it is says [`ServerFault`].
pub fn serve_connections<L, D, R>(
    rt: &R,
    keeper: &D,
    listener: L,
    size: ShiftSize,
) -> Result<SettledShift, ServerFault>
where
    L: OpenListener + Send + Drop,
    D: HubKeeper + Sync,
    R: Threads + Wait + Sync + RandomSource + AllocGlobal,
    L::Stream: Read + Write + OpenStream + Send + Drop,
    ensures settled { IfOk result
        (λ s. IsSettledShift size.sessions size.workers s.shift s.calls) }
    ensures not_settled { IfErr result (λ f. (why : SettleFault)
        → f ≡ ServerFault.NotSettled why → IsUnsettledShift size.sessions size.workers why) }
{
    let alloc = rt.alloc();
    let acceptor = Acceptor::new(listener, size.sessions());
    let connections = ends_of(rt, alloc, &acceptor, size.sessions())?;
    let gate = &OpenGate;
    let hooks = Hooks { gate, keeper };
    let shift = match run_kept_shift(rt, alloc, hooks, connections, size.workers()) {
        Ok(shift) => shift,
        Err(fault) => return Err(fault_of_shift(fault)),
    };
    let settled = settle_shift(alloc, shift)?;
    Ok(settled)
}

// Why a shift was not run.
pub(crate) fn fault_of_shift(fault: ShiftFault) -> ServerFault
    ensures { result ≡ fault_of_shift fault }
{
    match fault {
        ShiftFault::Thread => ServerFault::Thread,
        ShiftFault::Memory => ServerFault::Memory,
    }
}
