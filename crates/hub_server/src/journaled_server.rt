//! A shift with a journal over the connections of a listener.
ghost use Rattle.std.specs.Prelude.{◌≡◌, false, length, IfOk, IfErr};
ghost use Rattle.journal.specs.Journals.{lines_of, has_failed};
ghost use Rattle.journaled_hub.specs.HistoryLines.{lines_of_history};
ghost use Rattle.journaled_hub.specs.JournaledHubs.{history_of, IsOnDisk};
ghost use Rattle.hub_shared.specs.declared.settling.SettleFault.{SettleFault};
ghost use Rattle.hub_server.specs.Settled.{IsSettledShift, IsUnsettledShift};

use crate::server::fault_of_shift;
use connections::{Acceptor, ends_of};
use hub_shifts::{HubKeeper, JournaledShift, SettledShift, run_journaled_shift, settle_shift};
use journal::{Journal, RawFile};
use journaled_hub::JournaledHub;
use server_faults::{ServerFault, sound_journal};
use shift_size::ShiftSize;
use std::alloc::AllocGlobal;
use std::io::{Read, Write};
use std::net::{OpenListener, OpenStream};
use std::random::RandomSource;
use std::sync::Wait;
use std::thread::Threads;

/// A shift whose tallies tell the calls of its history since it began, and the journal that has all of them.
#[derive(Drop)]
pub struct SettledJournaledShift<F> {
    pub settled: SettledShift,
    pub journal: Journal<F>,
}

/// Accepts a connection for each session of the size, serves each on the hub of a journal, by one worker, and settles the calls
/// since. An answer is written once its call is in the journal, on the disk.
///
/// It waits for clients, and ends sessions, as [`crate::serve_connections`] does. The answer is [`ServerFault::Journal`] where a
/// call of the journal's file failed: what was answered is in the journal, nothing was answered since, and nothing is settled.
pub fn serve_journaled_connections<F, L, D, R>(
    rt: &R,
    keeper: &D,
    listener: L,
    size: ShiftSize,
    hub: JournaledHub<F>,
) -> Result<SettledJournaledShift<F>, ServerFault>
where
    F: RawFile + Send + Drop,
    L: OpenListener + Send + Drop,
    D: HubKeeper + Sync,
    R: Threads + Wait + Sync + RandomSource + AllocGlobal,
    L::Stream: Read + Write + OpenStream + Send + Drop,
    requires { IsOnDisk hub }
    ensures settled { IfOk result
        (λ s. IsSettledShift size.sessions 1 s.settled.shift s.settled.calls) }
    ensures earlier { IfOk result (λ s. s.settled.shift.earlier ≡ length (history_of hub)) }
    ensures sound { IfOk result (λ s. has_failed s.journal ≡ false) }
    ensures durable { IfOk result
        (λ s. lines_of s.journal ≡ lines_of_history s.settled.shift.hub) }
    ensures not_settled { IfErr result (λ f. (why : SettleFault)
        → f ≡ ServerFault.NotSettled why → IsUnsettledShift size.sessions 1 why) }
{
    let alloc = rt.alloc();
    let acceptor = Acceptor::new(listener, size.sessions());
    let connections = ends_of(rt, alloc, &acceptor, size.sessions())?;
    let run = run_journaled_shift(rt, alloc, keeper, connections, hub);
    let JournaledShift { shift, journal } = match run {
        Ok(run) => run,
        Err(fault) => return Err(fault_of_shift(fault)),
    };
    let journal = sound_journal(journal)?;
    let settled = settle_shift(alloc, shift)?;
    Ok(SettledJournaledShift { settled, journal })
}
