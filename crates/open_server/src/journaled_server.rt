//! A service with a journal over the connections of a listener.
ghost use Rattle.std.specs.Prelude.{◌≡◌, ◌≤◌, false, length, vec_len, IfOk, IfErr};
ghost use Rattle.journal.specs.Journals.{lines_of, has_failed};
ghost use Rattle.journaled_hub.specs.HistoryLines.{lines_of_history};
ghost use Rattle.journaled_hub.specs.JournaledHubs.{history_of, IsOnDisk};
ghost use Rattle.hub_service.specs.JournaledServices.{IsJournaledService};
ghost use Rattle.hub_shared.specs.declared.settling.SettleFault.{SettleFault};
ghost use Rattle.open_server.specs.Settled.{IsSettledService, IsUnsettledService};

use crate::acceptor::AcceptThread;
use crate::handlers::handler_starts;
use crate::keeper::InputKeeper;
use crate::listening::Listening;
use crate::server::fault_of_threads;
use hub_service::{
    HubKeeper, JournaledService, SettledService, ThreadFault, run_journaled_service, settle_service,
};
use hub_threads::run_beside;
use journal::{Journal, RawFile};
use journaled_hub::JournaledHub;
use server_faults::{ServerFault, sound_journal};
use std::alloc::Global;
use std::io::Read;
use std::random::RandomSource;
use std::rt::Clock;
use std::sync::Wait;
use std::thread::Threads;

/// A service whose tallies tell the calls of its history since it began, and the journal that has all of them.
#[derive(Drop)]
pub struct SettledJournaledService<F> {
    pub settled: SettledService,
    pub journal: Journal<F>,
}

/// Serves whoever connects on the hub of a journal, by one worker, until the input ends, and settles the calls since. An answer is written
/// once its call is in the journal, on the disk.
///
/// It serves and ends as [`crate::serve_open`] does. The answer is [`ServerFault::Journal`] where a call of the journal's file failed:
/// what was answered is in the journal, nothing was answered since, and nothing is settled.
pub fn serve_open_journaled<F, I, R>(
    rt: &R,
    alloc: Global,
    listening: &Listening,
    input: I,
    hub: JournaledHub<F>,
) -> Result<SettledJournaledService<F>, ServerFault>
where
    F: RawFile + Send + Drop,
    I: Read + Send + Drop,
    R: Threads + Wait + Clock + Sync + RandomSource,
    requires { IsOnDisk hub }
    ensures settled { IfOk result (λ s. IsSettledService listening.now.queue.limits.handlers 1
        s.settled.service s.settled.calls) }
    ensures earlier { IfOk result (λ s. s.settled.service.earlier ≡ length (history_of hub)) }
    ensures sound { IfOk result (λ s. has_failed s.journal ≡ false) }
    ensures durable { IfOk result
        (λ s. lines_of s.journal ≡ lines_of_history s.settled.service.hub) }
    ensures not_settled { IfErr result (λ f. (why : SettleFault) → f ≡ ServerFault.NotSettled why
        → IsUnsettledService listening.now.queue.limits.handlers 1 why) }
{
    let keeper = InputKeeper::new(rt, listening, input);
    let run = run_journaled_accepting(rt, alloc, listening, &keeper, hub);
    let JournaledService { service, journal } = match run {
        Ok(journaled) => journaled,
        Err(fault) => return Err(fault_of_threads(fault)),
    };
    let journal = sound_journal(journal)?;
    let settled = settle_service(alloc, service)?;
    Ok(SettledJournaledService { settled, journal })
}

// Runs a service on the hub of a journal, whose connections are accepted by a thread of its own.
fn run_journaled_accepting<F, D, R>(
    rt: &R,
    alloc: Global,
    listening: &Listening,
    keeper: &D,
    hub: JournaledHub<F>,
) -> Result<JournaledService<F>, ThreadFault>
where
    F: RawFile + Send + Drop,
    D: HubKeeper + Sync,
    R: Threads + Wait + Clock + Sync + RandomSource,
    requires { IsOnDisk hub }
    ensures { IfOk result
        (λ s. IsJournaledService listening.now.queue.limits.handlers hub s) }
{
    let handlers = handler_starts(rt, alloc, listening)?;
    let acceptor = AcceptThread { rt, listening };
    run_beside(
        rt,
        &acceptor,
        move ||
            requires handlers { (1 ≤ vec_len handlers) × (vec_len handlers ≤ 64) }
            requires on_disk { IsOnDisk hub }
        { run_journaled_service(rt, alloc, keeper, handlers, hub) },
    )
}
