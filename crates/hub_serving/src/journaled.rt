//! The hub of a journal, which one worker has.
ghost use Rattle.std.specs.Prelude.{◌≡◌, ◌≤◌, ◌∷◌, [], vec_len, IfOk};
ghost use Rattle.journaled_hub.specs.JournaledHubs.{IsOnDisk};
ghost use Rattle.journal_workers.specs.Work.{IsReady};
ghost use Rattle.journal_workers.specs.declared.worker.JournalWorker.{JournalWorker};
ghost use Rattle.hub_serving.specs.JournaledHubs.{IsServedJournaledHub};

use crate::keeper::{HubKeeper, JournalKeeper};
use crate::served::ServedHub;
use hub_threads::{
    Back, LanesEnd, LanesRun, Lent, Serve, ThreadFault, ThreadPlaces, end_lanes, run_lanes,
};
use inbox::Pass;
use journal::{Journal, RawFile};
use journal_workers::{JournalWorker, PendingLook};
use journaled_hub::JournaledHub;
use session_lanes::{LanePlaces, Outcomes, make_lane_places, with_room};
use std::alloc::Global;
use std::sync::Wait;
use std::thread::Threads;
use taf_codes::Memory;

/// What the threads around the hub of a journal leave.
#[derive(Drop)]
pub struct ServedJournaledHub<F> {
    pub served: ServedHub,
    /// The journal. Where a call of its file failed ([`Journal::has_failed`]), the last calls may be lacking on the disk, and none
    /// that served was told of them.
    pub journal: Journal<F>,
}

/// Runs up to 64 threads that serve around the hub of a journal, as [`serve_hub`](crate::serve_hub) does around a new one, with one
/// worker.
///
/// A job is answered once its call is on the disk; the jobs that come while a sync is waited for share the next one. Where a call of
/// the journal's file fails, no job is answered any more: each session ends by the next line that it gives a job for, or where its
/// reader comes to its end.
pub fn serve_journaled_hub<F, H, S, K, D, R>(
    rt: &R,
    alloc: Global,
    lent: Lent<'_, (), H, D>,
    sessions: Vec<(S, K)>,
    hub: JournaledHub<F>,
) -> Result<ServedJournaledHub<F>, ThreadFault>
where
    F: RawFile + Send + Drop,
    H: Serve<S, K> + Sync,
    S: Send + Drop,
    K: Send + Drop,
    D: HubKeeper + Sync,
    R: Threads + Wait + Sync,
    requires sessions { vec_len sessions ≤ 64 }
    requires on_disk { IsOnDisk hub }
    ensures { IfOk result (λ s. IsServedJournaledHub H.has_served sessions.items hub s) }
{
    let earlier = hub.len() as u64;
    let LanePlaces {
        lanes,
        sessions,
        passes,
    } = make_lane_places(rt, alloc, sessions, 1)?;
    let mut passes = passes;
    let workers = one_worker(alloc, passes.take_last(), hub)?;
    let places = ThreadPlaces {
        lanes,
        sessions,
        workers,
    };
    let pending = PendingLook::new();
    let keeper = JournalKeeper {
        rt,
        pending: &pending,
        keeper: lent.keeper,
    };
    let lent = Lent {
        shared: &pending,
        kind: lent.kind,
        keeper: &keeper,
    };
    let LanesRun { to_end, back } = run_lanes(rt, alloc, lent, places)?;
    let Back { served, worked } = back;
    let mut worked = worked;
    let worker = worked.take_last();
    let refused = worker.refused;
    let (pass, hub) = worker.into_parts();
    // The list has room for the pass that it had.
    passes.push_reserved(pass);
    let LanesEnd { outcomes, left } = end_lanes(rt, to_end, served, passes);
    let Outcomes { ends, tallies } = outcomes;
    let sum = hub.len() as u64 - earlier;
    hub.history_is_legal();
    let (hub, journal) = hub.into_parts();
    let served = ServedHub {
        hub,
        earlier,
        sum,
        refused,
        ends,
        tallies,
        left,
    };
    Ok(ServedJournaledHub { served, journal })
}

// A list of one worker, which has this pass and this hub.
fn one_worker<F: RawFile + Drop>(
    alloc: Global,
    pass: Pass,
    hub: JournaledHub<F>,
) -> Result<Vec<JournalWorker<F>>, Memory>
    requires on_disk { IsOnDisk hub }
    ensures { IfOk result (λ v. (worker : JournalWorker F) × (v.items ≡ worker ∷ [])
        × IsReady worker × (worker.pass ≡ pass) × (worker.hub ≡ hub) × (worker.refused ≡ 0)) }
{
    let mut workers = with_room(alloc, 1)?;
    let worker = JournalWorker::new(alloc, pass, hub)?;
    workers.push_reserved(worker);
    Ok(workers)
}
