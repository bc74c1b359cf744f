//! A new hub that workers share.
ghost use Rattle.std.specs.Prelude.{◌≡◌, ◌+◌, ◌%◌, ◌≤◌, [], length, slice_index_or, vec_len, IfOk};
ghost use Rattle.inbox.specs.States.{new_pass};
ghost use Rattle.session_lanes.specs.Lanes.{new_lane, thread_pass, EachAt, of_lane, HandsOut};
ghost use Rattle.session_lanes.specs.Room.{IsEmptyWithRoom};
ghost use Rattle.hub_shared.specs.Seats.{new_seat};
ghost use Rattle.hub_threads.specs.Room.{HasRoomFor};
ghost use Rattle.hub_workers.specs.Work.{IsWorked};
ghost use Rattle.hub_serving.specs.ServedHubs.{IsServedHub, IsWorkedHub};

use crate::keeper::{HubKeeper, SharedKeeper};
use crate::served::ServedHub;
use hub_shared::{Seat, SharedHub};
use hub_threads::{
    Back, LanesEnd, LanesRun, LanesToEnd, Lent, Serve, ThreadFault, ThreadPlaces, end_lanes,
    run_lanes,
};
use hub_workers::{
    ClosedHub, Gate, Places, SharedContext, Worker, WorkerParts, close_hub, make_places,
};
use seeded_state::SeededState;
use session_lanes::Outcomes;
use std::alloc::Global;
use std::marker::Brand;
use std::random::RandomSource;
use std::sync::Wait;
use std::sync::ledger::{Blank, Ledger};
use std::thread::Threads;

/// Runs up to 64 threads that serve around a new hub, each with its reader and writer, as threads of the kind `H` do, with 1 to 8
/// workers in threads of their own.
///
/// What is lent has the gate that each job passes before its call. Thread `i` puts its jobs into the lane of worker `i mod workers`.
/// The calling thread does what the keeper does, which may look at the hub in one thread more, and then waits until each thread that
/// serves has ended and the workers have made all calls that were left. All memory that is taken here is taken before the first thread
/// starts: where it is refused, the answer is [`ThreadFault::Memory`]. None serves before all threads are there: where one can't be
/// started the others end at once, and the answer is [`ThreadFault::Thread`]. After either fault no thread is left, and there is no hub.
pub fn serve_hub<H, S, K, G, D, R>(
    rt: &R,
    alloc: Global,
    lent: Lent<'_, G, H, D>,
    sessions: Vec<(S, K)>,
    workers: usize,
) -> Result<ServedHub, ThreadFault>
where
    H: Serve<S, K> + Sync,
    S: Send + Drop,
    K: Send + Drop,
    G: Gate + Sync,
    D: HubKeeper + Sync,
    R: Threads + Wait + Sync + RandomSource,
    requires sessions { vec_len sessions ≤ 64 }
    requires workers { (1 ≤ workers) × (workers ≤ 8) }
    ensures { IfOk result (λ s. IsServedHub H.has_served sessions.items workers s) }
{
    let blank = Blank::new(workers as u64 + 1);
    let setup = Setup {
        sessions,
        workers,
        blank,
    };
    serve_with_ledger::<Brand, H, S, K, G, D, R>(rt, alloc, lent, setup)
}

// What the threads are set up with: those that serve, how many workers make their calls, and the ledger of the workers' seats.
struct Setup<S, K> {
    sessions: Vec<(S, K)>,
    workers: usize,
    blank: Blank,
}

// The same with a hub whose seats are shares of this ledger.
fn serve_with_ledger<L, H, S, K, G, D, R>(
    rt: &R,
    alloc: Global,
    lent: Lent<'_, G, H, D>,
    setup: Setup<S, K>,
) -> Result<ServedHub, ThreadFault>
where
    L: Ledger + Send + Sync,
    H: Serve<S, K> + Sync,
    S: Send + Drop,
    K: Send + Drop,
    G: Gate + Sync,
    D: HubKeeper + Sync,
    R: Threads + Wait + Sync + RandomSource,
    requires sessions { vec_len setup.sessions ≤ 64 }
    requires workers { (1 ≤ setup.workers) × (setup.workers ≤ 8) }
    requires blank { (setup.blank.name ≡ L.name) × (setup.blank.parts ≡ L.parts)
        × (setup.blank.parts ≡ setup.workers + 1) }
    ensures { IfOk result
        (λ s. IsServedHub H.has_served setup.sessions.items setup.workers s) }
{
    let Setup {
        sessions,
        workers,
        blank,
    } = setup;
    let Lent {
        shared: gate,
        kind,
        keeper,
    } = lent;
    let (hub, mut seat) = SharedHub::<L>::with_hasher(alloc, SeededState::drawn(rt), blank)?;
    let Places {
        lanes,
        sessions,
        workers,
    } = make_places(rt, alloc, sessions, workers, &mut seat)?;
    let parts = WorkerParts::with_room(alloc, workers.len())?;
    let shared = SharedContext { gate, hub: &hub };
    let keeper = SharedKeeper {
        rt,
        hub: &hub,
        keeper,
    };
    let lent = Lent {
        shared: &shared,
        kind,
        keeper: &keeper,
    };
    let places = ThreadPlaces {
        lanes,
        sessions,
        workers,
    };
    let LanesRun { to_end, back } = run_lanes(rt, alloc, lent, places)?;
    let to_close = ToClose {
        to_end,
        hub,
        seat,
        parts,
    };
    Ok(end_hub(rt, to_close, back))
}

// What is closed at the end: the lanes, and the hub, by the seat that was kept; and the lists for what its workers had.
struct ToClose<L: Ledger> {
    to_end: LanesToEnd,
    hub: SharedHub<L>,
    seat: Seat<L>,
    parts: WorkerParts<L>,
}

// Closes the hub and the lanes, once all threads have ended. It takes no memory.
fn end_hub<L: Ledger>(rt: &impl Wait, to_close: ToClose<L>, back: Back<Worker<L>>) -> ServedHub
    requires some { let lanes = to_close.to_end.lanes.items in (1 ≤ length lanes)
        × (length lanes ≤ 8) }
    requires lanes { let lanes = to_close.to_end.lanes.items in EachAt (λ k l.
        HandsOut (new_lane l.id l.capacity) l
        (1 + length (of_lane k (length lanes) 0 back.served.items))) lanes }
    requires hands { let lanes = to_close.to_end.lanes.items in EachAt (λ i r. (d : _)
        → r.pass ≡ thread_pass (slice_index_or lanes (i % length lanes) d).id r.pass.put [])
        back.served.items }
    requires worked { let lanes = to_close.to_end.lanes.items in
        (length back.worked.items ≡ length lanes)
        × EachAt (λ k r. (d : _) → IsWorked (new_pass (slice_index_or lanes k d).id 1)
        r.pass r.seat) back.worked.items }
    requires seat { (to_close.seat ≡ new_seat 1)
        × (L.parts ≡ length to_close.to_end.lanes.items + 1) }
    requires few { vec_len back.served ≤ 64 }
    requires room { HasRoomFor (vec_len back.served) (vec_len to_close.to_end.lanes)
        to_close.to_end.room }
    requires passes { IsEmptyWithRoom to_close.parts.passes (vec_len back.worked) }
    requires seats { IsEmptyWithRoom to_close.parts.seats (vec_len back.worked + 1) }
    ensures { IsWorkedHub (length to_close.to_end.lanes.items) back.served.items result }
{
    let ToClose {
        to_end,
        hub,
        seat,
        parts,
    } = to_close;
    let Back { served, worked } = back;
    let ClosedHub {
        hub,
        sum,
        refused,
        passes,
    } = close_hub(hub, seat, worked, parts);
    let LanesEnd { outcomes, left } = end_lanes(rt, to_end, served, passes);
    let Outcomes { ends, tallies } = outcomes;
    ServedHub {
        hub,
        earlier: 0,
        sum,
        refused,
        ends,
        tallies,
        left,
    }
}
