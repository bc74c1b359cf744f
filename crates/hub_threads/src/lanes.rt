//! Lanes: their threads run, and then they are closed.
ghost use Rattle.std.specs.Prelude.{◌≡◌, ◌+◌, ◌%◌, ◌≤◌, [], length, map, slice_index_or, vec_len, IfOk};
ghost use Rattle.inbox.specs.States.{new_pass};
ghost use Rattle.session_lanes.specs.Lanes.{new_lane, thread_pass, EachAt, EachPair, TakesOnly, of_lane, HandsOut};
ghost use Rattle.session_lanes.specs.Work.{IsWorkOf};
ghost use Rattle.hub_threads.specs.Kept.{AreKept};
ghost use Rattle.hub_threads.specs.Room.{HasRoomFor};
ghost use Rattle.hub_threads.specs.Served.{IsServiceOf};
ghost use Rattle.hub_threads.specs.Starts.{CanBegin};

use crate::fault::ThreadFault;
use crate::kind::{Keeper, Serve};
use crate::threads::{Back, Lent, ThreadContext, run_threads};
use inbox::{Left, Pass};
use session_lanes::{
    AnswerQueue, Lane, Opening, Outcomes, Served, SessionStart, Work, close_lanes, take_passes,
    take_sessions, with_room,
};
use std::alloc::Global;
use std::sync::Wait;
use std::thread::Threads;
use taf_codes::Memory;

/// What the threads begin with: those that serve and the workers, which have passes of the lanes.
#[derive(Drop)]
pub struct ThreadPlaces<W, S, K> {
    pub lanes: Vec<Lane>,
    pub sessions: Vec<SessionStart<S, K>>,
    pub workers: Vec<W>,
}

/// What the threads gave back, and the lanes, which are still to be closed.
pub struct LanesRun<W> {
    pub to_end: LanesToEnd,
    pub back: Back<W>,
}

/// Runs the threads of 1 to 8 workers and of up to 64 that serve, as threads of the kind `H` do, and joins them. The calling thread
/// does meanwhile what the keeper does, which may have one thread more.
///
/// All memory that is taken here is taken before the first thread starts: where it is refused, the answer is
/// [`ThreadFault::Memory`]. None serves before all threads are there: where one can't be started the others end at once, and the
/// answer is [`ThreadFault::Thread`]. After either fault no thread is left.
pub fn run_lanes<W, C, H, S, K, D, R>(
    rt: &R,
    alloc: Global,
    lent: Lent<'_, C, H, D>,
    places: ThreadPlaces<W, S, K>,
) -> Result<LanesRun<W>, ThreadFault>
where
    W: Work<C> + Send + Drop,
    C: Sync,
    H: Serve<S, K> + Sync,
    S: Send + Drop,
    K: Send + Drop,
    D: Keeper + Sync,
    R: Threads + Wait + Sync,
    requires begins { CanBegin W.pass W.can_begin places.lanes.items places.sessions.items
        places.workers.items }
    requires few { vec_len places.sessions ≤ 64 }
    ensures lanes { IfOk result (λ r. r.to_end.lanes ≡ places.lanes) }
    ensures room { IfOk result (λ r. HasRoomFor (vec_len places.sessions) (vec_len places.lanes)
        r.to_end.room) }
    ensures served { IfOk result (λ r. EachPair (λ i s b. IsServiceOf H.has_served s b)
        places.sessions.items r.back.served.items) }
    ensures worked { IfOk result (λ r. EachPair (λ k s w. IsWorkOf W.pass W.has_worked s w)
        places.workers.items r.back.worked.items) }
{
    let ThreadPlaces {
        lanes,
        sessions,
        workers,
    } = places;
    let answers = make_answers(alloc, sessions.len())?;
    let opening = Opening::new();
    let context = ThreadContext {
        lent,
        lanes: lanes.as_slice(),
        answers: answers.as_slice(),
        opening: &opening,
    };
    let room = LanesEnd::with_room(alloc, sessions.len(), lanes.len())?;
    let back = run_threads(rt, alloc, context, sessions, workers)?;
    let to_end = LanesToEnd { lanes, room };
    Ok(LanesRun { to_end, back })
}

// A queue of answers for each that serves.
fn make_answers(alloc: Global, count: usize) -> Result<Vec<AnswerQueue>, Memory>
    ensures { IfOk result (λ v. vec_len v ≡ count) }
{
    let mut queues = Vec::new(alloc);
    for _made in 0..count {
        let queue = AnswerQueue::new(alloc)?;
        if queues.push(queue).is_err() {
            return Err(Memory);
        }
    }
    Ok(queues)
}

/// What comes of lanes: how those ended that served, with their tallies, and what each lane still held.
#[derive(Drop)]
pub struct LanesEnd {
    pub outcomes: Outcomes,
    pub left: Vec<Left>,
}

impl LanesEnd {
    // Empty lists with room for so many sessions and lanes.
    fn with_room(alloc: Global, sessions: usize, lanes: usize) -> Result<LanesEnd, Memory>
        ensures { IfOk result (HasRoomFor sessions lanes) }
    {
        let outcomes = Outcomes::with_room(alloc, sessions)?;
        let left = with_room(alloc, lanes)?;
        Ok(LanesEnd { outcomes, left })
    }
}

/// Lanes whose passes are still to come back, and the lists for what comes of them.
pub struct LanesToEnd {
    pub lanes: Vec<Lane>,
    pub room: LanesEnd,
}

/// Takes back the passes of those that served, and those of the workers, of which each has one of its own lane, and closes the
/// lanes. It takes no memory.
pub fn end_lanes(
    rt: &impl Wait,
    to_end: LanesToEnd,
    served: Vec<Served>,
    passes: Vec<Pass>,
) -> LanesEnd
    requires some { 1 ≤ length to_end.lanes.items }
    requires lanes { let lanes = to_end.lanes.items in EachAt (λ k l.
        HandsOut (new_lane l.id l.capacity) l
        (1 + length (of_lane k (length lanes) 0 served.items))) lanes }
    requires hands { let lanes = to_end.lanes.items in EachAt (λ i r. (d : _)
        → r.pass ≡ thread_pass (slice_index_or lanes (i % length lanes) d).id r.pass.put [])
        served.items }
    requires passes { let lanes = to_end.lanes.items in (length passes.items ≡ length lanes)
        × EachAt (λ k p. (d : _) → TakesOnly (new_pass (slice_index_or lanes k d).id 1) p)
        passes.items }
    requires few { vec_len served ≤ 64 }
    requires room { HasRoomFor (vec_len served) (vec_len to_end.lanes) to_end.room }
    ensures ends { result.outcomes.ends.items ≡ map (λ s. s.end) served.items }
    ensures tallies { result.outcomes.tallies.items ≡ map (λ s. s.tally) served.items }
    ensures kept { AreKept (length to_end.lanes.items) (map (λ s. s.pass.put) served.items)
        (map (λ p. p.taken) passes.items) result.left.items }
{
    let LanesToEnd { lanes, room } = to_end;
    let LanesEnd { outcomes, left } = room;
    let mut lanes = lanes;
    let outcomes = take_sessions(lanes.as_mut_slice(), served, outcomes);
    take_passes(lanes.as_mut_slice(), passes);
    let left = close_lanes(rt, lanes, left);
    LanesEnd { outcomes, left }
}
