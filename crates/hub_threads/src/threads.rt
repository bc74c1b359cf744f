//! The threads of sessions and workers.
ghost use Rattle.std.specs.Prelude.{◌≡◌, [], length, vec_len, IfOk};
ghost use Rattle.session_lanes.specs.Lanes.{EachPair};
ghost use Rattle.session_lanes.specs.Room.{IsEmptyWithRoom};
ghost use Rattle.session_lanes.specs.Work.{IsWorkOf};
ghost use Rattle.hub_threads.specs.Served.{IsServiceOf};
ghost use Rattle.hub_threads.specs.Starts.{CanBegin};

use crate::fault::ThreadFault;
use crate::kind::{Keeper, Serve};
use crate::promises::{ServedBy, WorkedBy};
use session_lanes::{
    AnswerQueue, Lane, Opening, Served, SessionContext, SessionStart, Work, with_room,
};
use std::alloc::Global;
use std::marker::PhantomData;
use std::snapshot::Snapshot;
use std::sync::Wait;
use std::thread;
use std::thread::{Promise, PromisedHandle, Threads};
use taf_codes::Memory;

/// What the workers share, what those that serve do, and what the calling thread does meanwhile.
#[derive(Drop)]
pub struct Lent<'x, C, H, D> {
    pub shared: &'x C,
    pub kind: &'x H,
    pub keeper: &'x D,
}

// What the threads are lent.
#[derive(Drop)]
pub(crate) struct ThreadContext<'x, C, H, D> {
    pub lent: Lent<'x, C, H, D>,
    pub lanes: &'x [Lane],
    pub answers: &'x [AnswerQueue],
    pub opening: &'x Opening,
}

/// What the threads gave back, in the order in which they were started.
#[derive(Drop)]
pub struct Back<W> {
    pub served: Vec<Served>,
    pub worked: Vec<W>,
}

impl<W: Drop> Back<W> {
    // Empty lists with room for so many sessions and workers.
    fn with_room(alloc: Global, sessions: usize, workers: usize) -> Result<Back<W>, Memory>
        ensures served { IfOk result (λ b. IsEmptyWithRoom b.served sessions) }
        ensures worked { IfOk result (λ b. IsEmptyWithRoom b.worked workers) }
    {
        let served = with_room(alloc, sessions)?;
        let worked = with_room(alloc, workers)?;
        Ok(Back { served, worked })
    }
}

// Runs a thread for each worker and for each that serves, and one for the keeper where it wants one, does meanwhile what the keeper
// does, and joins them. Once a thread is started nothing returns before all are joined, and memory is refused before the first one
// starts or not at all. The closure captures all of it at one lifetime, so its two loops stand in one function.
pub(crate) fn run_threads<'x, W, C, H, S, K, D, R>(
    rt: &'x R,
    alloc: Global,
    context: ThreadContext<'x, C, H, D>,
    sessions: Vec<SessionStart<S, K>>,
    workers: Vec<W>,
) -> Result<Back<W>, ThreadFault>
where
    W: Work<C> + Send + Drop,
    C: Sync,
    H: Serve<S, K> + Sync,
    S: Send + Drop,
    K: Send + Drop,
    D: Keeper + Sync,
    R: Threads + Wait + Sync,
    requires begins { CanBegin W.pass W.can_begin context.lanes.now sessions.items workers.items }
    requires queues { length context.answers.now ≡ length sessions.items }
    ensures served { IfOk result (λ b. EachPair (λ i s r. IsServiceOf H.has_served s r)
        sessions.items b.served.items) }
    ensures worked { IfOk result (λ b. EachPair (λ k s r. IsWorkOf W.pass W.has_worked s r)
        workers.items b.worked.items) }
{
    let ThreadContext {
        lent,
        lanes,
        answers,
        opening,
    } = context;
    let Lent {
        shared,
        kind,
        keeper,
    } = lent;
    let serving = with_room(alloc, sessions.len())?;
    let working = with_room(alloc, workers.len())?;
    thread::scope(
        thread::scope_env(),
        rt,
        move |scope| -> Result<Back<W>, ThreadFault>
            requires { CanBegin W.pass W.can_begin lanes.now sessions.items workers.items
                × (length answers.now ≡ length sessions.items)
                × IsEmptyWithRoom serving (vec_len sessions)
                × IsEmptyWithRoom working (vec_len workers) }
            ensures { IfOk result
                (λ b. EachPair (λ i s r. IsServiceOf H.has_served s r) sessions.items b.served.items
                × EachPair (λ k s r. IsWorkOf W.pass W.has_worked s r)
                workers.items b.worked.items) }
        {
            let (mut serving, mut working) = (serving, working);
            let room = Back::with_room(alloc, sessions.len(), workers.len())?;
            let first = lanes[0].jobs();
            let mut all_started = !keeper.has_thread()
                || scope.spawn(move || keeper.run(first)).is_ok();
            let mut lane = 0;
            for start in workers {
                let jobs = lanes[lane].jobs();
                let promise = WorkedBy {
                    began: Snapshot::of(&start),
                    of: PhantomData,
                };
                match scope.spawn_with(
                    promise,
                    move || -> W
                        requires { W.can_begin start × ((W.pass start).inbox ≡ jobs.now.id) }
                        ensures { IsWorkOf W.pass W.has_worked start result }
                    { start.work(rt, shared, jobs, answers) },
                ) {
                    Ok(thread) => working.push_reserved(thread),
                    Err(_) => all_started = false,
                }
                lane += 1;
            }
            let mut place = 0;
            for start in sessions {
                let jobs = lanes[place % lanes.len()].jobs();
                let queue = &answers[place];
                let promise: ServedBy<H, S, K> = ServedBy {
                    start: Snapshot::of(&start),
                    of: PhantomData,
                };
                match scope.spawn_with(
                    promise,
                    move || -> Served
                        requires { (start.pass.inbox ≡ jobs.now.id) × (start.pass.put ≡ []) }
                        ensures { IsServiceOf H.has_served start result }
                    {
                        let context = SessionContext {
                            opening,
                            jobs,
                            answers: queue,
                        };
                        kind.serve(rt, alloc, context, start)
                    },
                ) {
                    Ok(thread) => serving.push_reserved(thread),
                    Err(_) => all_started = false,
                }
                place += 1;
            }
            opening.decide(all_started);
            keep_where(keeper, all_started);
            let back = join_all(rt, serving, working, lanes, room);
            keeper.end();
            if all_started {
                Ok(back)
            } else {
                Err(ThreadFault::Thread)
            }
        },
    )
}

// Does what the keeper does where all threads are there.
fn keep_where<D: Keeper>(keeper: &D, all_started: bool) {
    if all_started {
        keeper.keep();
    }
}

// Joins those that serve, ends the workers, and joins them, into lists with room for them. It takes no memory.
fn join_all<W: Work<C> + Drop, C, H: Serve<S, K>, S, K, R: Threads>(
    rt: &R,
    serving: Vec<PromisedHandle<Served, ServedBy<H, S, K>>>,
    working: Vec<PromisedHandle<W, WorkedBy<W, C>>>,
    lanes: &[Lane],
    room: Back<W>,
) -> Back<W>
    requires served { IsEmptyWithRoom room.served (vec_len serving) }
    requires worked { IsEmptyWithRoom room.worked (vec_len working) }
    ensures served { EachPair (λ i h r. IsServiceOf H.has_served h.promise.start.value r)
        serving.items result.served.items }
    ensures worked { EachPair (λ k h r. IsWorkOf W.pass W.has_worked h.promise.began.value r)
        working.items result.worked.items }
{
    let Back { served, worked } = room;
    let served = join_each(rt, serving, served);
    end_jobs(lanes);
    let worked = join_each(rt, working, worked);
    Back { served, worked }
}

// Joins each thread, in their order, and puts what it gives into a list with room for all.
fn join_each<T: Drop, P: Promise<T>, R: Threads>(
    rt: &R,
    handles: Vec<PromisedHandle<T, P>>,
    joined: Vec<T>,
) -> Vec<T>
    requires { IsEmptyWithRoom joined (vec_len handles) }
    ensures { EachPair (λ k h r. P.kept_by h.promise r) handles.items result.items }
{
    let mut joined = joined;
    for handle in handles {
        joined.push_reserved(handle.join(rt));
    }
    joined
}

// No job comes any more: a worker that finds its lane empty ends.
fn end_jobs(lanes: &[Lane]) {
    for lane in lanes {
        lane.jobs().end();
    }
}
