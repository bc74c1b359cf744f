//! What a worker does.
ghost use Rattle.std.specs.Prelude.{◌≡◌, ◌+◌, ◌<◌, ◌^◌, length, IfOk, IfErr};
ghost use Rattle.hub_shared.specs.Seats.{new_seat, IsAnswerInRun, IsFaultInRun};
ghost use Rattle.hub_workers.specs.Work.{IsWorked};

use crate::gate::Gate;
use hub_shared::{Seat, SharedHub};
use inbox::{Job, Pass};
use session_lanes::{AnswerQueue, Arrival, JobQueue, Work, push_to_session};
use session_lines::Done;
use std::sync::Wait;
use std::sync::ledger::Ledger;

/// What a worker works with: its pass of the lane, and its seat at the hub.
#[derive(Drop)]
pub struct Worker<L: Ledger> {
    pub pass: Pass,
    pub seat: Seat<L>,
}

/// What the workers of a shared hub are lent: the gate, and the hub.
#[derive(Drop)]
pub struct SharedContext<'x, L: Ledger, G> {
    pub gate: &'x G,
    pub hub: &'x SharedHub<L>,
}

impl<'x, L: Ledger, G: Gate> Work<SharedContext<'x, L, G>> for Worker<L> {
    ghost pass = { λ w. w.pass };

    ghost can_begin = { λ w. w.seat ≡ new_seat 1 };

    ghost has_worked = { λ began w. IsWorked began.pass w.pass w.seat };

    fn work<R: Wait>(
        self,
        rt: &R,
        context: &SharedContext<'x, L, G>,
        jobs: &JobQueue,
        answers: &[AnswerQueue],
    ) -> Worker<L> {
        work(rt, context, jobs, answers, self)
    }
}

/// Takes jobs, makes their calls and answers their sessions, until the queue was ended and is found empty.
///
/// It put nothing. While the faults of its seat are below 2^60, it took as many jobs as its seat counted calls and faults.
/// The answer to a job is put into the queue at its session's place in `answers`; where there is none it is dropped.
pub fn work<L: Ledger, G: Gate, R: Wait>(
    rt: &R,
    context: &SharedContext<'_, L, G>,
    jobs: &JobQueue,
    answers: &[AnswerQueue],
    worker: Worker<L>,
) -> Worker<L>
    requires own { worker.pass.inbox ≡ jobs.now.id }
    ensures pass { result.pass ≡ record worker.pass { taken = result.pass.taken } }
    ensures seat { result.seat.parts ≡ worker.seat.parts }
    ensures made { result.seat.refused < 2 ^ 60
        → length result.pass.taken + (worker.seat.count + worker.seat.refused)
        ≡ length worker.pass.taken + (result.seat.count + result.seat.refused) }
{
    let Worker { pass, seat } = worker;
    let (mut pass, mut seat) = (pass, seat);
    for _ in rt.forever() {
        match jobs.next(rt, &mut pass) {
            Arrival::Job(job) => answer(rt, context, answers, &mut seat, job),
            Arrival::Signal => {}
            Arrival::End => break,
        }
    }
    Worker { pass, seat }
}

// Makes the call of one job, and answers its session.
fn answer<L: Ledger, G: Gate, R: Wait>(
    rt: &R,
    context: &SharedContext<'_, L, G>,
    answers: &[AnswerQueue],
    seat: &mut Seat<L>,
    job: Job,
)
    ensures parts { seat.new.parts ≡ seat.old.parts }
    ensures one { seat.new.refused < 2 ^ 60
        → seat.new.count + seat.new.refused ≡ seat.old.count + seat.old.refused + 1 }
    ensures before { seat.new.refused < 2 ^ 60 → seat.old.refused < 2 ^ 60 }
{
    context.gate.before(&job);
    let done = make_call(rt, context.hub, seat, job);
    push_to_session(rt, answers, done);
}

/// Makes the call of a job on the hub, and gives the Done of this job.
///
/// Its answer is that of the job's own call, after some history that one thread could have made. The seat counts one call or one
/// fault, while its faults are below 2^60. It takes the hub's lock, which may wait.
pub fn make_call<L: Ledger, R: Wait>(
    rt: &R,
    hub: &SharedHub<L>,
    seat: &mut Seat<L>,
    job: Job,
) -> Done
    ensures whose { (result.session ≡ job.session) × (result.index ≡ job.index) }
    ensures ok { IfOk result.answer (λ r. IsAnswerInRun r.0 r.1 job.call) }
    ensures fault { IfErr result.answer (λ f. IsFaultInRun f job.call) }
    ensures parts { seat.new.parts ≡ seat.old.parts }
    ensures one { seat.new.refused < 2 ^ 60
        → seat.new.count + seat.new.refused ≡ seat.old.count + seat.old.refused + 1 }
    ensures before { seat.new.refused < 2 ^ 60 → seat.old.refused < 2 ^ 60 }
{
    let Job {
        session,
        index,
        call,
    } = job;
    let answer = hub.submit(rt, seat, call);
    Done {
        session,
        index,
        answer,
    }
}
