//! What the thread of a session does.
ghost use Rattle.std.specs.Prelude.{◌≡◌, []};
ghost use Rattle.session_lanes.specs.Ends.{IsServed};

use crate::ends::{Served, SessionEnd, SessionStart};
use crate::next::{SessionQueues, serve_next};
use crate::queues::{AnswerQueue, JobQueue, Opening};
use session_serving::SessionFault;
use std::alloc::Global;
use std::sync::Wait;
use taf_codes::{Sink, Source};
use tallies::Tally;

/// What the thread of a session is lent: the signal to begin, the queue of its lane, and the queue of its own answers.
#[derive(Drop)]
pub struct SessionContext<'x> {
    pub opening: &'x Opening,
    pub jobs: &'x JobQueue,
    pub answers: &'x AnswerQueue,
}

/// Serves a session once the threads begin. Where they never do, not a line is read, and the session ends with
/// [`SessionFault::Port`].
///
/// It is given the lines of its reader, puts its own jobs into the lane, in order, takes their answers from its queue, and writes
/// what it says to its writer, as [`serve_next`] does.
#[tactic(auto, using(crate::proofs::SessionLemmas::first_served))]
pub fn serve<'x, S: Source + Drop, K: Sink + Drop, R: Wait>(
    rt: &'x R,
    alloc: Global,
    context: SessionContext<'x>,
    start: SessionStart<S, K>,
) -> Served
    requires own { start.pass.inbox ≡ context.jobs.now.id }
    requires none { start.pass.put ≡ [] }
    ensures { IsServed S.remaining K.contents start.session start result }
{
    if context.opening.wait(rt) {
        let queues = SessionQueues {
            jobs: context.jobs,
            answers: context.answers,
        };
        serve_next(rt, alloc, queues, Tally::new(alloc), start)
    } else {
        end_at_once(alloc, start)
    }
}

// The end of a session that never began.
fn end_at_once<S: Source + Drop, K: Sink + Drop>(alloc: Global, start: SessionStart<S, K>) -> Served
    requires none { start.pass.put ≡ [] }
    ensures { IsServed S.remaining K.contents start.session start result }
{
    let SessionStart { pass, .. } = start;
    Served {
        end: SessionEnd::Fault(SessionFault::Port),
        tally: Tally::new(alloc),
        pass,
    }
}
