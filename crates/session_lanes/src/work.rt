//! What the thread of a worker has and does, for any kind of worker.
ghost use Rattle.std.specs.Prelude.{◌≡◌};
ghost use Rattle.inbox.specs.States.{PassState};
ghost use Rattle.session_lanes.specs.Lanes.{TakesOnly};

use crate::queues::{AnswerQueue, JobQueue};
use std::sync::Wait;

/// A worker, which is lent what it shares with others, a `C`.
pub trait Work<C> {
    /// Its pass of the lane.
    ghost pass: { Self → PassState };

    /// What it may begin with.
    ghost can_begin: { Self → Type 0 };

    /// What it may become.
    ghost has_worked: { Self → Self → Type 0 };

    /// Takes jobs of the lane and answers their sessions, until the queue was ended and is found empty, or until it can answer
    /// no more. It puts no job. The answer to a job is put into the queue at its session's place in `answers`.
    fn work<R: Wait>(self, rt: &R, context: &C, jobs: &JobQueue, answers: &[AnswerQueue]) -> Self
        requires begins { can_begin self }
        requires own { (pass self).inbox ≡ jobs.now.id }
        ensures takes_only { TakesOnly (pass self) (pass result) }
        ensures worked { has_worked self result };
}
