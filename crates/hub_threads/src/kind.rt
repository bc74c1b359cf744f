//! What threads do that serve sessions, of whatever kind they are.
ghost use Rattle.std.specs.Prelude.{◌≡◌, []};
ghost use Rattle.std.specs.List.{All};
ghost use Rattle.inbox.specs.declared.rule.Job.{Job};
ghost use Rattle.session_lanes.specs.declared.ends.SessionStart.{SessionStart};
ghost use Rattle.session_lanes.specs.declared.ends.Served.{Served};

use session_lanes::{JobQueue, Served, SessionContext, SessionStart};
use std::alloc::Global;
use std::sync::Wait;

/// A kind of threads that serve sessions on lanes. Each begins with a number, an `S`, a `K` and a pass of its lane.
pub trait Serve<S, K> {
    /// What a thread gives back that began so.
    ghost has_served: { SessionStart S K → Served → Type 0 };

    /// Serves once the threads begin. By its pass it puts jobs of its own number alone, and takes none.
    fn serve<'x, R: Wait>(
        &self,
        rt: &'x R,
        alloc: Global,
        context: SessionContext<'x>,
        start: SessionStart<S, K>,
    ) -> Served
        requires own { start.pass.inbox ≡ context.jobs.now.id }
        requires none { start.pass.put ≡ [] }
        ensures own_jobs { All (λ (j : Job). j.session ≡ start.session) result.pass.put }
        ensures put_only { result.pass ≡ record start.pass { put = result.pass.put } }
        ensures served { has_served start result };
}

/// What goes on beside the threads that serve and the workers: in the calling thread, and in one more where it is wanted.
pub trait Keeper {
    /// What the calling thread does once all threads are there. When it returns, they are joined.
    fn keep(&self);

    /// Whether a thread of its own is wanted.
    fn has_thread(&self) -> bool;

    /// What that thread does until it is told to end. It is lent the queue of the first worker, to which it may give signals.
    fn run(&self, first: &JobQueue);

    /// Has [`Keeper::run`] return. It may be told before that begins.
    fn end(&self);
}
