//! What the threads of a shift do that serve.
ghost use Rattle.std.specs.Prelude.{◌≡◌, []};
ghost use Rattle.std.specs.List.{All};
ghost use Rattle.inbox.specs.declared.rule.Job.{Job};
ghost use Rattle.session_lanes.specs.Ends.{IsServed};

use hub_threads::Serve;
use session_lanes::{Served, SessionContext, SessionStart, serve};
use std::alloc::Global;
use std::sync::Wait;
use taf_codes::{Sink, Source};

// The threads that serve one session each.
pub(crate) struct OneSession;

impl<S: Source + Drop, K: Sink + Drop> Serve<S, K> for OneSession {
    ghost has_served = { λ start s. IsServed S.remaining K.contents start.session start s };

    fn serve<'x, R: Wait>(
        &self,
        rt: &'x R,
        alloc: Global,
        context: SessionContext<'x>,
        start: SessionStart<S, K>,
    ) -> Served
        requires own { start.pass.inbox ≡ context.jobs.now.id }
        requires none { start.pass.put ≡ [] }
        ensures own_jobs { All (λ (j : Job). j.session ≡ start.session) result.pass.put }
        ensures put_only { result.pass ≡ record start.pass { put = result.pass.put } }
        ensures served { IsServed S.remaining K.contents start.session start result }
    {
        serve(rt, alloc, context, start)
    }
}
