//! What the threads of connection handlers do.
ghost use Rattle.std.specs.Prelude.{◌≡◌, []};
ghost use Rattle.std.specs.List.{All};
ghost use Rattle.inbox.specs.declared.rule.Job.{Job};
ghost use Rattle.connection_handlers.specs.Handlers.{IsServedHandler, goes_on};

use connections::Connections;
use hub_threads::Serve;
use inbox::Pass;
use session_lanes::{Served, SessionContext, SessionEnd, SessionQueues, SessionStart, serve_next};
use session_serving::SessionFault;
use std::alloc::Global;
use std::sync::Wait;
use tallies::Tally;

/// The threads that serve one connection after another.
///
/// In the place of a reader each begins with what brings its connections, and in the place of a writer with nothing.
pub struct ConnectionHandlers;

impl<A: Connections + Drop> Serve<A, ()> for ConnectionHandlers {
    ghost has_served = { λ start s. IsServedHandler start s };

    /// Serves the sessions of the connections that come to a handler, one after another, once the threads begin, until no more come.
    /// Where the threads never begin it serves none.
    ///
    /// Each session is given the lines of its reader, puts its own jobs into the lane, in order, takes their answers from the handler's
    /// queue, and writes what it says to its writer. A session that breaks off, by a fault of its reader or writer, ends alone: the next
    /// is served. A handler serves no more after a session that ended by an answer that was a stranger's, or since its queue was ended:
    /// answers to earlier jobs might still come. What it gives back is the end of its last session, what all of them were told, one
    /// after another, and its pass.
    #[tactic(auto, using(crate::proofs::HandlerLemmas::no_session))]
    fn serve<'x, R: Wait>(
        &self,
        rt: &'x R,
        alloc: Global,
        context: SessionContext<'x>,
        start: SessionStart<A, ()>,
    ) -> Served
        requires own { start.pass.inbox ≡ context.jobs.now.id }
        requires none { start.pass.put ≡ [] }
        ensures own_jobs { All (λ (j : Job). j.session ≡ start.session) result.pass.put }
        ensures put_only { result.pass ≡ record start.pass { put = result.pass.put } }
        ensures served { IsServedHandler start result }
    {
        let SessionContext {
            opening,
            jobs,
            answers,
        } = context;
        let SessionStart {
            session,
            reader,
            pass,
            ..
        } = start;
        let mut connections = reader;
        let mut last = none_served(alloc, pass);
        if !opening.wait(rt) {
            return last;
        }
        for _ in rt.forever() {
            let Some((reader, writer)) = connections.next() else {
                break;
            };
            let Served { tally, pass, .. } = last;
            let next = SessionStart {
                session,
                reader,
                writer,
                pass,
            };
            last = serve_next(rt, alloc, SessionQueues { jobs, answers }, tally, next);
            if !goes_on(last.end) {
                break;
            }
        }
        last
    }
}

// What a handler gives back that served no session.
fn none_served(alloc: Global, pass: Pass) -> Served
    ensures { (result.tally.entries ≡ []) × (result.pass ≡ pass) }
{
    Served {
        end: SessionEnd::Fault(SessionFault::Port),
        tally: Tally::new(alloc),
        pass,
    }
}

// Whether a handler takes another connection after a session that ended so. Each job of that one has its answer then, unless a
// stranger's came behind a fault of its reader or writer. No worker of the hub gives such an answer.
fn goes_on(end: SessionEnd) -> bool
    ensures { result ≡ goes_on end }
{
    match end {
        SessionEnd::Stranger => false,
        SessionEnd::Fault(SessionFault::Port) => false,
        SessionEnd::Complete => true,
        SessionEnd::Fault(_) => true,
    }
}
