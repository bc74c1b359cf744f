//! One session more on a lane, behind those that were served before it.
ghost use Rattle.std.specs.Prelude.{◌≡◌};
ghost use Rattle.session_lanes.specs.Ends.{HasEndedBehind, IsServedNext, streams_of};

use crate::ends::{Served, SessionEnd, SessionStart, session_end};
use crate::port::{Begun, LanePort};
use crate::queues::{AnswerQueue, JobQueue};
use session_lines::Session;
use session_serving::{Port, serve_session};
use std::alloc::Global;
use std::marker::Brand;
use std::sync::Wait;
use taf_codes::{Sink, Source};
use tallies::Tally;

/// What a session is lent: the queue of its lane, and the queue of its answers.
#[derive(Clone, Copy)]
pub struct SessionQueues<'x> {
    pub jobs: &'x JobQueue,
    pub answers: &'x AnswerQueue,
}

/// Serves one session more, by the pass that the sessions before it put by and with the tally of what they were told.
///
/// It is given the lines of its reader, puts its own jobs into the lane, in order, takes their answers from the queue, and writes
/// what it says to its writer, as [`serve_session`] does. What it is told stands in the tally behind what was there.
///
/// Each job of the sessions before it has to have its answer: one that came now would be taken for a stranger's.
pub fn serve_next<'x, S: Source + Drop, K: Sink + Drop, R: Wait>(
    rt: &'x R,
    alloc: Global,
    queues: SessionQueues<'x>,
    tally: Tally,
    start: SessionStart<S, K>,
) -> Served
    requires own { start.pass.inbox ≡ queues.jobs.now.id }
    ensures { IsServedNext S.remaining K.contents start tally.entries result }
{
    serve_begun::<Brand, S, K, R>(rt, alloc, queues, tally, start)
}

// Serves a session by a port that knows the pass that it began with.
fn serve_begun<'x, B: Begun, S: Source + Drop, K: Sink + Drop, R: Wait>(
    rt: &'x R,
    alloc: Global,
    queues: SessionQueues<'x>,
    tally: Tally,
    start: SessionStart<S, K>,
) -> Served
    requires own { start.pass.inbox ≡ queues.jobs.now.id }
    requires began { start.pass ≡ B.began }
    ensures { IsServedNext S.remaining K.contents start tally.entries result }
{
    let SessionStart {
        session,
        reader,
        writer,
        pass,
    } = start;
    let port: LanePort<'x, B, R> = LanePort::new(rt, session, queues.jobs, pass, queues.answers);
    let (end, tally, port) = serve_by(alloc, session, tally, (reader, writer), port);
    Served {
        end,
        tally,
        pass: port.into_pass(),
    }
}

// A session from its first byte to its end, which notes what it is told behind what the tally has.
fn serve_by<S: Source + Drop, K: Sink + Drop, P: Port>(
    alloc: Global,
    number: u32,
    tally: Tally,
    ends: (S, K),
    port: P,
) -> (SessionEnd, Tally, P)
    requires mine { P.session port ≡ number }
    ensures ended { HasEndedBehind number (streams_of (S.remaining ends.0) (K.contents ends.1))
        result.0 tally.entries (P.sent port) result.1.entries (P.sent result.2) }
    ensures port { P.session result.2 ≡ number }
{
    let (mut reader, mut writer) = ends;
    let mut port = port;
    let mut session = Session::with_tally(alloc, number, tally);
    let served = serve_session(alloc, &mut reader, &mut writer, &mut port, &mut session);
    let end = session_end(served, session.has_failed());
    (end, session.on_end(), port)
}
