//! What the threads promise: what each began with.
ghost use Rattle.session_lanes.specs.Work.{IsWorkOf};
ghost use Rattle.hub_threads.specs.Served.{IsServiceOf};

use crate::kind::Serve;
use session_lanes::{Served, SessionStart, Work};
use std::marker::PhantomData;
use std::snapshot::Snapshot;
use std::thread::Promise;

// What a thread began with that serves sessions, as threads of the kind `H` do.
#[derive(Drop)]
pub(crate) struct ServedBy<H, S, K> {
    pub start: Snapshot<SessionStart<S, K>>,
    pub of: PhantomData<H>,
}

impl<H: Serve<S, K>, S, K> Promise<Served> for ServedBy<H, S, K> {
    ghost kept_by = { λ p r. IsServiceOf H.has_served p.start.value r };
}

// What the thread of a worker began with, which was lent a `C`.
#[derive(Drop)]
pub(crate) struct WorkedBy<W, C> {
    pub began: Snapshot<W>,
    pub of: PhantomData<C>,
}

impl<W: Work<C>, C> Promise<W> for WorkedBy<W, C> {
    ghost kept_by = { λ p w. IsWorkOf W.pass W.has_worked p.began.value w };
}
