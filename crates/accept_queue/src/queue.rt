//! The queue that the threads of a service share.
ghost use Rattle.std.specs.Prelude.{◌≡◌, ◌<◌, IfOk, IfErr};

use crate::connection::Connection;
use crate::counts::QueueCounts;
use crate::limits::Limits;
use crate::state::{QueueState, Waiting};
use std::alloc::Global;
use std::net::OpenStream;
use std::rt::Clock;
use std::sync::{Condvar, Mutex, Wait};
use std::time::{Duration, Instant};
use taf_codes::Memory;

/// The connections that wait for a handler, and a handle of each that is served, shared by the threads of a service.
#[derive(Drop)]
pub struct AcceptQueue<T> {
    limits: Limits,
    state: Mutex<QueueState<T>>,
    // A connection has come, or the queue was closed.
    arrived: Condvar,
    // A session has ended.
    ended: Condvar,
}

impl<T: OpenStream + Drop> AcceptQueue<T> {
    /// An open queue in which no connection waits. All its memory is taken here. Want of memory is the only error.
    pub fn new(alloc: Global, limits: Limits) -> Result<AcceptQueue<T>, Memory>
        ensures { IfOk result (λ queue. queue.limits ≡ limits) }
    {
        let state = QueueState::new(alloc, limits.waiting)?;
        Ok(AcceptQueue {
            limits,
            state: Mutex::new(state),
            arrived: Condvar::new(),
            ended: Condvar::new(),
        })
    }

    /// The limits that it was made with.
    pub fn limits(&self) -> Limits
        ensures { result ≡ self.now.limits }
    {
        self.limits
    }

    /// Whether connections are accepted.
    pub fn is_open<R: Wait>(&self, rt: &R) -> bool {
        self.state.lock(rt).is_open()
    }

    /// How many connections are served now, and how many wait for a handler.
    pub fn counts<R: Wait>(&self, rt: &R) -> QueueCounts {
        self.state.lock(rt).counts()
    }

    /// Accepts no connection any more. A handler that waits for one is given none; those that wait in the queue are still given out.
    pub fn close<R: Wait>(&self, rt: &R) {
        self.state.lock(rt).close();
        self.arrived.notify_all();
    }

    /// Ends the sessions that are under way: each is given what has come of its client, and then the end of it. It waits until no
    /// connection is served and none waits, for the grace at most, and then cuts off those that are left, in the middle of what they
    /// read and write. The queue has to be closed before.
    pub fn end_sessions<R: Wait + Clock>(&self, rt: &R) {
        let grace = self.limits.grace;
        let state = self.state.lock(rt);
        state.end_all();
        let (mut state, _) = self
            .ended
            .wait_timeout_while(rt, state, grace, |state| state.is_busy());
        state.cut();
    }

    /// Puts a connection that came at this moment behind those that wait. It comes back where there is no room, and once the queue is
    /// closed.
    pub(crate) fn put<R: Wait>(
        &self,
        rt: &R,
        connection: Connection<T>,
        since: Instant,
    ) -> Result<(), Connection<T>>
        ensures { IfErr result (λ back. back ≡ connection) }
    {
        let put = self.state.lock(rt).put(connection, since);
        if put.is_ok() {
            self.arrived.notify_one();
        }
        put
    }

    /// The reader and the writer of the connection that has waited longest, which this handler serves now. It waits until one comes.
    /// None comes once the queue is closed and none waits.
    pub(crate) fn next<R: Wait>(&self, rt: &R, handler: usize) -> Option<(T, T)>
        requires { handler < 64 }
    {
        let mut state = self
            .arrived
            .wait_while(rt, self.state.lock(rt), |state| state.is_idle());
        state.begin(handler)
    }

    /// The connection that has waited longest. It does not wait.
    pub(crate) fn take<R: Wait>(&self, rt: &R) -> Option<Connection<T>> {
        let Waiting { connection, .. } = self.state.lock(rt).take()?;
        Some(connection)
    }

    /// The connection that has waited longest, where that is too long at this moment.
    pub(crate) fn take_late<R: Wait>(&self, rt: &R, now: Instant) -> Option<Connection<T>> {
        let limit = self.limits.wait_before_full;
        let Waiting { connection, .. } = self.state.lock(rt).take_late(now, limit)?;
        Some(connection)
    }

    /// How long it takes until a connection has waited for too long, a millisecond at least. None where no connection waits.
    pub(crate) fn time_left<R: Wait + Clock>(&self, rt: &R) -> Option<Duration> {
        let since = self.state.lock(rt).oldest_since()?;
        let limit = self.limits.wait_before_full;
        let left = match Instant::now(rt) {
            Ok(now) => limit.saturating_sub(now.saturating_duration_since(since)),
            Err(_) => limit,
        };
        Some(left.max(Duration::from_millis(1)))
    }

    /// The session of this handler has ended, if it had one: what was kept of its connection is given back.
    pub(crate) fn end<R: Wait>(&self, rt: &R, handler: usize)
        requires { handler < 64 }
    {
        let control = self.state.lock(rt).end(handler);
        if control.is_some() {
            self.ended.notify_all();
        }
    }
}
