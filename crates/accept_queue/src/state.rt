//! What the threads of a service share: the connections that wait, and a handle of each that is served.
ghost use Rattle.std.specs.Prelude.{◌≡◌, ◌≢◌, ◌≤◌, ◌<◌, ◌↔◌, [], ◌∷◌, ◌++◌, vec_len, IsOk, IsTrue, IfOk, IfErr, IfSome, IfNone, OnOk, OnErr, is_some};
ghost use Rattle.std.specs.List.{list_any};
ghost use Rattle.std.specs.VecDeque.{deque_len, deque_capacity};
ghost use Rattle.accept_queue.specs.declared.state.Phase.TheVariants as phase_is;

use crate::connection::Connection;
use crate::counts::{QueueCounts, served_of};
use std::alloc::Global;
use std::collections::VecDeque;
use std::net::{OpenStream, Shutdown};
use std::time::{Duration, Instant};
use taf_codes::Memory;

/// How many handlers there are at most.
pub(crate) const MAX_HANDLERS: usize = 64;

/// How far a service has come.
#[derive(Clone, Copy, Debug, PartialEq, Eq, Drop)]
pub(crate) enum Phase {
    /// Connections are accepted.
    Open,

    /// None is accepted any more. Sessions go on with what has come.
    Ending,

    /// Sessions are cut off.
    Ended,
}

/// A connection that waits for a handler, and since when.
#[derive(Drop)]
pub(crate) struct Waiting<T> {
    pub(crate) connection: Connection<T>,
    pub(crate) since: Instant,
}

/// The connections that wait, oldest first, and for each handler a handle of the connection that it serves.
#[derive(Drop)]
pub(crate) struct QueueState<T> {
    waiting: VecDeque<Waiting<T>>,
    capacity: usize,
    phase: Phase,
    sessions: Vec<Option<T>>,
    ghost bounded: { deque_len waiting ≤ capacity },
    ghost reserved: { capacity ≤ deque_capacity waiting },
    ghost each_handler: { vec_len sessions ≡ 64 },
}

impl<T: OpenStream + Drop> QueueState<T> {
    ghost use Rattle.accept_queue.specs.Queues.{waiting_of, counts_of, is_busy, IsNew, HasRoom, HasWaited, Begins, HasEnded, KeepsWaiting, KeepsSessions, KeepsPhase};

    /// An open queue in which no connection waits, with room for so many. No session is under way.
    pub(crate) fn new(alloc: Global, capacity: usize) -> Result<QueueState<T>, Memory>
        ensures { IfOk result (IsNew capacity) }
    {
        let waiting = VecDeque::with_capacity(alloc, capacity)?;
        let sessions = no_sessions(alloc)?;
        Ok(QueueState {
            waiting,
            capacity,
            phase: Phase::Open,
            sessions,
        })
    }

    /// Puts a connection behind those that wait. It comes back where as many wait as there is room for, and once the queue is closed.
    pub(crate) fn put(
        &mut self,
        connection: Connection<T>,
        since: Instant,
    ) -> Result<(), Connection<T>>
        ensures room { IsOk result ↔ HasRoom self.old }
        ensures put { OnOk result (waiting_of self.new
            ≡ waiting_of self.old ++ record { connection = connection; since = since } ∷ []) }
        ensures back { IfErr result (λ back. back ≡ connection) }
        ensures unchanged { OnErr result (KeepsWaiting self.old self.new) }
        ensures sessions { KeepsSessions self.old self.new }
        ensures phase { KeepsPhase self.old self.new }
    {
        if self.phase != Phase::Open || self.waiting.len() >= self.capacity {
            return Err(connection);
        }
        self.waiting
            .push_back_reserved(Waiting { connection, since });
        Ok(())
    }

    /// Takes the connection that has waited longest. There is none where none waits.
    pub(crate) fn take(&mut self) -> Option<Waiting<T>>
        ensures oldest { IfSome result
            (λ first. waiting_of self.old ≡ first ∷ waiting_of self.new) }
        ensures none { IfNone result (waiting_of self.old ≡ []) }
        ensures unchanged { IfNone result (KeepsWaiting self.old self.new) }
        ensures sessions { KeepsSessions self.old self.new }
        ensures phase { KeepsPhase self.old self.new }
    {
        self.waiting.pop_front()
    }

    /// Takes the connection that has waited longest, where it has waited for as long as the limit.
    pub(crate) fn take_late(&mut self, now: Instant, limit: Duration) -> Option<Waiting<T>>
        ensures oldest { IfSome result
            (λ first. waiting_of self.old ≡ first ∷ waiting_of self.new) }
        ensures late { IfSome result (HasWaited limit now) }
        ensures unchanged { IfNone result (KeepsWaiting self.old self.new) }
        ensures sessions { KeepsSessions self.old self.new }
        ensures phase { KeepsPhase self.old self.new }
    {
        let oldest = self.waiting.front()?;
        if now.saturating_duration_since(oldest.since) < limit {
            return None;
        }
        self.take()
    }

    /// Begins a session of this handler, with the connection that has waited longest: its reader and its writer are given out, and its
    /// third handle is kept. There is none where none waits.
    pub(crate) fn begin(&mut self, handler: usize) -> Option<(T, T)>
        requires { handler < 64 }
        ensures begins { IfSome result (Begins handler self.old self.new) }
        ensures none { IfNone result (waiting_of self.old ≡ []) }
        ensures unchanged { IfNone result
            (KeepsWaiting self.old self.new × KeepsSessions self.old self.new) }
        ensures phase { KeepsPhase self.old self.new }
    {
        let Waiting {
            connection,
            since: _,
        } = self.take()?;
        let Connection {
            reader,
            writer,
            control,
        } = connection;
        end_by(self.phase, &control);
        self.sessions[handler] = Some(control);
        Some((reader, writer))
    }

    /// Ends the session of this handler, if it has one. The handle that was kept comes back.
    pub(crate) fn end(&mut self, handler: usize) -> Option<T>
        requires { handler < 64 }
        ensures ended { HasEnded handler self.old self.new }
        ensures waiting { KeepsWaiting self.old self.new }
        ensures phase { KeepsPhase self.old self.new }
    {
        self.sessions[handler].take()
    }

    /// Takes no connection any more.
    pub(crate) fn close(&mut self)
        ensures closed { self.new.phase ≢ phase_is.Open }
        ensures waiting { KeepsWaiting self.old self.new }
        ensures sessions { KeepsSessions self.old self.new }
    {
        if self.phase == Phase::Open {
            self.phase = Phase::Ending;
        }
    }

    /// Takes no connection any more, and cuts off the sessions that are under way, and those that begin from now on.
    pub(crate) fn cut(&mut self)
        ensures ended { self.new.phase ≡ phase_is.Ended }
        ensures waiting { KeepsWaiting self.old self.new }
        ensures sessions { KeepsSessions self.old self.new }
    {
        self.phase = Phase::Ended;
        self.end_all();
    }

    /// Has each session that is under way end as the phase says.
    pub(crate) fn end_all(&self) {
        for session in &self.sessions {
            if let Some(control) = session {
                end_by(self.phase, control);
            }
        }
    }

    /// Whether connections are taken.
    pub(crate) fn is_open(&self) -> bool
        ensures { IsTrue result ↔ (self.now.phase ≡ phase_is.Open) }
    {
        self.phase == Phase::Open
    }

    /// Whether a handler has to wait for a connection.
    pub(crate) fn is_idle(&self) -> bool
        ensures { IsTrue result ↔ ((self.now.phase ≡ phase_is.Open) × (waiting_of self.now ≡ [])) }
    {
        self.is_open() && self.waiting.is_empty()
    }

    /// How many connections are served, and how many wait.
    pub(crate) fn counts(&self) -> QueueCounts
        ensures { result ≡ counts_of self.now }
    {
        QueueCounts {
            sessions: served_of(self.sessions.as_slice()),
            waiting: self.waiting.len(),
        }
    }

    /// Whether a connection waits or is served.
    pub(crate) fn is_busy(&self) -> bool
        ensures { result ≡ is_busy self.now }
    {
        !self.waiting.is_empty() || is_any_served(self.sessions.as_slice())
    }

    /// Since when the connection waits that has waited longest.
    pub(crate) fn oldest_since(&self) -> Option<Instant> {
        let oldest = self.waiting.front()?;
        Some(oldest.since)
    }
}

// Ends what a session reads, once the service ends: it is given what has come, and then the end. Once the service has ended, nothing is
// read or written any more.
fn end_by<T: OpenStream>(phase: Phase, control: &T) {
    match phase {
        Phase::Open => {}
        Phase::Ending => {
            let _ = control.shutdown(Shutdown::Read);
        }
        Phase::Ended => {
            let _ = control.shutdown(Shutdown::Both);
        }
    }
}

// Whether some handler serves a connection.
fn is_any_served<T>(sessions: &[Option<T>]) -> bool
    ensures { result ≡ list_any (λ session. is_some session) sessions.now }
{
    sessions.iter().any(|session| session.is_some())
}

// No session of any handler.
fn no_sessions<T: Drop>(alloc: Global) -> Result<Vec<Option<T>>, Memory>
    ensures { IfOk result (λ v. vec_len v ≡ 64) }
{
    let mut sessions = Vec::with_capacity(alloc, MAX_HANDLERS)?;
    for _handler in 0..MAX_HANDLERS {
        if sessions.push(None).is_err() {
            return Err(Memory);
        }
    }
    Ok(sessions)
}
