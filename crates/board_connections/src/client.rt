//! One client that is connected.
ghost use Rattle.std.specs.Prelude.{◌≡◌, ◌⊎◌, true, false};
ghost use Rattle.http_server.specs.Connection.{history};
ghost use Rattle.http_server.specs.Exchange.{Calls};
ghost use Rattle.board_connections.specs.LimitedService.{AnswersLimited};

use crate::limited::LimitedService;
use crate::limits::Limits;
use http_server::{Connection, Service};
use mio::net::TcpStream;
use std::io;
use std::io::{ErrorKind, Read};
use std::net::Shutdown;
use std::time::Instant;

// How often a client's bytes are moved before the others have their turn.
const TURNS: usize = 16;

/// A connection and its socket.
#[derive(Drop)]
pub(crate) struct Client {
    pub(crate) stream: TcpStream,
    connection: Connection,
    // When it was accepted, and when bytes were moved last.
    accepted: Instant,
    moved: Instant,
    // When the first bytes came of a request that has not come whole.
    request_since: Option<Instant>,
    // Whether bytes of an answer of the service may wait.
    pub(crate) has_answer: bool,
    // Whether it was told that nothing more is sent.
    is_closing: bool,
}

/// What a client waits for.
#[derive(Clone, Copy, Debug, PartialEq, Eq)]
pub(crate) enum Waiting {
    /// Its socket.
    Socket,
    /// Its next turn.
    Turn,
    /// Nothing: it is to be closed.
    Nothing,
}

impl Client {
    ghost use Rattle.board_connections.specs.Client.{IsMoved};

    pub(crate) fn new(stream: TcpStream, connection: Connection, now: Instant) -> Client
        ensures { result.has_answer ≡ false }
    {
        Client {
            stream,
            connection,
            accepted: now,
            moved: now,
            request_since: None,
            has_answer: false,
            is_closing: false,
        }
    }

    /// Moves bytes and has requests answered, until the socket would block or the turn ends.
    pub(crate) fn go_on<S: Service>(
        &mut self,
        service: &mut LimitedService<S>,
        now: Instant,
    ) -> Waiting
        ensures calls { Calls (AnswersLimited S.answers) service.old service.new
            (history self.old.connection).calls (history self.new.connection).calls }
        ensures answer { self.new.has_answer ≡ self.old.has_answer }
    {
        for _ in 0..TURNS {
            self.connection.advance(service);
            if let Some(waiting) = self.wait_after_move(now) {
                return waiting;
            }
        }
        Waiting::Turn
    }

    // Moves bytes once. What the client waits for, where that is not its turn.
    fn wait_after_move(&mut self, now: Instant) -> Option<Waiting>
        ensures { IsMoved self.old self.new }
    {
        let moved = if self.connection.is_done() {
            self.close()
        } else if self.connection.wants_write() {
            self.write(now)
        } else {
            self.read(now)
        };
        match moved {
            Ok(true) => None,
            Ok(false) => Some(Waiting::Nothing),
            Err(error) => wait_after_error(error.kind()),
        }
    }

    // Writes once. Whether the client takes anything.
    fn write(&mut self, now: Instant) -> io::Result<bool>
        ensures { IsMoved self.old self.new }
    {
        self.request_since = None;
        let count = self.connection.write_to(&mut self.stream)?;
        self.moved = now;
        Ok(count > 0)
    }

    // Reads once. The end of the input is for the connection to judge.
    fn read(&mut self, now: Instant) -> io::Result<bool>
        ensures { IsMoved self.old self.new }
    {
        let count = self.connection.read_from(&mut self.stream)?;
        if count > 0 {
            self.moved = now;
            self.request_since = self.request_since.or(Some(now));
        }
        Ok(true)
    }

    // Says that nothing more is sent, and drops what still comes, so that the client gets what was sent. Whether more may come.
    fn close(&mut self) -> io::Result<bool>
        ensures { IsMoved self.old self.new }
    {
        if !self.is_closing {
            self.is_closing = true;
            self.stream.shutdown(Shutdown::Write)?;
        }
        let mut dropped = [0; 4096];
        let count = self.stream.read(&mut dropped)?;
        Ok(count > 0)
    }

    /// Says whether the service was asked in the last turn, so that an answer of it waits where anything does.
    pub(crate) fn note_answer(&mut self, was_asked: bool)
        ensures { self.new.has_answer ≡ true
            → (self.old.has_answer ≡ true) ⊎ (was_asked ≡ true) }
    {
        self.has_answer = self.connection.wants_write() && (self.has_answer || was_asked);
    }

    /// When bytes were moved last.
    pub(crate) fn moved(&self) -> Instant {
        self.moved
    }

    /// Whether its time is up: it was silent for too long, its request takes too long to come, or it is too old and no answer is going
    /// out.
    pub(crate) fn is_late(&self, limits: &Limits, now: Instant) -> bool {
        let is_silent = now.saturating_duration_since(self.moved) >= limits.silence;
        let is_slow = self.request_since.is_some_and(|since| now.saturating_duration_since(since)
            >= limits.request);
        let is_old = now.saturating_duration_since(self.accepted) >= limits.age;
        is_silent || is_slow || is_old && !self.connection.wants_write()
    }
}

// What a client waits for after an error of its socket, where that is not its turn.
fn wait_after_error(kind: ErrorKind) -> Option<Waiting> {
    match kind {
        ErrorKind::WouldBlock => Some(Waiting::Socket),
        ErrorKind::Interrupted => None,
        _ => Some(Waiting::Nothing),
    }
}
