//! The listener of the board, and the thread that serves its clients.
ghost use Rattle.board_connections.specs.Answers.{AnswersInTurn};

use crate::accept_error::{AfterError, after_accept_error};
use crate::client::Client;
use crate::clients::Clients;
use crate::end::ServingEnd;
use crate::limited::LimitedService;
use crate::limits::Limits;
use http_server::{Config, Connection, Service};
use mio::net::{TcpListener, TcpStream};
use mio::{Events, Interest, Poll, Registry, Token, Waker};
use std::alloc::{AllocGlobal, Global};
use std::hash::RandomState;
use std::io;
use std::net::{Ipv4Addr, Net, SocketAddr};
use std::random::RandomSource;
use std::sync::Wait;
use std::time::{Clock, Duration, Instant};

const LISTENER: Token = Token(64);

const WAKER: Token = Token(65);

// One of each client, of the listener and of the waker.
const EVENTS: usize = 66;

// How many connections are accepted before the clients have their turn.
const ACCEPTS: usize = 64;

// How many milliseconds at most pass until the clock is looked at, and between two tries where files are wanting.
const LOOK_MILLIS: u64 = 1000;

// How many bytes a body may have. The board uses none.
const BODY_LEN: usize = 4096;

/// A listener on a port of this machine, and the clients that are connected to it.
#[derive(Drop)]
pub struct BoardListener {
    alloc: Global,
    keys: RandomState,
    poll: Poll,
    listener: TcpListener,
    clients: Clients,
    // When files were wanting to accept the next connection.
    wanting_since: Option<Instant>,
}

impl BoardListener {
    /// Listens on this port of 127.0.0.1 alone; 0 has the system choose one. All memory but that of the connections is taken here.
    pub fn bind<H: Net + RandomSource + AllocGlobal>(
        rt: &H,
        port: u16,
        limits: Limits,
    ) -> io::Result<(BoardListener, ServingEnd)> {
        let alloc = rt.alloc();
        let keys = RandomState::new(rt)?;
        let clients = Clients::new(alloc, limits)?;
        let poll = Poll::new(rt)?;
        let (listener, waker) = listen(rt, poll.registry(), port)?;
        let bound = BoardListener {
            alloc,
            keys,
            poll,
            listener,
            clients,
            wanting_since: None,
        };
        Ok((bound, ServingEnd::new(waker)))
    }

    /// Where it listens.
    pub fn local_addr(&self) -> io::Result<SocketAddr> {
        self.listener.local_addr()
    }

    /// Serves clients until it is told to end; then nobody is connected any more, and nobody can connect.
    ///
    /// An error of the listener, of the wait for sockets or of the clock ends it too. One of a connection ends this connection alone.
    pub fn serve<R: Wait + Clock, S: Service>(
        self,
        rt: &R,
        service: &mut LimitedService<S>,
        end: &ServingEnd,
    ) -> io::Result<()>
        ensures { AnswersInTurn S.answers service.old.service service.new.service }
    {
        let mut bound = self;
        let mut events = Events::with_capacity(bound.alloc, EVENTS)?;
        bound.serve_until_end(rt, service, end, &mut events)
    }

    // Serves clients until it is told to end, or the listener, the wait for sockets or the clock fails.
    fn serve_until_end<R: Wait + Clock, S: Service>(
        &mut self,
        rt: &R,
        service: &mut LimitedService<S>,
        end: &ServingEnd,
        events: &mut Events,
    ) -> io::Result<()>
        ensures { AnswersInTurn S.answers service.old.service service.new.service }
    {
        for _ in rt.forever() {
            let wait = Duration::from_millis(LOOK_MILLIS);
            self.poll.poll(events, Some(wait))?;
            if end.is_told() {
                return Ok(());
            }
            let now = Instant::now(rt)?;
            self.handle(events, service, now)?;
            self.accept_again(now)?;
            self.clients.close_late(now);
        }
        unreachable!()
    }

    // Goes on with those of whom the events tell.
    fn handle<S: Service>(
        &mut self,
        events: &Events,
        service: &mut LimitedService<S>,
        now: Instant,
    ) -> io::Result<()>
        ensures { AnswersInTurn S.answers service.old.service service.new.service }
    {
        for event in events.iter() {
            self.handle_event(event.token(), service, now)?;
        }
        Ok(())
    }

    // Accepts clients, or goes on with the one in this place.
    fn handle_event<S: Service>(
        &mut self,
        token: Token,
        service: &mut LimitedService<S>,
        now: Instant,
    ) -> io::Result<()>
        ensures { AnswersInTurn S.answers service.old.service service.new.service }
    {
        if token == LISTENER {
            return self.accept(now);
        }
        let registry = self.poll.registry();
        self.clients.go_on(registry, token.0, service, now);
        Ok(())
    }

    // Accepts the connections that wait, as many as one turn allows.
    fn accept(&mut self, now: Instant) -> io::Result<()> {
        for _ in 0..ACCEPTS {
            let error = match self.listener.accept() {
                Ok((stream, _)) => {
                    self.admit(stream, now);
                    continue;
                }
                Err(error) => error,
            };
            match after_accept_error(&error) {
                AfterError::Wait => return Ok(()),
                AfterError::Next => {}
                AfterError::Later => {
                    self.wanting_since = Some(now);
                    return Ok(());
                }
                AfterError::End => return Err(error),
            }
        }
        // The socket is reported once more.
        self.poll
            .registry()
            .reregister(&mut self.listener, LISTENER, Interest::READABLE)
    }

    // Tries again where files were wanting a while ago.
    fn accept_again(&mut self, now: Instant) -> io::Result<()> {
        let pause = Duration::from_millis(LOOK_MILLIS);
        match self.wanting_since {
            Some(since) if now.saturating_duration_since(since) >= pause => {
                self.wanting_since = None;
                self.accept(now)
            }
            _ => Ok(()),
        }
    }

    // Gives the new client a place, under which its socket is reported. Where it can't be, it is not connected any more.
    fn admit(&mut self, stream: TcpStream, now: Instant) {
        let mut stream = stream;
        let _ = stream.set_nodelay(true);
        let place = self.clients.place_for_new();
        let both = Interest::READABLE | Interest::WRITABLE;
        let registered = self
            .poll
            .registry()
            .register(&mut stream, Token(place), both);
        if registered.is_ok() {
            let connection = Connection::new(self.alloc, self.keys, config());
            self.clients
                .put_new(place, Client::new(stream, connection, now));
        }
    }
}

// Listens on this port of 127.0.0.1. The registry has the listener, and what wakes the thread.
fn listen<H: Net>(rt: &H, registry: &Registry, port: u16) -> io::Result<(TcpListener, Waker)> {
    let mut listener = TcpListener::bind(rt, SocketAddr::from((Ipv4Addr::LOCALHOST, port)))?;
    registry.register(&mut listener, LISTENER, Interest::READABLE)?;
    let waker = Waker::new(registry, WAKER)?;
    Ok((listener, waker))
}

// The limits of a connection: those of `http_server`, and short bodies.
fn config() -> Config {
    Config {
        max_body_len: BODY_LEN,
        ..Config::default()
    }
}
