//! The clients that are connected, each in its place.
ghost use Rattle.std.specs.Prelude.{◌≡◌, ◌≤◌, false};
ghost use Rattle.board_connections.specs.Answers.{AnswersInTurn};
ghost use Rattle.board_connections.specs.Waiting.{waiting_count};

use crate::client::{Client, Waiting};
use crate::limited::LimitedService;
use crate::limits::Limits;
use crate::places::{answers_waiting, close_late, longest_silent, put, take};
use http_server::Service;
use mio::{Interest, Registry, Token};
use std::alloc::{AllocError, Global};
use std::time::Instant;

/// As many places as clients may be connected, each with the client that has it. Of no more clients than the limits say an answer waits.
#[derive(Drop)]
pub(crate) struct Clients {
    limits: Limits,
    places: Vec<Option<Client>>,
    ghost few_wait: { waiting_count places.items ≤ limits.waiting_answers },
}

impl Clients {
    /// All places are free.
    pub(crate) fn new(alloc: Global, limits: Limits) -> Result<Clients, AllocError> {
        let mut places = Vec::with_capacity(alloc, limits.clients)?;
        for _ in 0..limits.clients {
            places.push(None)?;
        }
        Ok(Clients { limits, places })
    }

    /// A free place, or else that of the client that has been silent for longest.
    pub(crate) fn place_for_new(&self) -> usize {
        let free = self.places.iter().position(|place| place.is_none());
        free.unwrap_or(longest_silent(&self.places))
    }

    /// Gives the place to a client for whom nothing waits. Who had it is no longer connected.
    pub(crate) fn put_new(&mut self, place: usize, client: Client)
        requires { client.has_answer ≡ false }
    {
        put(&mut self.places, place, client);
    }

    /// Goes on with the client in this place, if there is one. While too many others have an answer waiting, its requests are refused.
    pub(crate) fn go_on<S: Service>(
        &mut self,
        registry: &Registry,
        place: usize,
        service: &mut LimitedService<S>,
        now: Instant,
    )
        ensures { AnswersInTurn S.answers service.old.service service.new.service }
    {
        let Some(mut client) = take(&mut self.places, place) else {
            return;
        };
        let may_answer = answers_waiting(&self.places) < self.limits.waiting_answers;
        service.set_may_answer(may_answer);
        let waiting = client.go_on(service, now);
        client.note_answer(may_answer);
        if is_kept(registry, place, &mut client, waiting) {
            put(&mut self.places, place, client);
        } else {
            drop(client);
        }
    }

    /// Closes the connections whose time is up.
    pub(crate) fn close_late(&mut self, now: Instant) {
        close_late(&mut self.places, &self.limits, now);
    }
}

// Whether the client stays connected. For its next turn its socket is reported once more, since it is otherwise reported at changes alone.
fn is_kept(registry: &Registry, place: usize, client: &mut Client, waiting: Waiting) -> bool
    ensures { client.new.has_answer ≡ client.old.has_answer }
{
    match waiting {
        Waiting::Socket => true,
        Waiting::Turn => {
            let both = Interest::READABLE | Interest::WRITABLE;
            registry
                .reregister(&mut client.stream, Token(place), both)
                .is_ok()
        }
        Waiting::Nothing => false,
    }
}
