//! Places of clients, and for how many of them an answer waits.
ghost use Rattle.std.specs.Prelude.{◌≡◌, ◌+◌, ◌≤◌, if◌then◌else◌, get_or, slice_set, Some, None, IfNone, IfSome};
ghost use Rattle.board_connections.specs.Waiting.{has_answer, waiting_count};

use crate::client::Client;
use crate::limits::Limits;
use std::time::Instant;

/// For how many clients an answer waits.
pub(crate) fn answers_waiting(places: &[Option<Client>]) -> usize
    ensures { result ≡ waiting_count places.now }
{
    let mut count = 0;
    for place in places {
        count += waiting_in(place);
    }
    count
}

// One where there is a client for whom an answer waits, and else none.
fn waiting_in(place: &Option<Client>) -> usize
    ensures { result ≡ (if has_answer place.now then 1 else 0) }
{
    match place {
        Some(client) if client.has_answer => 1,
        _ => 0,
    }
}

/// Takes the client out of the place.
pub(crate) fn take(places: &mut [Option<Client>], place: usize) -> Option<Client>
    ensures none { IfNone result (waiting_count places.new ≤ waiting_count places.old) }
    ensures some { IfSome result (λ client. waiting_count places.new
        + (if client.has_answer then 1 else 0) ≡ waiting_count places.old) }
{
    take_at(places, place)
}

/// Gives the place to the client. Who had it is no longer connected.
pub(crate) fn put(places: &mut [Option<Client>], place: usize, client: Client)
    ensures { waiting_count places.new ≤ waiting_count places.old + (if client.has_answer then 1 else 0) }
{
    put_at(places, place, client);
}

/// Closes the connections whose time is up.
pub(crate) fn close_late(places: &mut [Option<Client>], limits: &Limits, now: Instant)
    ensures { waiting_count places.new ≤ waiting_count places.old }
{
    for place in places.iter_mut() {
        if is_late(place, limits, now) {
            drop(place.take());
        }
    }
}

// Whether there is a client whose time is up.
fn is_late(place: &Option<Client>, limits: &Limits, now: Instant) -> bool {
    matches!(place, Some(client) if client.is_late(limits, now))
}

/// The place of the client that has been silent for longest; the first, where there is none.
pub(crate) fn longest_silent(places: &[Option<Client>]) -> usize {
    let mut longest = 0;
    let mut moved = None;
    for (place, client) in places.iter().enumerate() {
        if let Some(client) = client
            && moved.is_none_or(|before| client.moved() < before)
        {
            longest = place;
            moved = Some(client.moved());
        }
    }
    longest
}

// Takes the value out of the place. Where there is no such place there is none.
#[tactic(auto, using(std::proofs::lemmas::List::set_past, std::proofs::lemmas::List::get_or_past))]
fn take_at<T>(places: &mut [Option<T>], place: usize) -> Option<T>
    ensures value { result ≡ get_or places.old place None }
    ensures after { places.new ≡ slice_set places.old place None }
{
    if place < places.len() {
        places[place].take()
    } else {
        None
    }
}

// Gives the place to the value, and drops what had it. Where there is no such place the value is dropped.
#[tactic(auto, using(std::proofs::lemmas::List::set_past))]
fn put_at<T: Drop>(places: &mut [Option<T>], place: usize, value: T)
    ensures { places.new ≡ slice_set places.old place (Some value) }
{
    if place < places.len() {
        places[place] = Some(value);
    }
}
