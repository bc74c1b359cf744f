//! Two threads, each with a session of its own.
ghost use Rattle.std.specs.Prelude.{◌≡◌, ◌≤◌, length};

use crate::sharing::altered::tally_of;
use crate::sharing::caller::Caller;
use crate::sharing::lines::{FIRST, SECOND, wanted_replies};
use hub_core::Hub;
use hub_shared::{SettleFault, Settled, SharedHub, Tally, Told, settle, split_seat};
use std::alloc::Global;
use std::marker::Brand;
use std::sync::Wait;
use std::sync::ledger::{Blank, Ledger};
use std::test::Fail;
use std::thread;
use std::thread::Threads;
use taf_codes::Memory;
use test_scripts::replies_of;

// What two sessions leave: the hub, which lies on the heap since what owns a hub itself takes the prover long, how many calls
// it answered, and what each session was told.
#[derive(Drop)]
struct Closed {
    hub: Box<Hub>,
    sum: u64,
    first: Tally,
    second: Tally,
}

// Runs two sessions in two threads.
fn run_two<L: Ledger + Send + Sync, R: Threads + Wait + Sync>(
    rt: &R,
    alloc: Global,
    blank: Blank,
) -> Result<Closed, Memory>
    requires name { blank.name ≡ L.name }
    requires parts { (blank.parts ≡ L.parts) × (blank.parts ≡ 2) }
{
    let (shared, mut seat) = SharedHub::<L>::new(alloc, blank)?;
    let second = Caller::new(alloc, split_seat(&mut seat));
    let first = Caller::new(alloc, seat);
    let hub = &shared;
    let (first, second) = thread::join(
        rt,
        move || -> Caller<L>
            ensures { result.seat.parts ≡ first.seat.parts }
        { first.run(rt, hub, FIRST) },
        move || -> Caller<L>
            ensures { result.seat.parts ≡ second.seat.parts }
        { second.run(rt, hub, SECOND) },
    );
    let seats = Vec::from_array(alloc, [first.seat, second.seat]).map_err(|_| Memory)?;
    let (hub, sum) = shared.close(seats);
    Ok(Closed {
        hub: Box::new(alloc, hub)?,
        sum,
        first: first.tally,
        second: second.tally,
    })
}

// Whether the session was told the replies that it is to get.
fn is_told(alloc: Global, tally: &Tally, session: &str) -> Result<bool, Fail> {
    let replies = replies_of(alloc, tally)?;
    Ok(replies == wanted_replies(alloc, session)?)
}

// The entries of both tallies. Those of the session that has position 0 come first.
fn entries_of<'a>(
    alloc: Global,
    first: &'a Tally,
    second: &'a Tally,
) -> Result<Vec<&'a Told>, Memory> {
    let (first, second) = (first.entries(), second.entries());
    let begins = first.len() > 0 && first[0].position == 0;
    let (first, second) = if begins {
        (first, second)
    } else {
        (second, first)
    };
    let mut entries = Vec::new(alloc);
    for told in first.iter().chain(second) {
        let Ok(()) = entries.push(told) else {
            return Err(Memory);
        };
    }
    Ok(entries)
}

const FOREIGN: SettleFault = SettleFault::Foreign {
    session: 0,
    index: 2,
};

const LEFT_OUT: SettleFault = SettleFault::CountDiffers {
    history: 10,
    told: 9,
};

const ONE_LEFT_OUT_SINCE: SettleFault = SettleFault::CountDiffers {
    history: 9,
    told: 8,
};

const FIRST_OF_ALL: SettleFault = SettleFault::Earlier {
    session: 0,
    index: 0,
};

const EXCHANGED: SettleFault = SettleFault::OutOfOrder {
    session: 0,
    index: 1,
};

// What settling two tallies of these entries comes to, by their letters, where the history had so many entries before. The entry
// `a` has position 0.
static CASES: [(usize, &str, &str, Result<Settled, SettleFault>); 9] = [
    (0, "abcde", "fghij", Ok(Settled { calls: 10 })),
    (0, "abCde", "fghij", Err(FOREIGN)),
    (0, "abcde", "fghi", Err(LEFT_OUT)),
    (0, "bacde", "fghij", Err(EXCHANGED)),
    (0, "abcde", "aghij", Err(SettleFault::Twice { at: 0 })),
    (1, "bcde", "fghij", Ok(Settled { calls: 9 })),
    (1, "abcd", "fghij", Err(FIRST_OF_ALL)),
    (1, "bcd", "fghij", Err(ONE_LEFT_OUT_SINCE)),
    (10, "", "", Ok(Settled { calls: 0 })),
];

// What settling two tallies of these entries comes to.
fn settled(
    alloc: Global,
    hub: &Hub,
    earlier: usize,
    entries: &[&Told],
    letters: (&str, &str),
) -> Result<Result<Settled, SettleFault>, Memory>
    requires { earlier ≤ length hub.now }
{
    let first = tally_of(alloc, entries, letters.0)?;
    let second = tally_of(alloc, entries, letters.1)?;
    Ok(settle(alloc, hub, earlier, [first, second].as_slice()))
}

// Fails unless each case comes to what it is to.
fn check_cases(alloc: Global, hub: &Hub, entries: &[&Told]) -> Result<(), Fail> {
    for (earlier, first, second, wanted) in &CASES {
        let earlier = *earlier;
        if hub.len() < earlier {
            return Err(Fail::new("too short a history"));
        }
        if settled(alloc, hub, earlier, entries, (*first, *second))? != *wanted {
            return Err(Fail::new(*first));
        }
    }
    Ok(())
}

// Fails unless ten calls were made, each session was told its replies, and each case comes to what it is to.
fn check(alloc: Global, closed: &Closed) -> Result<(), Fail> {
    if closed.sum != 10 {
        return Err(Fail::new("another number of calls"));
    }
    if !is_told(alloc, &closed.first, FIRST)? || !is_told(alloc, &closed.second, SECOND)? {
        return Err(Fail::new("other replies"));
    }
    let entries = entries_of(alloc, &closed.first, &closed.second)?;
    check_cases(alloc, &closed.hub, entries.as_slice())
}

#[test]
fn two_threads_settle(rt: HostRuntime) -> Result<(), Fail> {
    let closed = run_two::<Brand, _>(&rt, rt.alloc(), Blank::new(2))?;
    check(rt.alloc(), &closed)
}
