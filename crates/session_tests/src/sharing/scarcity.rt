//! Each growth refused in turn: of a call, of a noted entry, of room in a tally and of the settling.
ghost use Rattle.std.specs.Prelude.{◌≡◌};

use crate::sharing::altered::with_reply;
use crate::sharing::caller::Caller;
use crate::sharing::lines::{INTERCHANGE, call_of};
use hub_core::Hub;
use hub_shared::{Seat, Settled, SharedHub, Tally, Told, settle};
use memory_limit::MemoryLimit;
use std::alloc::Global;
use std::marker::Brand;
use std::sync::Wait;
use std::sync::ledger::{Blank, Ledger};
use std::test::Fail;
use taf_messages::{Call, Reply, copy_call};
use test_scripts::replies_of;

// How much memory is left for each step, how many calls of this run were refused it, and how many other steps of all runs.
#[derive(Drop)]
struct Scarcity {
    memory_limit: MemoryLimit,
    left: usize,
    calls: u64,
    notes: u64,
    settlings: u64,
}

// What a session leaves: the hub, which lies on the heap since what owns a hub itself takes the prover long, how many calls
// it answered, its tally, and how many faults its seat counted.
#[derive(Drop)]
struct Closed {
    hub: Box<Hub>,
    sum: u64,
    tallies: [Tally; 1],
    refused: u64,
}

impl Scarcity {
    // The answer to a call with the memory that is left. None where memory is refused.
    fn submit<L: Ledger>(
        &mut self,
        rt: &impl Wait,
        hub: &SharedHub<L>,
        seat: &mut Seat<L>,
        call: Call,
    ) -> Option<(u64, Reply)>
        ensures { seat.new.parts ≡ seat.old.parts }
    {
        if self.memory_limit.limit_to(self.left).is_err() {
            return None;
        }
        let answer = hub.submit(rt, seat, call);
        self.memory_limit.release();
        answer.ok()
    }

    // What a call is answered, which is made again where memory is refused.
    fn ask<L: Ledger>(
        &mut self,
        rt: &impl Wait,
        hub: &SharedHub<L>,
        seat: &mut Seat<L>,
        call: Call,
    ) -> Option<Told>
        ensures { seat.new.parts ≡ seat.old.parts }
    {
        let (Ok(again), Ok(noted)) = (copy_call(&call), copy_call(&call)) else {
            return None;
        };
        let (position, reply) = match self.submit(rt, hub, seat, call) {
            Some(answer) => answer,
            None => {
                self.calls = self.calls.saturating_add(1);
                hub.submit(rt, seat, again).ok()?
            }
        };
        let call = noted;
        Some(Told {
            position,
            call,
            reply,
        })
    }

    // Notes an entry, again where memory is refused.
    fn note(&mut self, tally: &mut Tally, told: Told) {
        let Ok(again) = with_reply(&told, &told.reply) else {
            return;
        };
        if self.memory_limit.limit_to(self.left).is_err() {
            return;
        }
        let noted = tally.note(told);
        self.memory_limit.release();
        if noted.is_err() {
            self.notes = self.notes.saturating_add(1);
            let _ = tally.note(again);
        }
    }

    // Makes the calls of the interchange, and notes their answers.
    fn fill<L: Ledger>(&mut self, rt: &impl Wait, hub: &SharedHub<L>, caller: &mut Caller<L>)
        ensures { caller.new.seat.parts ≡ caller.old.seat.parts }
    {
        for line in INTERCHANGE.lines() {
            if let Ok(call) = call_of(caller.alloc, line)
                && let Some(told) = self.ask(rt, hub, &mut caller.seat, call)
            {
                self.note(&mut caller.tally, told);
            }
        }
    }

    // Makes the calls of the interchange on a new hub that is shared.
    fn run<L: Ledger>(
        &mut self,
        rt: &impl Wait,
        alloc: Global,
        blank: Blank,
    ) -> Result<Closed, Fail>
        requires name { blank.name ≡ L.name }
        requires parts { (blank.parts ≡ L.parts) × (blank.parts ≡ 1) }
    {
        let (shared, seat) = SharedHub::<L>::new(alloc, blank)?;
        let mut caller = Caller::new(alloc, seat);
        self.fill(rt, &shared, &mut caller);
        let refused = caller.seat.refused();
        let seats = Vec::from_array(alloc, [caller.seat])?;
        let (hub, sum) = shared.close(seats);
        Ok(Closed {
            hub: Box::new(alloc, hub)?,
            sum,
            tallies: [caller.tally],
            refused,
        })
    }

    // Settles, again where memory is refused.
    fn settle(&mut self, alloc: Global, closed: &Closed) -> Result<Settled, Fail> {
        self.memory_limit.limit_to(self.left)?;
        let settled = settle(alloc, &closed.hub, 0, closed.tallies.as_slice());
        self.memory_limit.release();
        if let Ok(settled) = settled {
            return Ok(settled);
        }
        self.settlings = self.settlings.saturating_add(1);
        Ok(settle(alloc, &closed.hub, 0, closed.tallies.as_slice())?)
    }

    // The lines of the replies. Fails unless all calls were answered and settle, and the seat counted those refused.
    fn replies(&mut self, alloc: Global, closed: &Closed) -> Result<Vec<u8>, Fail> {
        let settled = self.settle(alloc, closed)?;
        if settled.calls != 16 || closed.sum != 16 || closed.refused != self.calls {
            return Err(Fail::new("other counts"));
        }
        Ok(replies_of(alloc, &closed.tallies[0])?)
    }

    // The same on a new hub, where so many bytes are left for each step.
    fn replies_within(
        &mut self,
        rt: &impl Wait,
        alloc: Global,
        left: usize,
    ) -> Result<Vec<u8>, Fail> {
        self.left = left;
        self.calls = 0;
        let closed = self.run::<Brand>(rt, alloc, Blank::new(1))?;
        self.replies(alloc, &closed)
    }

    // Whether so many bytes are enough. Fails unless the replies are these.
    fn is_enough(
        &mut self,
        rt: &impl Wait,
        alloc: Global,
        left: usize,
        wanted: &[u8],
    ) -> Result<bool, Fail> {
        let before = (self.notes, self.settlings);
        if self.replies_within(rt, alloc, left)?.as_slice() != wanted {
            return Err(Fail::new("other replies"));
        }
        Ok(self.calls == 0 && (self.notes, self.settlings) == before)
    }

    // How many budgets aren't enough, each of sixteen bytes more than the one before.
    fn budgets(&mut self, rt: &impl Wait, alloc: Global, wanted: &[u8]) -> Result<usize, Fail> {
        for step in 0..100_000usize {
            if self.is_enough(rt, alloc, step * 16, wanted)? {
                return Ok(step);
            }
        }
        Err(Fail::new("always refused"))
    }
}

#[test]
fn each_growth_is_refused_in_turn(rt: HostRuntime) -> Result<(), Fail> {
    let alloc = rt.alloc();
    let mut scarcity = Scarcity {
        memory_limit: MemoryLimit::new(alloc)?,
        left: 0,
        calls: 0,
        notes: 0,
        settlings: 0,
    };
    let wanted = scarcity.replies_within(&rt, alloc, 1 << 20)?;
    assert!(rt; scarcity.calls == 0 && scarcity.notes == 0 && scarcity.settlings == 0);
    assert!(rt; scarcity.budgets(&rt, alloc, &wanted)? > 20);
    assert!(rt; scarcity.notes > 0);
    assert!(rt; scarcity.settlings > 0);
    Ok(())
}

// Whether so many bytes are enough for room for sixty-four entries. Fails unless the tally is as it was where they aren't, and has
// room then with ample memory.
fn is_enough_room(
    alloc: Global,
    memory_limit: &mut MemoryLimit,
    left: usize,
) -> Result<bool, Fail> {
    let mut tally = Tally::new(alloc);
    memory_limit.limit_to(left)?;
    let is_made = tally.reserve(64).is_ok();
    memory_limit.release();
    if !tally.entries().is_empty() || tally.reserve(64).is_err() {
        return Err(Fail::new("another tally"));
    }
    Ok(is_made)
}

// How many budgets are not enough for it, each of sixteen bytes more than the one before.
fn count_rooms(alloc: Global, memory_limit: &mut MemoryLimit) -> Result<usize, Fail> {
    for step in 0..100_000usize {
        if is_enough_room(alloc, memory_limit, step * 16)? {
            return Ok(step);
        }
    }
    Err(Fail::new("always refused"))
}

#[test]
fn room_in_a_tally_is_refused_in_turn(rt: HostRuntime) -> Result<(), Fail> {
    let mut memory_limit = MemoryLimit::new(rt.alloc())?;
    assert!(rt; count_rooms(rt.alloc(), &mut memory_limit)? > 16);
    Ok(())
}
