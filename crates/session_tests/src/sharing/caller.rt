//! A session that calls the hub, with a seat and a tally.
ghost use Rattle.std.specs.Prelude.{◌≡◌};

use crate::sharing::lines::call_of;
use hub_shared::{Seat, SharedHub, Tally, Told};
use std::alloc::Global;
use std::sync::Wait;
use std::sync::ledger::Ledger;
use taf_messages::{Call, copy_call};

/// A seat, and the tally of what its calls were answered.
#[derive(Drop)]
pub(crate) struct Caller<L: Ledger> {
    pub(crate) alloc: Global,
    pub(crate) seat: Seat<L>,
    pub(crate) tally: Tally,
}

// Makes a call, and gives what it was answered. None where memory is refused.
fn ask<L: Ledger>(
    rt: &impl Wait,
    hub: &SharedHub<L>,
    seat: &mut Seat<L>,
    call: Call,
) -> Option<Told>
    ensures { seat.new.parts ≡ seat.old.parts }
{
    let Ok(again) = copy_call(&call) else {
        return None;
    };
    let Ok((position, reply)) = hub.submit(rt, seat, call) else {
        return None;
    };
    Some(Told {
        position,
        call: again,
        reply,
    })
}

impl<L: Ledger> Caller<L> {
    /// A caller that has noted nothing.
    pub(crate) fn new(alloc: Global, seat: Seat<L>) -> Caller<L>
        ensures { result.seat ≡ seat }
    {
        Caller {
            alloc,
            seat,
            tally: Tally::new(alloc),
        }
    }

    // Makes the call of a line, and notes its answer.
    fn submit(&mut self, rt: &impl Wait, hub: &SharedHub<L>, line: &str)
        ensures { self.new.seat.parts ≡ self.old.seat.parts }
    {
        let Ok(call) = call_of(self.alloc, line) else {
            return;
        };
        if let Some(told) = ask(rt, hub, &mut self.seat, call) {
            let _ = self.tally.note(told);
        }
    }

    /// Makes the calls of a session, each after the answer to the one before it.
    pub(crate) fn run(self, rt: &impl Wait, hub: &SharedHub<L>, session: &str) -> Caller<L>
        ensures { result.seat.parts ≡ self.seat.parts }
    {
        let mut caller = self;
        for line in session.lines() {
            if !line.starts_with("> ") {
                caller.submit(rt, hub, line);
            }
        }
        caller
    }
}
