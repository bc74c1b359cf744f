//! The value behind the hub's lock.
ghost use Rattle.std.specs.Prelude.{◌≡◌, ◌+◌, length, sum_by, IfOk, IfErr, OnOk, OnErr, Err};
ghost use Rattle.hub_core.specs.Faults.{IsFault};
ghost use Rattle.hub_model.specs.Histories.{IsLegal};
ghost use Rattle.hub_shared.specs.Seats.{IsRun, IsAnswer, with_call, after_answer, after_fault};

use crate::seat::{MAX_REFUSED, Seat};
use hub_core::{Hub, HubFault};
use std::marker::Model;
use std::sync::ledger::{Book, Ledger, Share};
use taf_messages::{Call, Reply};

/// The value behind the lock: a hub, and a book whose number is the length of its history.
///
/// Contracts see it as the history and the book's number. What every holder of the lock finds is the contract of
/// [`Booked::lock_invariant`]: it holds of each such value, so nothing that one call learnt is needed at the next.
#[derive(Drop)]
pub struct Booked<L: Ledger> {
    pub(crate) hub: Hub,
    pub(crate) book: Book<L>,
    // A share of the book with no part. The shares of all seats are put to it at the end.
    pub(crate) no_part: Share<L>,
}

impl<L: Ledger> Model for Booked<L> {
    ghost use Rattle.std.specs.Prelude.{◌≡◌, length};
    ghost use Rattle.hub_shared.specs.Seats.{BookedState};

    ghost Value = { BookedState };

    ghost view = { λ b. record { history = b.hub; book = b.book.total } };

    ghost invariant = { λ b.
        (b.book.total ≡ length b.hub) × (b.no_part.parts ≡ 0) × (b.no_part.amount ≡ 0) };
}

impl<L: Ledger> Booked<L> {
    /// The hub. By the contracts of [`Hub`], each of its look-ups is the model's after this history.
    pub fn hub(&self) -> &Hub
        ensures { result.now ≡ self.now.history }
    {
        &self.hub
    }

    /// What holds whenever the lock is free: the stored replies are those that one thread gets for the stored calls, and
    /// the book is the length of the history. It does nothing.
    pub fn lock_invariant(&self)
        ensures legal { IsLegal self.now.history }
        ensures run { IsRun self.now.history }
        ensures counted { self.now.book ≡ length self.now.history }
    {
        self.hub.history_is_legal();
    }

    /// The hub, and the sum of the counts of all seats, which is the length of its history.
    pub(crate) fn end(self, seats: Vec<Seat<L>>) -> (Hub, u64)
        requires { sum_by (λ s. s.parts) seats.items ≡ L.parts }
        ensures hub { result.0 ≡ self.history }
        ensures run { IsRun result.0 }
        ensures length { result.1 ≡ length result.0 }
        ensures sum { result.1 ≡ sum_by (λ s. s.count) seats.items }
    {
        let Booked {
            hub,
            mut book,
            no_part,
        } = self;
        let mut all = merge_shares(no_part, seats);
        book.audit(&mut all);
        hub.history_is_legal();
        let sum = hub.len() as u64;
        (hub, sum)
    }
}

/// Makes one call on the value that it is lent, and gives the call's position in the history and its reply. It waits for
/// nobody.
///
/// Where the call is answered, the history, the book and the seat's count have one more. Where it meets a fault of
/// [`Hub::apply`], the seat's number of faults alone grows, up to 2^60.
pub fn serve_one<L: Ledger>(
    booked: &mut Booked<L>,
    seat: &mut Seat<L>,
    call: Call,
) -> Result<(u64, Reply), HubFault>
    // What every holder of the lock finds.
    ensures run { IsRun booked.old.history }
    ensures counted { booked.old.book ≡ length booked.old.history }
    // What the call makes of it.
    ensures reply { IfOk result (λ r. IsAnswer r.0 r.1 booked.old.history call) }
    ensures booked { OnOk result (booked.new ≡ with_call booked.old call) }
    ensures seat { OnOk result (seat.new ≡ after_answer seat.old) }
    ensures fault { IfErr result (λ f. IsFault f call (length booked.old.history)) }
    ensures full { length booked.old.history ≡ 1000000 → result ≡ Err (HubFault.Full call) }
    ensures unchanged { OnErr result (booked.new ≡ booked.old) }
    ensures refused { OnErr result (seat.new ≡ after_fault seat.old) }
{
    booked.hub.history_is_legal();
    booked.book.audit(&mut seat.share);
    match booked.hub.apply(call) {
        Ok(answer) => {
            booked.book.add(&mut seat.share, 1);
            seat.count += 1;
            Ok(answer)
        }
        Err(fault) => {
            seat.refused = (seat.refused + 1).min(MAX_REFUSED);
            Err(fault)
        }
    }
}

// The share with those of all seats put to it.
fn merge_shares<L: Ledger>(share: Share<L>, seats: Vec<Seat<L>>) -> Share<L>
    ensures parts { result.parts ≡ share.parts + sum_by (λ s. s.parts) seats.items }
    ensures amount { result.amount ≡ share.amount + sum_by (λ s. s.count) seats.items }
{
    let mut all = share;
    for seat in seats {
        let Seat { share, .. } = seat;
        all.merge(share);
    }
    all
}
