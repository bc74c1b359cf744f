//! The hub that threads share.
ghost use Rattle.std.specs.Prelude.{◌≡◌, ◌<◌, length, sum_by, IfOk, IfErr, OnOk, OnErr};
ghost use Rattle.hub_shared.specs.Seats.{IsRun, IsAnswerInRun, IsFaultInRun, new_seat, after_answer, after_fault};
ghost use Rattle.hub_shared.specs.Looks.{AreCounts, AreRefusals, IsFleetLook, IsWagonLook};

use crate::booked::{Booked, serve_one};
use crate::looks::{HubCounts, WagonLook, counts_of, look_at_fleet, look_at_wagon};
use crate::refusals::look_at_refusals;
use crate::seat::Seat;
use hub_answers::ShownWagon;
use hub_core::{Hub, HubFault};
use seeded_state::SeededState;
use std::alloc::Global;
use std::sync::ledger::{Blank, Ledger};
use std::sync::{Mutex, Wait};
use taf_codes::{Memory, Railway};
use taf_messages::{Call, Reply, Why};
use wagon_number::WagonNumber;

/// A hub that threads share, one call at a time.
#[derive(Drop)]
pub struct SharedHub<L: Ledger> {
    booked: Mutex<Booked<L>>,
}

impl<L: Ledger> SharedHub<L> {
    /// A hub that has taken no call, whose tables hash from the fixed seed, and the first seat, with all parts of the blank. Want of
    /// memory is the only error.
    pub fn new(alloc: Global, blank: Blank) -> Result<(SharedHub<L>, Seat<L>), Memory>
        requires name { blank.name ≡ L.name }
        requires parts { (blank.parts ≡ L.parts) × (0 < blank.parts) }
        ensures { IfOk result (λ made. made.1 ≡ new_seat L.parts) }
    {
        SharedHub::with_hasher(alloc, SeededState::fixed(), blank)
    }

    /// A hub that has taken no call, whose tables hash so, and the first seat, with all parts of the blank. Want of memory is the
    /// only error.
    pub fn with_hasher(
        alloc: Global,
        hasher: SeededState,
        blank: Blank,
    ) -> Result<(SharedHub<L>, Seat<L>), Memory>
        requires name { blank.name ≡ L.name }
        requires parts { (blank.parts ≡ L.parts) × (0 < blank.parts) }
        ensures { IfOk result (λ made. made.1 ≡ new_seat L.parts) }
    {
        let hub = Hub::with_hasher(alloc, hasher)?;
        let (book, mut share) = blank.open::<L>();
        let no_part = share.empty();
        let seat = Seat {
            share,
            count: 0,
            refused: 0,
        };
        let booked = Mutex::new(Booked { hub, book, no_part });
        Ok((SharedHub { booked }, seat))
    }

    /// Takes the lock, which may wait, and makes one call by [`serve_one`]: after some history that one thread could have
    /// made.
    pub fn submit(
        &self,
        rt: &impl Wait,
        seat: &mut Seat<L>,
        call: Call,
    ) -> Result<(u64, Reply), HubFault>
        ensures ok { IfOk result (λ r. IsAnswerInRun r.0 r.1 call) }
        ensures seat { OnOk result (seat.new ≡ after_answer seat.old) }
        ensures err { IfErr result (λ f. IsFaultInRun f call) }
        ensures refused { OnErr result (seat.new ≡ after_fault seat.old) }
    {
        serve_one(&mut *self.booked.lock(rt), seat, call)
    }

    /// Takes the lock, which may wait, and gives how many calls the hub has taken then, and how many wagons were planned.
    pub fn counts(&self, rt: &impl Wait) -> HubCounts
        ensures { AreCounts result }
    {
        counts_of(self.booked.lock(rt).hub())
    }

    /// Takes the lock, which may wait, and gives what the railway may see of at most so many planned wagons, from this place of
    /// their order on. No call is made. Want of memory is the only error.
    pub fn look_at_fleet(
        &self,
        rt: &impl Wait,
        by: Railway,
        from: usize,
        most: usize,
    ) -> Result<Vec<ShownWagon>, Memory>
        ensures { IfOk result (λ seen. IsFleetLook by from most seen.items) }
    {
        look_at_fleet(self.booked.lock(rt).hub(), by, from, most)
    }

    /// Takes the lock, which may wait, and gives what the railway is told and shown of the wagon then. No call is made. Want of
    /// memory is the only error.
    pub fn look_at_wagon(
        &self,
        rt: &impl Wait,
        by: Railway,
        wagon: WagonNumber,
    ) -> Result<WagonLook, Memory>
        ensures { IfOk result (IsWagonLook by wagon) }
    {
        look_at_wagon(self.booked.lock(rt).hub(), by, wagon)
    }

    /// Takes the lock, which may wait, and gives why calls were refused, those that were, of at most so many calls of the history, from
    /// this position on. No call is made. Want of memory is the only error.
    pub fn look_at_refusals(
        &self,
        rt: &impl Wait,
        alloc: Global,
        from: usize,
        most: usize,
    ) -> Result<Vec<Why>, Memory>
        ensures { IfOk result (λ whys. AreRefusals from most whys.items) }
    {
        look_at_refusals(alloc, self.booked.lock(rt).hub(), from, most)
    }

    /// The hub, and the sum of the counts of all seats, which is the length of its history. The seats have to have all
    /// parts together.
    pub fn close(self, seats: Vec<Seat<L>>) -> (Hub, u64)
        requires { sum_by (λ s. s.parts) seats.items ≡ L.parts }
        ensures run { IsRun result.0 }
        ensures length { result.1 ≡ length result.0 }
        ensures sum { result.1 ≡ sum_by (λ s. s.count) seats.items }
    {
        let SharedHub { booked } = self;
        booked.into_inner().end(seats)
    }
}
