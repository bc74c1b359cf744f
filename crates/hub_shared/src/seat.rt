//! The right of one thread to call the hub.
ghost use Rattle.std.specs.Prelude.{◌≡◌, ◌-◌, ◌^◌, ◌≤◌};
ghost use Rattle.hub_shared.specs.Seats.{new_seat};

use std::marker::Model;
use std::sync::ledger::{Ledger, Share};

// Where the number of a seat's faults stays.
pub(crate) const MAX_REFUSED: u64 = 1 << 60;

/// The right of one thread to call the hub. It counts the calls that were answered, and those that met a fault.
///
/// Contracts see it as its parts of the ledger `L` and its two counts.
#[derive(Drop)]
pub struct Seat<L: Ledger> {
    pub(crate) share: Share<L>,
    pub(crate) count: u64,
    pub(crate) refused: u64,
}

impl<L: Ledger> Model for Seat<L> {
    ghost use Rattle.std.specs.Prelude.{◌≡◌, ◌^◌, ◌≤◌, ◌<◌};
    ghost use Rattle.hub_shared.specs.Seats.{SeatState};

    ghost Value = { SeatState };

    ghost view = { λ s. record { parts = s.share.parts; count = s.count; refused = s.refused } };

    ghost invariant = { λ s. (s.share.amount ≡ s.count) × (0 < s.share.parts)
        × (s.refused ≤ 2 ^ 60) };
}

impl<L: Ledger> Seat<L> {
    /// How many of its calls were answered.
    pub fn count(&self) -> u64
        ensures { result ≡ self.now.count }
    {
        self.count
    }

    /// How many of its calls met a fault: at most 2^60, where the number stays.
    pub fn refused(&self) -> u64
        ensures value { result ≡ self.now.refused }
        ensures limit { result ≤ 2 ^ 60 }
    {
        self.refused
    }
}

/// A seat of its own, with one part of the other, which has to have two at least. It has made no call.
pub fn split_seat<L: Ledger>(seat: &mut Seat<L>) -> Seat<L>
    requires { 2 ≤ seat.old.parts }
    ensures new { result ≡ new_seat 1 }
    ensures old { seat.new ≡ record seat.old { parts = seat.old.parts - 1 } }
{
    Seat {
        share: seat.share.split_off(1, 0),
        count: 0,
        refused: 0,
    }
}
