ghost use Rattle.std.specs.Prelude.{◌≡◌, ℕ, ◌+◌, ◌<◌, ◌≤◌, ◌++◌, length, take, slice_get};
ghost use Rattle.journey.specs.Legs.{with_leg_minutes};

use std::marker::Model;
use trip_plan::Leg;

// The most legs that a wagon has.
const MAX_LEGS: usize = 8;

// Room for the legs of a wagon, copied at once.
#[derive(Clone, Copy, Debug)]
struct Row {
    items: [Leg; MAX_LEGS],
}

/// The legs of a wagon in their order: 1 to 8, kept in place.
#[derive(Debug, Drop)]
pub struct Legs {
    // Those from the count on stand for nothing.
    row: Row,
    count: usize,
}

impl Model for Legs {
    ghost use Rattle.std.specs.Prelude.{List, ◌<◌, ◌≤◌, take};
    ghost use Rattle.trip_plan.specs.declared.parts.Leg.{Leg};

    ghost Value = { List Leg };

    ghost view = { λ a. take a.count a.row.items };

    ghost invariant = { λ a. (0 < a.count) × (a.count ≤ 8) };
}

impl Legs {
    /// These legs.
    pub(crate) fn of(legs: &[Leg]) -> Legs
        requires some { 0 < length legs.now }
        requires few { length legs.now ≤ 8 }
        ensures { result ≡ legs.now }
    {
        let mut row = Row {
            items: [legs[0]; MAX_LEGS],
        };
        put_behind(&mut row.items, 0, legs);
        Legs {
            row,
            count: legs.len(),
        }
    }

    /// The legs in their order.
    pub fn as_slice(&self) -> &[Leg]
        ensures value { result.now ≡ self.now }
        ensures some { 0 < length result.now }
        ensures few { length result.now ≤ 8 }
    {
        &self.row.items[..self.count]
    }

    /// The leg at this place, from 0 on.
    pub fn leg(&self, i: usize) -> Option<Leg>
        ensures { result ≡ slice_get self.now i }
    {
        self.as_slice().get(i).copied()
    }

    /// The same legs.
    pub fn copy(&self) -> Legs
        ensures { result ≡ self.now }
    {
        Legs {
            row: self.row,
            count: self.count,
        }
    }

    /// Gives this leg, if there is such a leg, these minutes.
    pub(crate) fn time(&mut self, leg: usize, minutes: u32)
        ensures { self.new ≡ with_leg_minutes self.old leg minutes }
    {
        if leg < self.count {
            self.row.items[leg].minutes = minutes;
        }
    }

    /// Goes on behind the current leg by those of a route.
    pub(crate) fn reroute(&mut self, current: usize, route: &[Leg])
        requires on_a_leg { current < length self.old }
        requires few { current + 1 + length route.now ≤ 8 }
        ensures { self.new ≡ take (current + 1) self.old ++ route.now }
    {
        let behind = current + 1;
        put_behind(&mut self.row.items, behind, route);
        self.count = behind + route.len();
    }
}

// Puts legs behind the first so many.
fn put_behind(items: &mut [Leg], behind: usize, legs: &[Leg])
    requires { behind + length legs.now ≤ length items.old }
    ensures { take (behind + length legs.now) items.new ≡ take behind items.old ++ legs.now }
{
    for (i, leg) in legs.iter().enumerate() {
        items[behind + i] = *leg;
    }
}
