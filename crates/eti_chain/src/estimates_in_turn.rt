//! The estimates of the legs, one after another.
ghost use Rattle.std.specs.Prelude.{◌≡◌, ◌+◌, ◌<◌, ◌≤◌, length, IfSome, option_map};
ghost use Rattle.taf_moment.specs.Calendar.{last_minute};
ghost use Rattle.eti_chain.specs.Estimates as of;
ghost use Rattle.eti_chain.specs.EstimateStates.{IsWithin, in_turn_from};

use crate::anchor::Anchor;
use crate::basis::EstimateBasis;
use std::marker::Model;
use taf_moment::Moment;
use trip_plan::Leg;

/// When a wagon is expected at the end of its legs, of one leg after another from a leg on. Each estimate goes on
/// from the one before, so that the minutes of a leg are added once. It borrows the legs, and takes no memory.
#[derive(Drop)]
pub struct EstimatesInTurn<'a> {
    leg_index: usize,
    legs: &'a [Leg],
    anchor: Option<Anchor>,
    // The leg whose turn it is.
    leg: usize,
    // The end of the leg before it, or of the current leg where it is not after that. None without an event to count from.
    at: Option<Moment>,
}

impl<'a> Model for EstimatesInTurn<'a> {
    ghost use Rattle.eti_chain.specs.Estimates.{basis_from};
    ghost use Rattle.eti_chain.specs.EstimateStates.{EstimatesInTurn, IsInTurn, in_turn_from};

    ghost Value = { EstimatesInTurn };

    ghost view = { λ t. in_turn_from (basis_from t.leg_index t.legs.now t.anchor) t.leg };

    ghost invariant = { λ t. IsInTurn (basis_from t.leg_index t.legs.now t.anchor) t.leg t.at };
}

impl<'a> EstimatesInTurn<'a> {
    /// The estimates that are counted from this, from a leg on that is not after the current one.
    pub(crate) fn of(basis: &'a EstimateBasis<'a>, leg: usize) -> EstimatesInTurn<'a>
        requires within { IsWithin basis.now }
        requires not_after { leg ≤ basis.now.leg_index }
        ensures { result ≡ in_turn_from basis.now leg }
    {
        let at = basis.moment(basis.leg_index);
        EstimatesInTurn {
            leg_index: basis.leg_index,
            legs: basis.legs.legs().as_slice(),
            anchor: basis.anchor,
            leg,
            at,
        }
    }

    /// When the wagon is expected at the end of the leg whose turn it is, and then it is the turn of the next one. None
    /// without an event to count from, before the current leg and past the last one.
    pub fn next_estimate(&mut self) -> Option<Moment>
        requires { self.old.leg < 8 }
        ensures value { result ≡ of.end_in self.old.estimate_basis self.old.leg }
        ensures next { self.new ≡ in_turn_from self.old.estimate_basis (self.old.leg + 1) }
    {
        let leg = self.leg;
        if leg < self.leg_index || leg >= self.legs.len() {
            self.leg += 1;
            return None;
        }
        self.at = self.end();
        self.leg += 1;
        self.at
    }

    /// When the wagon is expected at the end of the last leg, once each leg had its turn.
    pub fn eta(&self) -> Option<Moment>
        requires { self.now.leg ≡ length self.now.estimate_basis.legs }
        ensures { result ≡ of.eta_in self.now.estimate_basis }
    {
        self.at
    }

    // The end of the leg whose turn it is.
    fn end(&self) -> Option<Moment>
        requires not_behind { self.now.estimate_basis.leg_index ≤ self.now.leg }
        requires a_leg { self.now.leg < length self.now.estimate_basis.legs }
        ensures { result ≡ of.end_in self.now.estimate_basis self.now.leg }
    {
        if self.leg == self.leg_index {
            self.at
        } else {
            later(self.at, self.legs[self.leg].minutes)
        }
    }
}

// So many minutes later.
fn later(at: Option<Moment>, minutes: u32) -> Option<Moment>
    requires { IfSome at (λ m. m + minutes ≤ last_minute) }
    ensures { result ≡ option_map (λ m. m + minutes) at }
{
    Moment::from_minutes(at?.minutes() + minutes)
}
