//! What estimates are counted from.
ghost use Rattle.std.specs.Prelude.{◌≡◌, ◌+◌, ◌*◌, ◌<◌, ◌≤◌, ◌^◌, length, IfSome};
ghost use Rattle.std.specs.List.{sum_by};
ghost use Rattle.eti_chain.specs.Estimates as of;
ghost use Rattle.eti_chain.specs.EstimateStates as states;
ghost use Rattle.eti_chain.specs.HeldLegs.{legs_in};

use crate::anchor::{Anchor, anchor_after};
use crate::held_legs::HeldLegs;
use journey::{Event, Track};
use std::marker::Model;
use taf_moment::Moment;
use trip_plan::Leg;

// 2199-12-31T23:59Z, in minutes since 1970.
const LAST_MINUTE: u128 = 120_968_639;

/// The legs of a wagon with the current one, and the newest anchor.
#[derive(Drop)]
pub(crate) struct EstimateBasis<'a> {
    pub(crate) leg_index: usize,
    pub(crate) legs: HeldLegs<'a>,
    pub(crate) anchor: Option<Anchor>,
}

impl<'a> Model for EstimateBasis<'a> {
    ghost use Rattle.eti_chain.specs.Estimates.{EstimateBasis, basis_from};
    ghost use Rattle.eti_chain.specs.EstimateStates.{IsSummable};
    ghost use Rattle.eti_chain.specs.HeldLegs.{legs_in};

    ghost Value = { EstimateBasis };

    ghost view = { λ b. basis_from b.leg_index (legs_in b.legs) b.anchor };

    ghost invariant = { λ b. IsSummable (basis_from b.leg_index (legs_in b.legs) b.anchor) };
}

impl<'a> EstimateBasis<'a> {
    /// What the estimates of a track are counted from. It walks the events.
    pub(crate) fn of(track: &'a Track) -> EstimateBasis<'a>
        ensures value { result ≡ of.estimate_basis track.now.events }
        ensures on_a_leg { result.leg_index < length result.legs }
    {
        let state = track.journey_state();
        EstimateBasis::by(
            state.leg_index,
            HeldLegs::Lent(&state.legs),
            newest_anchor(track.events()),
        )
    }

    /// The same by the leg that the wagon is on, its legs and its newest anchor.
    pub(crate) fn by(
        leg_index: usize,
        legs: HeldLegs<'a>,
        anchor: Option<Anchor>,
    ) -> EstimateBasis<'a>
        requires on_a_leg { leg_index < length (legs_in legs) }
        requires small { of.delays_of anchor < 2 ^ 127 }
        ensures { result ≡ of.basis_from leg_index (legs_in legs.entry) anchor }
    {
        EstimateBasis {
            leg_index,
            legs,
            anchor,
        }
    }

    /// The end of a leg, in minutes since 1970.
    #[tactic(auto, using(std::proofs::lemmas::Option::gets))]
    pub(crate) fn end_of(&self, leg: usize) -> Option<u128>
        ensures { result ≡ of.end_in self.now leg }
    {
        let legs = self.legs.legs().as_slice();
        if leg < self.leg_index || leg >= legs.len() {
            return None;
        }
        let anchor = self.anchor?;
        let current = if anchor.runs_leg {
            u64::from(legs[self.leg_index].minutes)
        } else {
            0
        };
        let later = minutes_of(&legs[self.leg_index + 1..leg + 1]);
        Some(u128::from(u64::from(anchor.at.minutes()) + current + later) + anchor.delays)
    }

    /// Whether no estimate passes the last minute of the calendar.
    #[tactic(auto, using(crate::proofs::CalendarLemmas::fits_by_eta))]
    pub(crate) fn fits(&self) -> bool
        ensures { result ≡ of.fits_in self.now }
    {
        match self.end_of(self.legs.legs().as_slice().len() - 1) {
            Some(at) => at <= LAST_MINUTE,
            None => true,
        }
    }

    /// When the wagon is expected at the end of a leg.
    #[tactic(auto, using(crate::proofs::CalendarLemmas::end_fits))]
    pub(crate) fn moment(&self, leg: usize) -> Option<Moment>
        requires { states.IsWithin self.now }
        ensures { result ≡ of.end_in self.now leg }
    {
        let at = self.end_of(leg)?;
        Moment::from_minutes(at as u32)
    }

    /// When the wagon is expected at the end of the last leg.
    pub(crate) fn last_moment(&self) -> Option<Moment>
        requires { states.IsWithin self.now }
        ensures { result ≡ of.eta_in self.now }
    {
        self.moment(self.legs.legs().as_slice().len() - 1)
    }
}

// The newest anchor of a journey, with the delays since. At most 2^64 events delay the wagon by at
// most 100,000 minutes each.
#[tactic(auto, using(crate::proofs::EstimateLemmas::anchor_more))]
fn newest_anchor(events: &[Event]) -> Option<Anchor>
    ensures value { result ≡ of.anchor events.now }
    ensures small { of.delays_of result < 2 ^ 127 }
{
    let mut found = None;
    for event in events {
        found = anchor_after(found, event);
    }
    found
}

// The minutes of at most eight legs: below 2^35, since each takes less than 2^32.
fn minutes_of(legs: &[Leg]) -> u64
    requires { length legs.now ≤ 8 }
    ensures value { result ≡ sum_by (λ l. l.minutes) legs.now }
    ensures small { result < 2 ^ 36 }
{
    let mut sum: u64 = 0;
    for leg in legs {
        sum += u64::from(leg.minutes);
    }
    sum
}
