ghost use Rattle.std.specs.Prelude.{◌≡◌, ◌<◌, ◌↔◌, [], ◌∷◌, ◌++◌, length, true, IsTrue, None, OnOk, OnErr};
ghost use Rattle.journey.specs.Checks.{refusal};
ghost use Rattle.eti_chain.specs.Estimates as of;

use crate::anchor::{Anchor, anchor_in, delay_in, go_on};
use crate::basis::EstimateBasis;
use crate::estimates::Estimates;
use crate::held_legs::HeldLegs;
use journey::{Event, Legs, Track};
use std::marker::Model;
use taf_codes::Memory;
use taf_moment::Moment;

/// What is kept for the estimates of a journey: its newest anchor with the delays since, and the moment that was
/// promised to the customer. Only [`EstimateAnchor::add`] takes memory.
#[derive(Debug, Drop)]
pub struct EstimateAnchor {
    newest: Option<Anchor>,
    commit: Moment,
}

impl Model for EstimateAnchor {
    ghost use Rattle.std.specs.Prelude.{◌≤◌, Some};
    ghost use Rattle.taf_moment.specs.Calendar.{last_minute};
    ghost use Rattle.eti_chain.specs.Estimates.{delays_of};
    ghost use Rattle.eti_chain.specs.EstimateStates.{EstimateAnchor, anchor_with_commitment};

    ghost Value = { EstimateAnchor };

    ghost view = { λ a. anchor_with_commitment a.newest (Some a.commit) };

    ghost invariant = { λ a. delays_of a.newest ≤ last_minute };
}

impl EstimateAnchor {
    ghost use Rattle.eti_chain.specs.EstimateStates.{estimate_anchor, estimates_state, state_with_commitment};

    /// What is kept for a track, of which no estimate passes the calendar. It walks the events.
    pub fn of(track: &Track) -> EstimateAnchor
        requires { of.fits track.now.events ≡ true }
        ensures { result ≡ estimate_anchor track.now.events }
    {
        EstimateAnchor {
            newest: EstimateBasis::of(track).anchor,
            commit: track.plan().commit(),
        }
    }

    /// The same.
    pub fn copy(&self) -> EstimateAnchor
        ensures { result ≡ self.now }
    {
        EstimateAnchor {
            newest: self.newest,
            commit: self.commit,
        }
    }

    /// Whether this is the same as what is kept of another journey.
    pub fn is_same(&self, other: &EstimateAnchor) -> bool
        ensures { IsTrue result ↔ (self.now ≡ other.now) }
    {
        self.newest == other.newest && self.commit == other.commit
    }

    /// The estimates of the track that this is kept for. It takes no walk.
    pub fn estimates<'a>(&self, track: &'a Track) -> Estimates<'a>
        requires of_track { self.now ≡ estimate_anchor track.now.events }
        requires fits { of.fits track.now.events ≡ true }
        ensures { result ≡ estimates_state track.now.events }
    {
        let state = track.journey_state();
        self.estimates_by(state.leg_index, &state.legs)
    }

    /// The estimates of a wagon that is on this leg, of these legs, with this anchor. It takes no walk.
    pub fn estimates_by<'a>(&self, leg_index: usize, legs: &'a Legs) -> Estimates<'a>
        requires on_a_leg { leg_index < length legs.now }
        requires fits { of.fits_in (of.basis_from leg_index legs.now self.now.newest) ≡ true }
        ensures { result ≡ state_with_commitment (of.basis_from leg_index legs.now self.now.newest)
            self.now.commit }
    {
        let basis = EstimateBasis::by(leg_index, HeldLegs::Lent(legs), self.newest);
        Estimates::by(basis, self.commit)
    }

    /// Adds an event to the track that this is kept for, and goes on with it. The event may come next, and no estimate
    /// passes the calendar with it. Where memory is refused, both are as they were.
    pub fn add(&mut self, track: &mut Track, event: Event) -> Result<(), Memory>
        requires of_track { self.old ≡ estimate_anchor track.old.events }
        requires admitted { refusal track.old.events event.by event.body ≡ None }
        requires fits { of.fits (track.old.events ++ event ∷ []) ≡ true }
        ensures track { OnOk result (track.new
            ≡ record track.old { events = track.old.events ++ event ∷ [] }) }
        ensures kept { OnOk result (self.new ≡ estimate_anchor (track.old.events ++ event ∷ [])) }
        ensures same_track { OnErr result (track.new ≡ track.old) }
        ensures same { OnErr result (self.new ≡ self.old) }
    {
        let (new, delay) = (anchor_in(&event), delay_in(&event.body));
        track.add(event)?;
        go_on(&mut self.newest, new, delay);
        Ok(())
    }
}
