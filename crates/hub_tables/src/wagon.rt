ghost use Rattle.std.specs.Prelude.{◌≡◌, ◌<◌, List, [], ◌∷◌, ◌++◌, length, true, None, IfOk, OnOk, OnErr};
ghost use Rattle.journey.specs.Stages.{is_plan};
ghost use Rattle.journey.specs.Checks.{refusal};
ghost use Rattle.journey.specs.Legs.{legs};
ghost use Rattle.journey.specs.JourneyStates.{earlier_state};
ghost use Rattle.journey.specs.TrackStates.{without_newest};
ghost use Rattle.eti_chain.specs.Estimates.{basis_from, fits, fits_in};
ghost use Rattle.journey.specs.declared.event.Event.{Event};
ghost use Rattle.eti_chain.specs.EstimateStates.{estimate_anchor, estimates_state};
ghost use Rattle.hub_model.specs.Units.{is_on_plan};
ghost use Rattle.hub_tables.specs.Acceptance.{IsStateBefore};

use eti_chain::{EstimateAnchor, Estimates};
use journey::{EarlierState, Event, Legs, Track};
use std::alloc::Global;
use std::marker::Model;
use taf_codes::Memory;
use trip_plan::Plan;
use wagon_number::WagonNumber;

/// A wagon with its journey, of which no estimate passes the calendar.
#[derive(Drop)]
pub struct Wagon {
    track: Track,
    // What is kept for the estimates of the track.
    kept: EstimateAnchor,
}

impl Model for Wagon {
    ghost use Rattle.journey.specs.Journey.{Journey};

    ghost Value = { Journey };

    ghost use Rattle.std.specs.Prelude.{◌≡◌, true};
    ghost use Rattle.eti_chain.specs.EstimateStates.{estimate_anchor};
    ghost use Rattle.eti_chain.specs.Estimates.{fits};

    ghost view = { λ w. w.track };

    ghost invariant = { λ w.
        (w.kept ≡ estimate_anchor w.track.events) × (fits w.track.events ≡ true) };
}

impl Wagon {
    /// A journey that begins with this plan.
    pub(crate) fn open(alloc: Global, wagon: WagonNumber, plan: Event) -> Result<Wagon, Memory>
        requires plan { is_plan plan.body ≡ true }
        requires fits { fits (plan ∷ []) ≡ true }
        ensures { IfOk result (λ w. w ≡ record { wagon = wagon; events = plan ∷ [] }) }
    {
        let track = Track::open(alloc, wagon, plan)?;
        let kept = EstimateAnchor::of(&track);
        Ok(Wagon { track, kept })
    }

    /// The journey.
    pub fn track(&self) -> &Track
        ensures { result.now ≡ self.now }
    {
        &self.track
    }

    /// When the wagon is expected.
    pub fn estimates(&self) -> Estimates<'_>
        ensures { result ≡ estimates_state self.now.events }
    {
        self.kept.estimates(&self.track)
    }

    /// Whether the journey begins with this plan; a consignment has one accepted plan.
    pub fn is_on(&self, plan: &Plan) -> bool
        ensures { result ≡ is_on_plan self.now.events plan.now }
    {
        self.track.plan().consignment() == plan.consignment()
    }

    /// Goes on with the journey by an event that it admits. Where memory is refused, all is as it was.
    pub(crate) fn add(&mut self, event: Event) -> Result<(), Memory>
        requires admitted { refusal self.old.events event.by event.body ≡ None }
        requires fits { fits (self.old.events ++ event ∷ []) ≡ true }
        ensures ok { OnOk result (self.new
            ≡ record self.old { events = self.old.events ++ event ∷ [] }) }
        ensures err { OnErr result (self.new ≡ self.old) }
    {
        self.kept.add(&mut self.track, event)
    }

    /// What is kept beside the events from before this one, which may come next. It takes memory where the event changes the legs.
    pub(crate) fn state_before(&self, event: &Event) -> Result<WagonState, Memory>
        ensures { IfOk result (IsStateBefore (self.now.events ++ event.now ∷ [])) }
    {
        Ok(WagonState {
            earlier: self.track.state_before(event)?,
            kept: self.kept.copy(),
        })
    }

    /// The newest event, before which this was kept beside the events, leaves the estimates as they were: they are counted from
    /// the same leg, legs and anchor.
    pub fn keeps_estimates(&self, before: &WagonState) -> bool
        requires { IsStateBefore self.now.events before.now }
        ensures { result ≡ true → estimates_state self.now.events
            ≡ estimates_state (without_newest self.now.events) }
    {
        before.earlier.legs.is_none()
            && before.earlier.leg_index == self.track.leg_index()
            && before.kept.is_same(&self.kept)
    }

    /// Takes the newest event back, before which this was kept beside the events. It takes no memory.
    pub(crate) fn take_back(&mut self, before: WagonState)
        requires { IsStateBefore self.old.events before }
        ensures { self.new ≡ record self.old { events = without_newest self.old.events } }
    {
        self.track.take_back(before.earlier);
        self.kept = before.kept;
    }
}

/// What a wagon kept beside the events of its journey, before the newest of them.
#[derive(Drop)]
pub struct WagonState {
    /// What the events came to.
    pub earlier: EarlierState,
    pub(crate) kept: EstimateAnchor,
}

impl WagonState {
    /// The legs, where there are these with the newest event.
    pub fn legs<'a>(&'a self, now: &'a Legs) -> &'a Legs
        ensures { result.now ≡ (earlier_state self.now.earlier now.now).legs }
    {
        match &self.earlier.legs {
            Some(legs) => legs.get(),
            None => now,
        }
    }

    /// When the wagon was expected, where there are these legs with the newest event.
    pub fn estimates<'a>(&'a self, now: &'a Legs) -> Estimates<'a>
        requires on_a_leg { self.now.earlier.leg_index
            < length (earlier_state self.now.earlier now.now).legs }
        requires fits { fits_in (basis_from self.now.earlier.leg_index
            (earlier_state self.now.earlier now.now).legs self.now.kept.newest) ≡ true }
        ensures { (events : List Event) → now.now ≡ legs events → IsStateBefore events self.now
            → result ≡ estimates_state (without_newest events) }
    {
        self.kept
            .estimates_by(self.earlier.leg_index, self.legs(now))
    }
}
