ghost use Rattle.std.specs.Prelude.{◌≡◌, ◌+◌, ◌<◌, ◌≤◌, ◌^◌, [], ◌∷◌, ◌++◌, length, true, Some, None, IfOk, OnOk, OnErr};

use crate::earlier_state::EarlierState;
use crate::event::{Event, EventBody};
use crate::journey_state::JourneyState;
use std::alloc::Global;
use std::marker::Model;
use taf_codes::{Memory, Place, Railway};
use taf_messages::{Stage, Why};
use trip_plan::{Leg, Plan};
use wagon_number::WagonNumber;

// How many events a journey has room for when it begins.
const FIRST_CAPACITY: usize = 8;

/// A wagon and the events of its journey, which begins with a plan.
#[derive(Debug, Drop)]
pub struct Track {
    wagon: WagonNumber,
    // Oldest first.
    events: Vec<Event>,
    // What the events come to.
    journey_state: JourneyState,
}

impl Model for Track {
    ghost use Rattle.journey.specs.Journey.{Journey};

    ghost Value = { Journey };

    ghost use Rattle.journey.specs.TrackStates.{IsTrackState};

    ghost view = { λ t. record { wagon = t.wagon; events = t.events.items } };

    ghost invariant = { λ t. IsTrackState t.events.items t.journey_state };
}

impl Track {
    ghost use Rattle.std.specs.Prelude.{false, slice_get, option_map};
    ghost use Rattle.journey.specs.declared.event.EventBody.TheVariants.{Planned};
    ghost use Rattle.journey.specs.Stages as of;
    ghost use Rattle.journey.specs.Legs as legs_of;
    ghost use Rattle.journey.specs.JourneyStates.{journey_state, earlier_state};
    ghost use Rattle.journey.specs.TrackStates.{IsTrackState, without_newest};
    ghost use Rattle.journey.specs.Checks.{refusal};
    ghost use Rattle.journey.specs.NewestLegs.{IsJourney, events_on_legs, leg_by_newest};

    /// A journey that begins with this plan.
    pub fn open(alloc: Global, wagon: WagonNumber, event: Event) -> Result<Track, Memory>
        requires { of.is_plan event.body ≡ true }
        ensures { IfOk result (λ t. t ≡ record { wagon = wagon; events = event ∷ [] }) }
    {
        let journey_state = match &event.body {
            EventBody::Planned(plan) => JourneyState::planned(plan),
            _ => unreachable!(),
        };
        let mut events = Vec::with_capacity(alloc, FIRST_CAPACITY)?;
        events.push(event)?;
        Ok(Track {
            wagon,
            events,
            journey_state,
        })
    }

    /// Why the event may not come next, if it may not: the first check that applies.
    pub fn admits(&self, event: &Event) -> Option<Why>
        ensures { result ≡ refusal self.now.events event.now.by event.now.body }
    {
        self.journey_state.refusal(event)
    }

    /// Adds an event that may come next. Where memory is refused, the track is as it was.
    pub fn add(&mut self, event: Event) -> Result<(), Memory>
        requires { refusal self.old.events event.by event.body ≡ None }
        ensures ok { OnOk result (self.new
            ≡ record self.old { events = self.old.events ++ event ∷ [] }) }
        ensures on_a_leg { OnOk result (of.leg_index self.new.events
            < length (legs_of.legs self.new.events)) }
        ensures err { OnErr result (self.new ≡ self.old) }
    {
        self.events.reserve(1)?;
        self.journey_state.advance(&event);
        self.events.push_reserved(event);
        Ok(())
    }

    /// What is kept of the state before this event, which may come next, so that it can be taken back. It takes memory where the
    /// event changes the legs.
    pub fn state_before(&self, event: &Event) -> Result<EarlierState, Memory>
        ensures { IfOk result (λ earlier. IsTrackState self.now.events
            (earlier_state earlier (legs_of.legs (self.now.events ++ event.now ∷ [])))) }
    {
        Ok(self.journey_state.before(*self.events.allocator(), event)?)
    }

    /// Takes the newest event back, before which this was kept of the state. It takes no memory.
    pub fn take_back(&mut self, before: EarlierState)
        requires { IsTrackState (without_newest self.old.events)
            (earlier_state before (legs_of.legs self.old.events)) }
        ensures { self.new ≡ record self.old { events = without_newest self.old.events } }
    {
        self.events.truncate(self.events.len() - 1);
        self.journey_state.take_back(before);
    }

    pub fn wagon(&self) -> WagonNumber
        ensures { result ≡ self.now.wagon }
    {
        self.wagon
    }

    /// The events, oldest first.
    pub fn events(&self) -> &[Event]
        ensures value { result.now ≡ self.now.events }
        ensures have_room { legs_of.HaveRoom 0 result.now }
        ensures is_journey { IsJourney result.now }
    {
        self.events.as_slice()
    }

    /// The plan that the journey begins with. It has no other.
    pub fn plan(&self) -> &Plan
        ensures newest { of.plan self.now.events ≡ Some result.now }
        ensures first { option_map (λ e. e.body) (slice_get self.now.events 0)
            ≡ Some (Planned result.now) }
        ensures only { of.has_later_plan self.now.events ≡ false }
    {
        match self.events.first() {
            Some(event) => match &event.body {
                EventBody::Planned(plan) => plan,
                _ => unreachable!(),
            },
            None => unreachable!(),
        }
    }

    /// How far the journey has come.
    pub fn stage(&self) -> Stage
        ensures { of.stage self.now.events ≡ Some result }
    {
        match self.journey_state.stage {
            Some(stage) => stage,
            None => unreachable!(),
        }
    }

    /// How many legs are behind the wagon: 0 to 7.
    pub fn leg_index(&self) -> usize
        ensures value { result ≡ of.leg_index self.now.events }
        ensures on_a_leg { result < length (legs_of.legs self.now.events) }
        ensures few { result < 8 }
    {
        self.journey_state.leg_index
    }

    /// The legs in their order, with their minutes as they are now: 1 to 8.
    pub fn legs(&self) -> &[Leg]
        ensures value { result.now ≡ legs_of.legs self.now.events }
        ensures some { 0 < length result.now }
        ensures few { length result.now ≤ 8 }
    {
        self.journey_state.legs.as_slice()
    }

    /// The leg at this place, from 0 on: what the newest event that sets it says, with the minutes of the newest event
    /// that says them.
    pub fn leg(&self, i: usize) -> Option<Leg>
        ensures value { result ≡ legs_of.leg self.now.events i }
        ensures newest { result ≡ leg_by_newest (events_on_legs self.now.events) i }
    {
        self.journey_state.legs.leg(i)
    }

    /// The railway that answers for the wagon, while it is on its way (4.2.7).
    pub fn responsible(&self) -> Option<Railway>
        ensures { result ≡ of.responsible self.now.events }
    {
        self.journey_state.responsible()
    }

    /// Where the wagon is, if it is at a place.
    pub fn place(&self) -> Option<Place>
        ensures { result ≡ legs_of.place self.now.events }
    {
        self.journey_state.place()
    }

    /// What the events come to.
    pub fn journey_state(&self) -> &JourneyState
        ensures value { result.now ≡ journey_state self.now.events }
        ensures kept { IsTrackState self.now.events result.now }
    {
        &self.journey_state
    }

    /// What the events come to with an event more that may come next.
    pub fn state_after(&self, event: &Event) -> JourneyState
        requires { refusal self.now.events event.now.by event.now.body ≡ None }
        ensures { IsTrackState (self.now.events ++ event.now ∷ []) result }
    {
        let mut state = self.journey_state.copy();
        state.advance(event);
        state
    }
}
