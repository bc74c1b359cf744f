//! What a journey came to before its newest event, kept so that the event can be taken back.
ghost use Rattle.std.specs.Prelude.{◌≡◌, IfOk};
ghost use Rattle.journey.specs.Legs.{legs_after};
ghost use Rattle.journey.specs.JourneyStates.{earlier_state};

use crate::event::{Event, EventBody};
use crate::journey_state::JourneyState;
use crate::legs::Legs;
use std::alloc::{AllocError, Global};
use taf_codes::{Place, Railway};
use taf_messages::{Shared, Stage};

/// What a journey came to before its newest event: all but the legs, which few events change, and the legs where it changes them.
#[derive(Debug, Drop)]
pub struct EarlierState {
    /// How many legs were behind the wagon.
    pub leg_index: usize,
    pub stage: Option<Stage>,
    pub lead: Option<Railway>,
    pub has_departed: bool,
    pub is_delivered: bool,
    pub last_receiver: Option<Railway>,
    pub yard: Option<Place>,
    /// The legs, where the event changes them.
    pub legs: Option<Shared<Legs>>,
}

impl JourneyState {
    /// What is kept of the state while the journey goes on by this event. It takes memory where the event changes the legs.
    pub(crate) fn before(&self, alloc: Global, event: &Event) -> Result<EarlierState, AllocError>
        ensures { IfOk result (λ earlier. earlier_state earlier
            (legs_after self.now.leg_index self.now.legs event.now.body) ≡ self.now) }
    {
        let legs = match &event.body {
            EventBody::Planned(_) | EventBody::LegTimed { .. } | EventBody::Rerouted(_) => {
                Some(Shared::new(alloc, self.legs.copy())?)
            }
            _ => None,
        };
        Ok(EarlierState {
            leg_index: self.leg_index,
            stage: self.stage,
            lead: self.lead,
            has_departed: self.has_departed,
            is_delivered: self.is_delivered,
            last_receiver: self.last_receiver,
            yard: self.yard,
            legs,
        })
    }

    /// Becomes the state of which this was kept.
    pub(crate) fn take_back(&mut self, before: EarlierState)
        ensures { self.new ≡ earlier_state before self.old.legs }
    {
        self.leg_index = before.leg_index;
        self.stage = before.stage;
        self.lead = before.lead;
        self.has_departed = before.has_departed;
        self.is_delivered = before.is_delivered;
        self.last_receiver = before.last_receiver;
        self.yard = before.yard;
        if let Some(legs) = before.legs {
            self.legs = legs.get().copy();
        }
    }
}
