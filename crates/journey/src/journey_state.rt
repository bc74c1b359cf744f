ghost use Rattle.std.specs.Prelude.{◌≡◌, ◌<◌, ◌≤◌, Some, length, slice_get};
ghost use Rattle.journey.specs.Legs.{HasRoom, place_in};
ghost use Rattle.journey.specs.JourneyStates.{on_its_way, responsible_in, runner_in, journey_state_after, journey_state_by, planned_state, target_in};

use crate::event::{Event, EventBody};
use crate::legs::Legs;
use taf_codes::{Place, Railway};
use taf_messages::{MovementKind, Stage};
use trip_plan::Plan;

/// What the events of a journey come to.
#[derive(Debug, Drop)]
pub struct JourneyState {
    /// How far the journey has come.
    pub stage: Option<Stage>,
    /// How many legs are behind the wagon.
    pub leg_index: usize,
    pub legs: Legs,
    pub lead: Option<Railway>,
    pub has_departed: bool,
    pub is_delivered: bool,
    /// The railway that took the wagon over last.
    pub last_receiver: Option<Railway>,
    /// The yard where the wagon stands, or stood last.
    pub yard: Option<Place>,
}

impl JourneyState {
    /// The state of a wagon that has only been planned.
    pub(crate) fn planned(plan: &Plan) -> JourneyState
        ensures value { result ≡ planned_state plan.now }
        ensures some { 0 < length plan.now.legs }
        ensures few { length plan.now.legs ≤ 8 }
    {
        JourneyState {
            stage: Some(Stage::Planned),
            leg_index: 0,
            legs: Legs::of(plan.legs()),
            lead: Some(plan.lead()),
            has_departed: false,
            is_delivered: false,
            last_receiver: None,
            yard: None,
        }
    }

    /// Goes on by one event more.
    #[inline(always)]
    pub(crate) fn advance(&mut self, event: &Event)
        requires on_a_leg { self.old.leg_index < length self.old.legs }
        requires few_legs { length self.old.legs ≤ 8 }
        requires room { HasRoom self.old.leg_index event.now.body }
        ensures { self.new ≡ journey_state_after self.old event.now }
    {
        match &event.body {
            EventBody::Planned(plan) => {
                self.stage = Some(Stage::Planned);
                self.legs = Legs::of(plan.legs());
                self.lead = Some(plan.lead());
            }
            EventBody::Moved(what) => self.move_on(event.by, *what),
            EventBody::EstimateAsked => {}
            EventBody::LegTimed { leg, minutes } => {
                self.legs.time(leg.get() as usize, minutes.get());
            }
            EventBody::Offered { place, to: _ } => self.stand(Stage::Offered, *place),
            EventBody::Answered { place, received } => {
                self.stand(Stage::InYard, *place);
                if *received {
                    self.leg_index += 1;
                    self.last_receiver = Some(event.by);
                }
            }
            EventBody::Withdrawn { place } => self.stand(Stage::InYard, *place),
            EventBody::Rerouted(route) => self.legs.reroute(self.leg_index, route.legs()),
        }
    }

    // Goes on by a movement that this railway reports.
    fn move_on(&mut self, by: Railway, what: MovementKind)
        ensures { self.new ≡ journey_state_by self.old by (EventBody.Moved what) }
    {
        match what {
            MovementKind::Release => self.stage = Some(Stage::Released),
            MovementKind::Departure => {
                self.stage = Some(Stage::Running);
                self.has_departed = true;
                self.last_receiver = Some(by);
            }
            MovementKind::YardArrival { place } => self.stand(Stage::InYard, place),
            MovementKind::YardDeparture { .. } => self.stage = Some(Stage::Running),
            MovementKind::Exception { .. } | MovementKind::Estimate => {}
            MovementKind::Arrival => self.stage = Some(Stage::Arrived),
            MovementKind::Delivery => {
                self.stage = Some(Stage::Delivered);
                self.is_delivered = true;
            }
        }
    }

    // It stands in this yard now.
    fn stand(&mut self, stage: Stage, place: Place)
        ensures { self.new ≡ record self.old { stage = Some stage; yard = Some place } }
    {
        self.stage = Some(stage);
        self.yard = Some(place);
    }

    /// The same state.
    pub fn copy(&self) -> JourneyState
        ensures { result ≡ self.now }
    {
        JourneyState {
            stage: self.stage,
            leg_index: self.leg_index,
            legs: self.legs.copy(),
            lead: self.lead,
            has_departed: self.has_departed,
            is_delivered: self.is_delivered,
            last_receiver: self.last_receiver,
            yard: self.yard,
        }
    }

    /// Whether the wagon has departed and was not delivered.
    pub fn is_on_its_way(&self) -> bool
        ensures { result ≡ on_its_way self.now }
    {
        self.has_departed && !self.is_delivered
    }

    /// The railway that answers for the wagon, while it is on its way.
    pub fn responsible(&self) -> Option<Railway>
        ensures { result ≡ responsible_in self.now }
    {
        if self.is_on_its_way() {
            self.last_receiver
        } else {
            None
        }
    }

    /// Where the wagon is, if it is at a place.
    pub fn place(&self) -> Option<Place>
        ensures { result ≡ place_in self.now.stage self.now.legs self.now.yard }
    {
        match self.stage? {
            Stage::Planned | Stage::Released => self.legs.leg(0).map(|leg| leg.origin),
            Stage::Running => None,
            Stage::InYard | Stage::Offered => self.yard,
            Stage::Arrived | Stage::Delivered => self.legs.as_slice().last().map(|leg| leg.target),
        }
    }

    /// The railway of a leg.
    pub(crate) fn runner(&self, leg: usize) -> Option<Railway>
        ensures { result ≡ runner_in self.now leg }
    {
        self.legs.leg(leg).map(|leg| leg.ru)
    }

    /// Where the current leg ends.
    pub(crate) fn current_target(&self) -> Option<Place>
        ensures { result ≡ target_in self.now }
    {
        self.legs.leg(self.leg_index).map(|leg| leg.target)
    }
}
