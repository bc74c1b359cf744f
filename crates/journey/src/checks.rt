//! Which event may come next.
ghost use Rattle.std.specs.Prelude.{◌≡◌, ◌<◌, ◌≤◌, length};
ghost use Rattle.taf_codes.specs.Words as words;
ghost use Rattle.journey.specs.Checks as of;

use crate::event::{Event, EventBody};
use crate::journey_state::JourneyState;
use taf_codes::{Place, Railway};
use taf_messages::{MovementKind, Stage, Why};
use trip_plan::Leg;

impl JourneyState {
    /// The first check that refuses the event.
    pub(crate) fn refusal(&self, event: &Event) -> Option<Why>
        requires { self.now.leg_index < 8 }
        ensures { result ≡ words.first_of (of.checks self.now event.now.by event.now.body) }
    {
        let by = event.by;
        match &event.body {
            EventBody::Planned(_) => Some(Why::WrongStage),
            EventBody::Moved(what) => self.movement_refusal(by, *what),
            EventBody::EstimateAsked => first_of(&[
                (!self.is_on_its_way(), Why::WrongStage),
                (self.lead != Some(by), Why::NotYours),
            ]),
            EventBody::LegTimed { leg, minutes: _ } => self.time_refusal(by, leg.get() as usize),
            EventBody::Offered { place, to } => first_of(&[
                (!self.is_in(&[Stage::InYard]), Why::WrongStage),
                (self.responsible() != Some(by), Why::NotYours),
                (!self.may_be_offered_at(*place), Why::WrongPlace),
                (self.runner(self.leg_index + 1) != Some(*to), Why::WrongNext),
            ]),
            EventBody::Answered { .. } | EventBody::Withdrawn { .. } => {
                first_of(&[(!self.is_in(&[Stage::Offered]), Why::WrongStage)])
            }
            EventBody::Rerouted(route) => self.route_refusal(by, route.legs()),
        }
    }

    fn movement_refusal(&self, by: Railway, what: MovementKind) -> Option<Why>
        requires { self.now.leg_index < 8 }
        ensures { result ≡ words.first_of (of.movement_checks self.now by what) }
    {
        match what {
            MovementKind::Release => first_of(&[
                (!self.is_in(&[Stage::Planned]), Why::WrongStage),
                (self.lead != Some(by), Why::NotYours),
            ]),
            MovementKind::Departure => first_of(&[
                (!self.is_in(&[Stage::Released]), Why::WrongStage),
                (self.runner(0) != Some(by), Why::NotYours),
            ]),
            MovementKind::YardArrival { .. } => first_of(&[
                (!self.is_in(&[Stage::Running]), Why::WrongStage),
                (self.responsible() != Some(by), Why::NotYours),
            ]),
            MovementKind::YardDeparture { place } => first_of(&[
                (!self.is_in(&[Stage::InYard]), Why::WrongStage),
                (self.responsible() != Some(by), Why::NotYours),
                (self.yard != Some(place), Why::WrongPlace),
            ]),
            MovementKind::Exception { .. } | MovementKind::Estimate => first_of(&[
                (!self.is_on_its_way(), Why::WrongStage),
                (self.responsible() != Some(by), Why::NotYours),
            ]),
            MovementKind::Arrival => first_of(&[
                (
                    !self.is_in(&[Stage::Running, Stage::InYard]),
                    Why::WrongStage,
                ),
                (self.responsible() != Some(by), Why::NotYours),
                (
                    self.leg_index + 1 != self.legs.as_slice().len(),
                    Why::NotLastLeg,
                ),
            ]),
            MovementKind::Delivery => first_of(&[
                (!self.is_in(&[Stage::Arrived]), Why::WrongStage),
                (self.responsible() != Some(by), Why::NotYours),
            ]),
        }
    }

    fn time_refusal(&self, by: Railway, leg: usize) -> Option<Why>
        ensures { result ≡ words.first_of (of.time_checks self.now by leg) }
    {
        first_of(&[
            (self.legs.leg(leg).is_none(), Why::NoSuchLeg),
            (self.runner(leg) != Some(by), Why::NotYours),
            (self.has_departed && leg <= self.leg_index, Why::LegStarted),
        ])
    }

    fn route_refusal(&self, by: Railway, route: &[Leg]) -> Option<Why>
        requires index { self.now.leg_index < 8 }
        requires few { length route.now ≤ 7 }
        ensures { result ≡ words.first_of (of.route_checks self.now by route.now) }
    {
        first_of(&[
            (
                !self.is_in(&[
                    Stage::Planned,
                    Stage::Released,
                    Stage::Running,
                    Stage::InYard,
                ]),
                Why::WrongStage,
            ),
            (self.lead != Some(by), Why::NotYours),
            (
                route.first().map(|leg| leg.origin) != self.current_target(),
                Why::WrongPlace,
            ),
            (
                route.first().map(|leg| leg.ru) == self.runner(self.leg_index),
                Why::WrongNext,
            ),
            (self.leg_index + 1 + route.len() > 8, Why::TooManyLegs),
        ])
    }

    fn may_be_offered_at(&self, place: Place) -> bool
        ensures { result ≡ of.may_be_offered_at self.now place }
    {
        self.yard == Some(place) && self.current_target() == Some(place)
    }

    fn is_in(&self, stages: &[Stage]) -> bool
        ensures { result ≡ of.is_in self.now stages.now }
    {
        stages.iter().any(|stage| self.stage == Some(*stage))
    }
}

// What the first check that applies says.
fn first_of(checks: &[(bool, Why)]) -> Option<Why>
    ensures { result ≡ words.first_of checks.now }
{
    for (applies, why) in checks {
        if *applies {
            return Some(*why);
        }
    }
    None
}
