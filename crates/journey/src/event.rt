ghost use Rattle.std.specs.Prelude.{◌≡◌, ◌<◌, ◌≤◌, ◌+◌, ◌^◌};
ghost use Rattle.journey.specs.Legs.{index_after};

use taf_codes::{Place, Railway};
use taf_messages::{LegIndex, LegMinutes, MessageNumber, MovementKind};
use taf_moment::Moment;
use trip_plan::{Plan, Route};

/// What a message says of one wagon, with its sender, its number and its moment.
#[derive(Debug, Drop)]
pub struct Event {
    pub by: Railway,
    pub no: MessageNumber,
    pub at: Option<Moment>,
    pub body: EventBody,
}

/// What a message says of one wagon.
#[derive(Debug, Drop)]
pub enum EventBody {
    Planned(Plan),
    Moved(MovementKind),
    EstimateAsked,
    LegTimed { leg: LegIndex, minutes: LegMinutes },
    Offered { place: Place, to: Railway },
    Answered { place: Place, received: bool },
    Withdrawn { place: Place },
    Rerouted(Route),
}

impl EventBody {
    /// How many legs are behind the wagon with this event, where so many were behind it before.
    pub fn leg_index_after(&self, before: usize) -> usize
        requires { before + 1 < 2 ^ 64 }
        ensures value { result ≡ index_after before self.now }
        ensures next { result ≤ before + 1 }
    {
        if let EventBody::Answered { received: true, .. } = self {
            before + 1
        } else {
            before
        }
    }
}
