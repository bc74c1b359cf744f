ghost use Rattle.std.specs.Prelude.{◌≡◌};

use crate::kind::BodyName;
use crate::movement::MovementKind;
use crate::number::{Delay, LegIndex, LegMinutes, MessageNumber};
use taf_codes::{Place, Railway};
use taf_moment::Moment;

/// What is shown of one message in a wagon's record. A history keeps many of them, so the fields lie without gaps.
#[derive(Clone, Copy, Debug, PartialEq, Eq)]
pub struct RecordEvent {
    pub no: MessageNumber,
    pub by: Railway,
    pub at: Option<Moment>,
    pub what: RecordEventKind,
}

/// The kind of a record's event, with what is shown of its fields.
#[derive(Clone, Copy, Debug, PartialEq, Eq)]
pub enum RecordEventKind {
    Planned,
    Moved(MovementKind),
    EstimateAsked,
    LegTimed { leg: LegIndex, minutes: LegMinutes },
    Offered { place: Place },
    Answered { received: bool },
    Withdrawn,
    Rerouted { leg: LegIndex },
}

impl RecordEventKind {
    ghost use Rattle.taf_messages.specs.Details.{event_kind_name, event_kind_delay, event_kind_leg, event_kind_minutes, event_kind_place, event_kind_received};

    /// The kind of message that it was.
    pub fn kind(self) -> BodyName
        ensures { result ≡ event_kind_name self }
    {
        match self {
            RecordEventKind::Planned => BodyName::Plan,
            RecordEventKind::Moved(what) => BodyName::Movement(what.name()),
            RecordEventKind::EstimateAsked => BodyName::EtiAsk,
            RecordEventKind::LegTimed { .. } => BodyName::LegTime,
            RecordEventKind::Offered { .. } => BodyName::Offer,
            RecordEventKind::Answered { .. } => BodyName::Answer,
            RecordEventKind::Withdrawn => BodyName::Withdraw,
            RecordEventKind::Rerouted { .. } => BodyName::Reroute,
        }
    }

    /// The delay of an exception, in minutes.
    pub fn delay(self) -> Option<Delay>
        ensures { result ≡ event_kind_delay self }
    {
        match self {
            RecordEventKind::Moved(what) => what.delay(),
            _ => None,
        }
    }

    /// The leg that was timed, or the first that a reroute set.
    pub fn leg(self) -> Option<LegIndex>
        ensures { result ≡ event_kind_leg self }
    {
        match self {
            RecordEventKind::LegTimed { leg, .. } | RecordEventKind::Rerouted { leg } => Some(leg),
            _ => None,
        }
    }

    /// The minutes of a leg that was timed.
    pub fn minutes(self) -> Option<LegMinutes>
        ensures { result ≡ event_kind_minutes self }
    {
        match self {
            RecordEventKind::LegTimed { minutes, .. } => Some(minutes),
            _ => None,
        }
    }

    /// The yard or the place of interchange that the message names.
    pub fn place(self) -> Option<Place>
        ensures { result ≡ event_kind_place self }
    {
        match self {
            RecordEventKind::Moved(what) => what.place(),
            RecordEventKind::Offered { place } => Some(place),
            _ => None,
        }
    }

    /// Of an answer, whether it received the wagon.
    pub fn received(self) -> Option<bool>
        ensures { result ≡ event_kind_received self }
    {
        match self {
            RecordEventKind::Answered { received } => Some(received),
            _ => None,
        }
    }
}
