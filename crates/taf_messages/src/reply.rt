ghost use Rattle.std.specs.Prelude.{◌≡◌};
ghost use Rattle.taf_messages.specs.Details.{why_name};

use crate::listed::{ItemList, Records};
use crate::number::MessageNumber;
use crate::record::Record;
use crate::shared::Shared;
use std::alloc::AllocError;
use wagon_number::WagonNumber;

/// Why a call is refused.
#[derive(Clone, Copy, Debug, PartialEq, Eq)]
pub enum Why {
    UnknownWagon,
    UnknownConsignment,
    UnknownOffer,
    UnknownUnit,
    ConsignmentTaken,
    WagonBusy,
    UnitBusy,
    WrongStage,
    NotYours,
    WrongPlace,
    WrongNext,
    TooManyLegs,
    NoSuchLeg,
    LegStarted,
    NotLastLeg,
    OfferClosed,
    ListsDiffer,
    BeyondCalendar,
    NumberReused,
    AckAhead,
}

impl Why {
    /// The name of the refusal in replies.
    pub fn name(self) -> &'static str
        ensures { result.now ≡ why_name self }
    {
        match self {
            Why::UnknownWagon => "unknown_wagon",
            Why::UnknownConsignment => "unknown_consignment",
            Why::UnknownOffer => "unknown_offer",
            Why::UnknownUnit => "unknown_unit",
            Why::ConsignmentTaken => "consignment_taken",
            Why::WagonBusy => "wagon_busy",
            Why::UnitBusy => "unit_busy",
            Why::WrongStage => "wrong_stage",
            Why::NotYours => "not_yours",
            Why::WrongPlace => "wrong_place",
            Why::WrongNext => "wrong_next",
            Why::TooManyLegs => "too_many_legs",
            Why::NoSuchLeg => "no_such_leg",
            Why::LegStarted => "leg_started",
            Why::NotLastLeg => "not_last_leg",
            Why::OfferClosed => "offer_closed",
            Why::ListsDiffer => "lists_differ",
            Why::BeyondCalendar => "beyond_calendar",
            Why::NumberReused => "number_reused",
            Why::AckAhead => "ack_ahead",
        }
    }
}

/// How a call is refused.
#[derive(Clone, Copy, Debug, PartialEq, Eq)]
pub struct Refusal {
    /// The number of the message that is refused. None where a question or an acknowledgement is.
    pub no: Option<MessageNumber>,
    pub why: Why,
    /// The wagon for which it is refused, where it is for one.
    pub wagon: Option<WagonNumber>,
    /// The last item of the railway that acknowledges a later one.
    pub last: Option<u64>,
}

/// What the hub answers to a call. Copies share the refusal, the records and the items, so that a reply takes little place.
#[derive(Debug, PartialEq, Eq, Drop)]
pub enum Reply {
    Accepted { no: MessageNumber },
    Refused(Shared<Refusal>),
    One(Shared<Record>),
    Many(Shared<Records>),
    Items(Shared<ItemList>),
    Acknowledged(u64),
}

impl Clone for Reply {
    ghost is_clone = { λ a b. b ≡ a };

    fn clone(&self) -> Result<Reply, AllocError> {
        Ok(match self {
            Reply::Accepted { no } => Reply::Accepted { no: *no },
            Reply::Refused(refusal) => Reply::Refused(refusal.clone()?),
            Reply::One(known) => Reply::One(known.clone()?),
            Reply::Many(known) => Reply::Many(known.clone()?),
            Reply::Items(items) => Reply::Items(items.clone()?),
            Reply::Acknowledged(item) => Reply::Acknowledged(*item),
        })
    }
}
