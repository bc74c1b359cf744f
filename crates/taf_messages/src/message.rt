//! Messages of wagon movement (4.2.7), interchange (4.2.8) and estimates (4.2.6).
ghost use Rattle.std.specs.Prelude.{◌≡◌, true, Some, None, if◌then◌else◌};

use crate::movement::Movement;
use crate::number::{LegIndex, LegMinutes, MessageNumber};
use crate::shared::Shared;
use crate::wagons::{OfferedWagons, Wagons};
use std::marker::Model;
use taf_codes::{Place, Railway, TrainId};
use taf_moment::Moment;
use trip_plan::{Plan, Route};
use wagon_number::WagonNumber;

/// The content of a message: its sender, its number and what it says.
#[derive(Clone, Debug, PartialEq, Eq, Drop)]
pub struct Content {
    pub by: Railway,
    pub no: MessageNumber,
    pub body: Body,
}

/// A message. The lead of a plan that it says is its sender.
#[derive(Clone, Debug, PartialEq, Eq, Drop)]
pub struct Message {
    content: Content,
}

impl Model for Message {
    ghost use Rattle.std.specs.Prelude.{◌≡◌, true};
    ghost use Rattle.taf_messages.specs.declared.message.Content.{Content};
    ghost use Rattle.taf_messages.specs.Leads.{is_sent_by_its_lead};

    ghost Value = { Content };

    ghost view = { λ m. m.content };

    ghost invariant = { λ m. is_sent_by_its_lead m.content.by m.content.body ≡ true };

    ghost inverse = { λ content. record { content = content } };
}

impl Message {
    ghost use Rattle.taf_messages.specs.Leads.{is_sent_by_its_lead};

    /// The message with this content, unless it says a plan of another lead than its sender.
    pub fn new(content: Content) -> Option<Message>
        ensures { result ≡ (if is_sent_by_its_lead content.by content.body then Some content
            else None) }
    {
        let is_from_its_lead = match &content.body {
            Body::Plan(plan) => plan.lead() == content.by,
            _ => true,
        };
        if is_from_its_lead {
            Some(Message { content })
        } else {
            None
        }
    }

    pub fn content(&self) -> &Content
        ensures value { result.now ≡ self.now }
        ensures lead { is_sent_by_its_lead self.now.by self.now.body ≡ true }
    {
        &self.content
    }

    /// The sender.
    #[inline]
    pub fn by(&self) -> Railway
        ensures { result ≡ self.now.by }
    {
        self.content.by
    }

    /// The number that the sender gave the message.
    #[inline]
    pub fn no(&self) -> MessageNumber
        ensures { result ≡ self.now.no }
    {
        self.content.no
    }

    #[inline]
    pub fn body(&self) -> &Body
        ensures { result.now ≡ self.now.body }
    {
        &self.content.body
    }
}

/// What a message says.
#[derive(Clone, Debug, PartialEq, Eq, Drop)]
pub enum Body {
    Plan(Plan),
    Movement(Movement),
    EtiAsk {
        wagon: WagonNumber,
    },
    LegTime {
        wagon: WagonNumber,
        leg: LegIndex,
        minutes: LegMinutes,
    },
    Offer(Shared<TrainOffer>),
    Answer(Shared<TrainAnswer>),
    Withdraw {
        at: Moment,
        offer: MessageNumber,
    },
    Reroute {
        wagon: WagonNumber,
        route: Route,
    },
}

impl Body {
    ghost use Rattle.taf_messages.specs.Bodies.{moment_in};

    /// The moment that the message gives, if its kind gives one.
    pub fn moment(&self) -> Option<Moment>
        ensures { result ≡ moment_in self.now }
    {
        match self {
            Body::Movement(movement) => Some(movement.at),
            Body::Offer(offer) => Some(offer.get().at),
            Body::Answer(answer) => Some(answer.get().at),
            Body::Withdraw { at, .. } => Some(*at),
            Body::Plan(_) | Body::EtiAsk { .. } | Body::LegTime { .. } | Body::Reroute { .. } => {
                None
            }
        }
    }
}

/// The wagon interchange notice: a railway offers wagons of a train to the next one.
#[derive(Clone, Debug, PartialEq, Eq, Drop)]
pub struct TrainOffer {
    pub at: Moment,
    pub train: TrainId,
    pub place: Place,
    pub to: Railway,
    pub wagons: OfferedWagons,
}

/// Which wagons were received at interchange, and which were refused.
#[derive(Clone, Debug, PartialEq, Eq, Drop)]
pub struct TrainAnswer {
    pub at: Moment,
    pub offerer: Railway,
    pub offer: MessageNumber,
    pub received: Wagons,
    pub refused: Wagons,
    /// The infrastructure manager that gets the sub notice.
    pub manager: Option<Railway>,
}
