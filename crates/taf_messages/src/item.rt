use crate::message::Message;
use crate::number::{LegIndex, MessageNumber};
use crate::shared::Shared;
use crate::wagons::Wagons;
use taf_codes::Railway;
use taf_moment::Moment;
use wagon_number::WagonNumber;

/// An item of a railway's outbox.
#[derive(Clone, Debug, PartialEq, Eq, Drop)]
pub struct Item {
    /// Counted from 1 for each railway.
    pub number: u64,
    pub body: ItemBody,
}

/// What an item says.
#[derive(Clone, Debug, PartialEq, Eq, Drop)]
pub enum ItemBody {
    Notice(Shared<Message>),
    Sub(Shared<SubNotice>),
    Eti {
        wagon: WagonNumber,
        leg: LegIndex,
        at: Moment,
    },
    Eta {
        wagon: WagonNumber,
        at: Moment,
    },
    AlertBegins {
        wagon: WagonNumber,
        late_by: u32,
    },
    AlertEnds {
        wagon: WagonNumber,
    },
}

/// The sub notice of wagons that were received at interchange, for an infrastructure manager (4.2.8).
#[derive(Clone, Debug, PartialEq, Eq, Drop)]
pub struct SubNotice {
    pub at: Moment,
    /// The railway that received the wagons.
    pub from: Railway,
    pub offer: MessageNumber,
    pub offerer: Railway,
    /// The received wagons.
    pub wagons: Wagons,
}
