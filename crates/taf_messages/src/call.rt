use crate::message::Message;
use crate::number::{FetchLimit, ItemNumber};
use crate::shared::Shared;
use taf_codes::{ConsignmentId, Railway, UnitCode};
use wagon_number::WagonNumber;

/// What a railway asks of the hub.
#[derive(Clone, Debug, PartialEq, Eq, Drop)]
pub enum Call {
    Send(Shared<Message>),
    Ask {
        by: Railway,
        wagon: WagonNumber,
    },
    AskUnit {
        by: Railway,
        unit: UnitCode,
    },
    Deviation {
        by: Railway,
        consignment: ConsignmentId,
    },
    Fetch {
        by: Railway,
        limit: FetchLimit,
    },
    Ack {
        by: Railway,
        item: ItemNumber,
    },
}
