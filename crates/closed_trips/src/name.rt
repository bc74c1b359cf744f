//! What a message names.
use taf_codes::{ConsignmentId, Railway, UnitCode};
use taf_messages::MessageNumber;
use wagon_number::WagonNumber;

/// A name in messages. An offer has the name of its message.
#[derive(Clone, Copy, Debug, PartialEq, Eq, Hash)]
pub(crate) enum Name {
    Wagon(WagonNumber),
    Consignment(ConsignmentId),
    Unit(UnitCode),
    Message(Railway, MessageNumber),
}
