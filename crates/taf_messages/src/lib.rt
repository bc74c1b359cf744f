//! Messages, calls, items, records and replies of the hub: what they are, and when two of them are the same.
//!
//! The messages are those of wagon movement (4.2.7) and interchange (4.2.8) with the estimates of
//! 4.2.6; records are what the operational database shows of a wagon (4.2.11).
//!
//! - [`Message`] with its [`Content`], [`Call`], [`Item`], [`Reply`] and [`Record`] are plain values.
//!   No message says a plan of another lead than its sender.
//!   Numbers keep their limits by type ([`Within`], [`Within32`]), as do lists of wagons ([`Wagons`],
//!   [`OfferedWagons`]). [`Listed`] is a list that contracts see as its elements, [`Shared`] a value
//!   that copies share and that contracts see as itself.
//! - [`Kind`], [`BodyName`] and [`MovementName`] are the kinds of records with their names, [`Field`] the fields with
//!   their keys, and [`RecordFault`] why a line is no call.
//! - [`same`] is equality of sender, number and content. `==` of calls, items and replies is
//!   equality, and copies equal their source. The copy of a call or of an item shares its message,
//!   and a message's own copy what a plan, a route, an offer or an answer says; the copy of a reply
//!   shares its refusal, its records and its items.
//!
//! A copy answers `Memory` where memory is refused, or one value is shared too often.
#![tactic(auto)]

mod call;
mod copies;
mod equality;
mod event;
mod fault;
mod field;
mod item;
mod kind;
mod listed;
mod message;
mod movement;
mod number;
mod record;
mod reply;
mod shared;
mod wagons;

pub use call::Call;
pub use copies::{copy, copy_call, copy_item, copy_reply};
pub use equality::{same, same_call, same_item, same_reply};
pub use event::{RecordEvent, RecordEventKind};
pub use fault::RecordFault;
pub use field::Field;
pub use item::{Item, ItemBody, SubNotice};
pub use kind::{BodyName, Kind, MovementName};
pub use listed::{EstimateList, ItemList, Listed, RecordEvents, Records, Units};
pub use message::{Body, Content, Message, TrainAnswer, TrainOffer};
pub use movement::{Movement, MovementKind};
pub use number::{
    Delay, FetchLimit, ItemNumber, LegIndex, LegMinutes, MessageNumber, Within, Within32,
};
pub use record::{EstimateAt, Record, Stage, Status};
pub use reply::{Refusal, Reply, Why};
pub use shared::Shared;
pub use wagons::{OfferedWagons, Wagons};
