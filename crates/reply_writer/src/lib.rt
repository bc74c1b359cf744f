//! Replies, items, records, legs, faults and calls as lines of JSON.
//!
//! - [`write_reply`], [`write_item`], [`write_record`] and [`write_fault`] give texts: compact JSON, keys in byte order,
//!   no newline. [`write_wagon_legs`] and [`write_fleet_legs`] give the legs of wagons in the same form, to stand beside the
//!   records of these wagons. [`append_reply`], [`append_fault`] and [`append_call`] write behind what a [`Buffer`] holds. The
//!   trees that they write are those of `specs/Shapes.antt`, `specs/RecordShapes.antt`, `specs/ReplyShapes.antt`,
//!   `specs/LegShapes.antt` and `specs/CallShapes.antt`, and `serde_json` reads each text as its tree.
//! - [`texts_are_read_as_written`], [`messages_are_read_back`] and [`calls_are_read_back`] are laws: what is written is read
//!   as its fields, the message in a notice is read back as the message, and the text of a call as the call.
//!
//! Writing takes memory. Where it is refused, the answer is `Memory`, and what a buffer held stays.
#![tactic(auto)]

mod accepted;
mod laws;
mod legs;
mod put;
mod put_call;
mod put_message;
mod put_record;
mod put_reply;
mod write;

pub use json_tokens::Buffer;
pub use laws::{calls_are_read_back, messages_are_read_back, texts_are_read_as_written};
pub use legs::{WagonLegs, write_fleet_legs, write_wagon_legs};
pub use write::{
    append_call, append_fault, append_reply, write_fault, write_item, write_record, write_reply,
};
