//! The lines that railways send, read as calls.
//!
//! [`read_call`] reads a line, a JSON object, as the [`Call`](taf_messages::Call) that it is, or gives its first
//! [`RecordFault`](taf_messages::RecordFault), and a [`CallReader`] so reads many lines: no JSON, no kind, the first field
//! in the kind's order that is missing or not good, then the first rule that a plan or a route breaks. What is read is
//! said in `specs/Reading.antt`, by kinds and fields, and what is good for a field in `specs/Values.antt`. A record without
//! lists and blanks is read by a scan into a [`FlatRecord`], another record whose numbers are whole ones by the tape of its
//! tokens, any other line as the tree of its JSON; the answer is the same.
//!
//! Reading takes memory. Where it is refused, the answer is `RecordFault::Memory`.
#![tactic(auto)]

mod kinds;
mod read;
mod unit_loads;
mod value;

pub use json_tokens::FlatRecord;
pub use read::{CallReader, read_call};
