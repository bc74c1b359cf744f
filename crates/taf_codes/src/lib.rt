//! The codes of railways, places, consignments, trains and intermodal units, and what all crates of the hub share.
//!
//! # Codes
//!
//! | type | its text |
//! |---|---|
//! | [`Railway`] | a railway or an infrastructure manager: four characters of A to Z and 0 to 9 |
//! | [`Place`] | two letters of A to Z for its country and five digits |
//! | [`ConsignmentId`], [`TrainId`] | 1 to 20 characters of A to Z, 0 to 9 and hyphen |
//! | [`UnitCode`] | an intermodal unit by ISO 6346: four letters of A to Z, six digits and a check digit |
//!
//! In contracts a code is its text (`specs/Codes.antt`). `read` answers the code exactly where the text is one, and
//! else [`BadCode`] or [`UnitFault`]; `as_str` and `Display` give the text, which reads back as the same code
//! ([`codes_read_back`]). Codes are `Copy`, compared and ordered as their texts, and no call takes memory.
//! Whether a railway or a place of that code exists is not asked.
//!
//! # What all crates share
//!
//! - [`Memory`], the one error where memory was refused; `?` makes it of the errors of std.
//! - [`Source`] and [`Sink`], what gives bytes and what takes them. Their contracts say which bytes, where these are
//!   known, and count the calls that failed: one for each Err, and none else. [`Std`] is either, over a reader or a
//!   writer of std, and [`Failures`] is such a count, which contracts alone see.
//! - Words for checks that are made in order, and for texts that may be absent (`specs/Words.antt`).
#![tactic(auto)]

mod code;
mod failures;
mod fault;
mod laws;
mod memory;
mod name;
mod name_text;
mod streams;
mod text;
mod unit_digit;

pub use code::{Place, Railway, UnitCode};
pub use failures::Failures;
pub use fault::{BadCode, UnitFault};
pub use laws::codes_read_back;
pub use memory::Memory;
pub use name::{ConsignmentId, TrainId};
pub use streams::{Failed, Sink, Source, Std};
