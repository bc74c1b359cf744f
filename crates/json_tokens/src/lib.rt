//! Tokens of JSON: a writer whose texts need no escape, and readers of records without a tree.
//!
//! - [`Buffer`] is a list of bytes that grows by short texts, and keeps the room that it made ready for them.
//! - [`Writer`] appends JSON to such a buffer, a token at a time. Each text is plain (nothing in it that JSON escapes), so it
//!   is copied as it is, and each number is a whole one of 64 bits. What is written is read by `serde_json` as the tree
//!   that was written (`specs/SmallNumbers.antt`).
//! - [`FlatRecord`] reads an object of texts and whole numbers that is written without blanks and escapes, by one scan
//!   (`specs/FlatText.antt`). It is proved to be the data that `serde_json` reads of the text (`specs/Flat.antt`).
//! - [`JsonTape`] reads any JSON whose numbers are whole ones, as a record with lists or with blanks, into a flat list of its
//!   tokens. It too is proved to be the data that `serde_json` reads of the text (`specs/Tapes.antt`).
//! - [`JsonValue`] is what is found in a line: a text, a number, such a record, a value on such a tape, or any tree of
//!   `serde_json`. Contracts see its data, so that what reads fields is written once.
//!
//! The writer takes memory for its buffer, and the readers for the members or the tokens of a record; a `FlatRecord` uses its own
//! again for the next record. Where memory is refused, what a buffer held stays.
#![tactic(auto)]

mod buffer;
mod flat;
mod json_value;
mod scan;
mod tape;
mod writer;

pub use buffer::Buffer;
pub use flat::{FlatRecord, Scalar};
pub use json_value::{JsonItems, JsonValue};
pub use tape::{JsonTape, TapeItems, TapeValue};
pub use writer::Writer;
