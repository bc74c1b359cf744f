//! The lines of bytes, and what each says: shared by all who take lines of calls.
//!
//! [`parse_line`] tells whether a line is blank, too long, a call, or no call and why; [`is_blank_line`] asks the first
//! alone. [`next_newline`] finds where a line ends. What a line says, and the texts of replies and faults, are defined in
//! `specs/Lines.antt`.
//!
//! Parsing takes memory. Where it is refused, the answer is `Memory`, which is no fault of the line. The other calls take
//! none.
#![tactic(auto)]

mod newline;
mod parsed;

pub use newline::next_newline;
pub use parsed::{LONGEST, ParsedLine, is_blank_line, parse_line};
