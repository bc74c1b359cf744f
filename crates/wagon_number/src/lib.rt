//! Vehicle numbers of wagons.
//!
//! A wagon bears the twelve digits of its European vehicle number (Decision 2007/756/EC, Appendix
//! 6): two for interoperability, two for the country, four for technical characteristics, three
//! serial ones, and a check digit. What the first eleven mean is not read here.
//!
//! - [`WagonNumber`] is a number whose check digit is right; there is no other value of it. In
//!   contracts it is that number: its digits, its text and its marked form are functions of it
//!   (`specs/Digits.antt`).
//! - [`WagonNumber::read`] and [`WagonNumber::text`] go between a number and its twelve digits, as
//!   `218124712173`; [`WagonNumber::read_marked`] and `Display` between a number and the marked
//!   form, as `21 81 2471 217-3`.
//! - [`NumberFault`] says why a text is no number, and [`check_digit`] which digit goes behind
//!   eleven others.
//!
//! Promised: each text is read as one number or refused with one fault; `read` reads what `text`
//! writes, `read_marked` what `Display` prints, and neither reads another text as that number
//! (`laws.rt`). No call takes memory.
#![tactic(auto)]

mod digits;
mod fault;
mod laws;
mod number;
mod pairs;
mod text;

pub use digits::check_digit;
pub use fault::NumberFault;
pub use laws::{marked_text_is_read, numbers_are_their_digits, text_is_read, validity_is_tested};
pub use number::WagonNumber;
pub use text::NumberText;
