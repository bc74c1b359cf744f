//! What the board shows of the wagons that a railway may see, as lines of JSON (4.2.11).
//!
//! | line | has |
//! |---|---|
//! | [`wagons_line`] | the WIMO records of all wagons that the railway may see, each without its events |
//! | [`legs_line`] | the legs of the same wagons, in the same order |
//! | [`wagon_line`] | what the railway is told of one wagon: the reply to its question for it |
//! | [`wagon_legs_line`] | the legs of this wagon, or the same refusal |
//! | [`line_of_records`], [`line_of_legs`] | the records and the legs of wagons that were seen already |
//!
//! Beside them [`refusals_seen`] gives why calls were refused, for the numbers of the hub.
//!
//! The hub is looked at through [`HubLooks`](hub_shared::HubLooks), for at most [`PART`] wagons or 8,192 calls at a time, and no call is
//! made.
//!
//! # What is promised
//!
//! `specs/Lines.antt`: each line is the text of what was seen, and ends with a newline. What was seen of one wagon is of one moment: of
//! the hub after some history that one thread could have made. A list is put together of parts, each of the next wagons in the order of
//! their first plans, and each of one moment. Together the parts have all wagons of which the caller says how many there are. Since
//! that order only grows, parts of different moments neither miss nor repeat a wagon; that the moments follow one another is said by no
//! contract.
//!
//! The only errors are those of a look, and want of memory.
//!
//! | part | what it has |
//! |---|---|
//! | `fleet` | what is seen of the fleet, part by part |
//! | `refusals` | why calls were refused, part by part |
//! | `lists` | the lines of lists |
//! | `wagon` | the lines of one wagon |
//! | `line` | a text as a line |
#![tactic(auto)]

mod fleet;
mod line;
mod lists;
mod refusals;
mod wagon;

pub use fleet::PART;
pub use lists::{legs_line, line_of_legs, line_of_records, wagons_line};
pub use refusals::refusals_seen;
pub use wagon::{WagonLine, wagon_legs_line, wagon_line};
