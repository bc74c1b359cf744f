//! Worked examples: tests of the hub from bytes to bytes, and of its journal (`journals`). There is nothing else here.
//!
//! An example is a text: the lines of calls as railways send them, and behind each the line of its answer, with `> ` before
//! it. Its calls go through `hub_replay::run` to a new hub, and all that is written is compared with the answers, byte by
//! byte. Where an example is about a record or about what a railway was sent, an `ask` or a `fetch` shows it. The answers
//! come from the rules of the exchange.
//!
//! | part | examples of |
//! |---|---|
//! | `movement` | a wagon from its release to its arrival, repeated messages |
//! | `estimates` | delays, reported estimates, alerts, acknowledged items, deviations |
//! | `trains` | offers, their answers, and what follows |
//! | `changes` | other legs, and units on wagons |
//! | `lines` | bad lines, long lines, lines that are cut |
//! | `many` | as many wagons, items, delays and calls as a hub takes or gives |
//! | `streams` | readers and writers that go by few bytes, and that fail at each step |
//! | `report` | the report of the wagons, by one thread and by many |
//! | `scarcity` | each growth refused in turn |
//! | `overtaking` | messages that may overtake each other |
//!
//! The tests stand apart from the crates that they test, since a crate with tests is proved twice. Examples are texts, since
//! a table of values is proved value by value.
#![tactic(auto)]

#[cfg(test)]
mod changes;
#[cfg(test)]
mod estimates;
#[cfg(test)]
mod examples;
#[cfg(test)]
mod journals;
#[cfg(test)]
mod lines;
#[cfg(test)]
mod many;
#[cfg(test)]
mod movement;
#[cfg(test)]
mod overtaking;
#[cfg(test)]
mod play;
#[cfg(test)]
mod report;
#[cfg(test)]
mod scarcity;
#[cfg(test)]
mod streams;
#[cfg(test)]
mod trains;
