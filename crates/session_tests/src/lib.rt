//! Tests of sessions, and of what is between them and a hub that they share: of `session_lines`, `session_serving`, `inbox` and
//! `hub_shared`. There is nothing else here.
//!
//! A script is a text: the lines that a session reads, the answers to its jobs that it takes, and behind each, after `> `,
//! what is to come of it. A hub takes the jobs, so an answer is that hub's. What is to come of a line stands in the rules
//! of the exchange ([docs/RECORDS.md](../../../docs/RECORDS.md)).
//!
//! | part | tests of |
//! |---|---|
//! | `script_runner` | none: runs scripts |
//! | `scripts` | single lines before and after the hello, sixteen jobs, held lines, answers that are not the session's |
//! | `orders` | lines and answers mixed in every order |
//! | `scarcity` | each growth refused in turn |
//! | `serving` | a session between a reader, a writer and a port, of which each fails at each call |
//! | `queue` | the inbox of a lane |
//! | `sharing` | a hub that threads share, and tallies that settle or do not |
//!
//! The tests stand apart from the crates that they test, since a crate with tests is proved twice. Cases are texts, since a
//! table of values is proved value by value.
#![tactic(auto)]

#[cfg(test)]
mod orders;
#[cfg(test)]
mod queue;
#[cfg(test)]
mod scarcity;
#[cfg(test)]
mod script_runner;
#[cfg(test)]
mod scripts;
#[cfg(test)]
mod serving;
#[cfg(test)]
mod sharing;
