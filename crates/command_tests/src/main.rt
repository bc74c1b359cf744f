//! Tests of what the programs do with their arguments. There is nothing else here.
//!
//! | part | tests |
//! |---|---|
//! | `commands` | the commands of `taf_hub`: their texts, their faults and their statuses |
//! | `carried` | `carry`, on journals in files of the system |
//! | `file` | the page of a finished run |
//! | `journals` | `replay` with a journal, and `check`, on files of the system |
//! | `journaled_serving` | shifts with a journal over loopback, and one that goes on with the journal of another |
//! | `service` | services over loopback, of a railway that breaks off and comes back, with a journal and without, and of railways with keys |
//! | `serving` | shifts over loopback, of railways that come together or one after another, and a port that is taken |
//! | `reported` | the lines of faults, and of sessions that could not be served to their end |
//! | `measurements` | the arguments of `bench`, and how many lines each benchmark prints |
//!
//! The tests stand apart from the crates that they test, since a crate with tests is proved twice. They are in a program, which
//! does nothing, since of a library `rt ci` makes sums of all that it stands on, which takes minutes.
#![tactic(auto)]

#[cfg(test)]
mod board;
#[cfg(test)]
mod carried;
#[cfg(test)]
mod commands;
#[cfg(test)]
mod file;
#[cfg(test)]
mod journaled_serving;
#[cfg(test)]
mod journals;
#[cfg(test)]
mod measurements;
#[cfg(test)]
mod reported;
#[cfg(test)]
mod service;
#[cfg(test)]
mod serving;

fn main(_rt: HostRuntime) {}
