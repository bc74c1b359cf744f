//! Worked records: tests of `taf_messages`, and of the values that messages have (`values`). There is nothing else here.
//!
//! Lines are read as the calls that they are, or have the fault under which they stand in a text of
//! cases; replies, items, records, legs and faults are written as the texts beside them, byte for byte. What
//! is expected comes from the rules of the exchange. Messages, items and replies are compared and
//! copied, and each growth of memory is refused in turn.
//!
//! The tests stand apart from the crates that they test, since a crate with tests is proved twice.
//! Cases are texts where they can be, since a table of values is proved value by value.
#![tactic(auto)]

#[cfg(test)]
mod calls;
#[cfg(test)]
mod checks;
#[cfg(test)]
mod copies;
#[cfg(test)]
mod faults;
#[cfg(test)]
mod growth;
#[cfg(test)]
mod items;
#[cfg(test)]
mod legs;
#[cfg(test)]
mod lines;
#[cfg(test)]
mod lists;
#[cfg(test)]
mod numbers;
#[cfg(test)]
mod parts;
#[cfg(test)]
mod plans;
#[cfg(test)]
mod records;
#[cfg(test)]
mod replies;
#[cfg(test)]
mod values;
#[cfg(test)]
mod written_calls;
