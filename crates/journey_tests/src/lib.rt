//! Worked journeys: tests of `journey`, `eti_chain` and `wimo` together, and of the stores (`stores`). There is nothing else here.
//!
//! A journey is a table of lines, each with what is seen of the wagon after it. An event is written as
//! its sender, its number, its time on 2025-03-01 or in full (`-` for none), its kind and the kind's
//! fields. What is seen is the stage, the leg index, the place, the responsible railway, the estimated
//! time of arrival and the minutes that it is late by, or why the event is refused.
//!
//! The tests stand apart from the crates that they test, since a crate with tests is proved twice, and
//! since the three crates share these journeys.
#![tactic(auto)]

#[cfg(test)]
mod refused;
#[cfg(test)]
mod script;
#[cfg(test)]
mod stores;
#[cfg(test)]
mod tests;
