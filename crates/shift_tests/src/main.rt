//! Tests of `hub_shifts`, `hub_workers` and `session_lanes`: whole shifts over memory. There is nothing else here.
//!
//! Two sessions meet at the hub while their jobs are held until both are there; the lines of a session stay in their order,
//! and no job of it overtakes another; a writer that fails ends its own session alone; many sessions with many calls
//! settle; each growth is refused in turn; sessions and workers take turns in orders that are drawn. What the sessions are answered comes from the rules of the exchange.
//!
//! The tests are in a program, which does nothing, since of a library `rt ci` makes sums of all that it stands on, which takes minutes.
#![tactic(auto)]

#[cfg(test)]
mod drawn;
#[cfg(test)]
mod gates;
#[cfg(test)]
mod lines;
#[cfg(test)]
mod many;
#[cfg(test)]
mod scarcity;
#[cfg(test)]
mod shifts;
#[cfg(test)]
mod streams;

fn main(_rt: HostRuntime) {}
