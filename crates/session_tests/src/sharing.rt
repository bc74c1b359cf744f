//! Tests of `hub_shared`.
//!
//! Two threads make the calls of two sessions on one hub, each with a seat and a tally of its own, and the tallies settle;
//! tallies that were altered have their faults. What the sessions are answered comes from the rules of the exchange. Each growth
//! of a call, of a noted entry and of the settling is refused in turn.

mod altered;
mod caller;
mod lines;
mod scarcity;
mod threads;
