//! How large a shift is: how many sessions, and how many workers.
//!
//! The arguments of the command line name a size, and the server serves a shift of it. That its numbers are within their
//! limits is proved where it is made ([`ShiftSize::new`]), so that neither of the two has to look again.
#![tactic(auto)]

mod size;

pub use size::ShiftSize;
