//! One hub, and the threads around it: those that serve sessions, of whatever kind, and the workers that make their calls.
//!
//! [`serve_hub`] makes a new hub, which several workers share. [`serve_journaled_hub`] takes the hub of a journal, which one worker
//! has alone: it answers no job before its call is on the disk. Either gives a thread to each worker and to each that serves, as
//! `hub_threads` does, waits until all have ended, and closes the hub and the lanes.
//!
//! # What is promised
//!
//! `specs/ServedHubs.antt` says what is left. Each thread that served gave back what its kind promises. The hub is one that a single
//! thread could have made, and its sum is how many calls its history has since. There are an end and a tally for each thread that
//! served, in their order; each lane is kept; each worker counted a call or a fault for each job that it took.
//! `specs/JournaledHubs.antt` says what the journal has, and what a crash at any moment leaves.
//!
//! No contract says that a call returns, or that two threads run at once.
//!
//! | part | what it has |
//! |---|---|
//! | `keeper` | what goes on beside the threads, and looks at the hub |
//! | `served` | what the threads around a hub leave |
//! | `shared` | a new hub that workers share |
//! | `journaled` | the hub of a journal, which one worker has |
#![tactic(auto)]

mod journaled;
mod keeper;
mod served;
mod shared;

pub use journaled::{ServedJournaledHub, serve_journaled_hub};
pub use keeper::{Hooks, HubKeeper, NoKeeper};
pub use served::ServedHub;
pub use shared::serve_hub;
