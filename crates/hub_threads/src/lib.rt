//! Threads: those of sessions and of workers run around lanes, and the lanes are closed.
//!
//! [`run_lanes`] gives each worker a thread of its own, and a thread to each of those that serve sessions, which puts its jobs into
//! the lane that it falls to. [`Serve`] says what the latter do: one session each, or the sessions of one connection after another.
//! `session_lanes::Work` says what the workers do. When all that serve have ended, the workers make the calls that are left in their
//! lanes and end too. [`end_lanes`] then closes the lanes.
//!
//! # What is promised
//!
//! Each thread that serves gives back what its kind promises, by what it began with (`specs/Served.antt`), and so does each worker.
//! `specs/Kept.antt` says of the closed lanes that each is kept: what was put into it is what its worker took and what it still held.
//! All memory that is taken here is taken before the first thread starts.
//!
//! No contract says that a call returns, or that two threads run at once.
//!
//! | part | what it has |
//! |---|---|
//! | `kind` | what the threads do that serve sessions, and what goes on beside them |
//! | `beside` | a thread beside others |
//! | `promises` | what the threads promise |
//! | `threads` | how they are started and joined |
//! | `lanes` | lanes: their threads run, and then they are closed |
//! | `fault` | why the threads did not run |
#![tactic(auto)]

mod beside;
mod fault;
mod kind;
mod lanes;
mod promises;
mod threads;

pub use beside::{Beside, run_beside};
pub use fault::ThreadFault;
pub use kind::{Keeper, Serve};
pub use lanes::{LanesEnd, LanesRun, LanesToEnd, ThreadPlaces, end_lanes, run_lanes};
pub use threads::{Back, Lent};
