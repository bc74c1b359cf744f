//! Shifts: many sessions are served by a few workers, around one hub.
//!
//! [`run_shift`] gives each session a thread of its own, which serves its lines, and each worker a thread of its own,
//! which makes the sessions' calls on the shared hub. Session `i` puts its jobs into the lane of worker `i mod workers`. When
//! the last session has ended, the workers make the calls that are left in their lanes and end too.
//!
//! # What is promised
//!
//! `specs/Shifts.antt` says what a shift leaves. Its hub is one that a single thread could have made, and its sum is how
//! many calls that hub's history has since the shift began. It has a tally for each session, in their order, which is what the lines of the session's
//! reader make of it; how each session ended; and what each lane still held. [`settle_shift`] compares the tallies with the
//! history. [`shift_in_order`] says what a session was told of its own jobs, and what follows of the history once the tallies
//! settle, and [`lanes_in_order`] what was taken of a session's jobs and what was left.
//!
//! No contract says that a call returns, or that two workers run at once.
//!
//! | part | what it has |
//! |---|---|
//! | `one_session` | what the threads do that serve |
//! | `shift` | the shift |
//! | `journaled` | the shift with a journal |
//! | `settled` | a shift whose tallies tell its history |
//! | `law` | what follows of a shift |
#![tactic(auto)]

mod journaled;
mod law;
mod one_session;
mod settled;
mod shift;

pub use hub_serving::{Hooks, HubKeeper, NoKeeper};
pub use hub_workers::{Gate, OpenGate};
pub use journaled::{JournaledShift, run_journaled_shift};
pub use law::{lanes_in_order, shift_in_order};
pub use session_lanes::SessionEnd;
pub use settled::{SettledShift, settle_shift};
pub use shift::{Shift, ShiftFault, run_kept_shift, run_shift};
