//! A hub whose calls are in a journal.
//!
//! [`JournaledHub::apply`] gives a call its reply, as the hub does, and notes the call's line. [`JournaledHub::sync`] puts all
//! lines that were noted on the disk together: only then may their replies be told. [`RecoveredHub::read`] makes the hub of
//! the calls that a journal has, and [`RecoveredHub::open`] the hub with that journal.
//!
//! | part | what it has |
//! |---|---|
//! | `journaled` | the hub and its journal: `apply` and `sync` |
//! | `call_batch` | the calls of the next lines of a journal |
//! | `recovery` | the hub of a journal |
//! | `fault` | why a journal gives no hub |
//! | `laws` | what a hub that is opened after a crash has in common with the one before |
//!
//! A journal is read piece by piece: while the calls of some batches are given to the hub, a thread of its own reads the calls of the
//! lines that come next. Beside the hub, memory is taken for what is read at once, twice, for one batch, and for the calls of both.
//!
//! Promised is, by the model of log_file: after a sync that is Ok, each crash leaves a file that has the line of each call of the
//! history, in order; a crash at any moment of the sync leaves the lines from before it, or all. Replies are written, by
//! [`JournaledHub::write_replies`], only where all of the history is on the disk. A hub that is opened has the calls of
//! the file's lines and no other, and the replies that these calls get on a new hub. So it has the history that was written, and a
//! message that had its reply before a crash gets the same one again.
#![tactic(auto)]

mod call_batch;
mod fault;
mod journaled;
mod laws;
mod lines;
mod recovery;
mod replay;

pub use fault::{JournaledRunFault, OpenFault};
pub use journaled::JournaledHub;
pub use laws::reopened_hub;
pub use recovery::RecoveredHub;
pub use replay::run_journaled;
