//! The lines of a session: what it says to each, and the jobs that it gives out. It knows no threads, readers or
//! writers.
//!
//! A [`Session`] takes lines and the answers to its jobs ([`Done`]), and says lines. Its first hello that is good
//! gives it its railway; from then on each line that is a call of that railway becomes a job. Up to [`WINDOW`] jobs
//! may be out, so a railway need not wait for one answer before it sends its next call. A line that is said while a
//! slot is taken waits in a slot of its own until those before it are said, so answers stand in the order of the
//! lines.
//!
//! What a line means is defined in `specs/Meanings.antt`, and what a session means in `specs/LockStep.antt`: there
//! each job is answered before the next line. [`windows_are_lock_step`] says that lines and Dones may come mixed in
//! any order and mean the same, [`tallies_are_own`] that the tally of a session has exactly the answers to its own jobs, and
//! [`each_line_is_answered`] that each line that is not blank has one answer.
//!
//! A session takes memory to read a line, for its slots before its first job, to keep a copy of each call whose job
//! is out, for the tally, and for the lines that it says, but for those of a fault without a field. Where memory is
//! refused it says so in place of what it would have said. A job is given out only once its call is kept and its
//! place in the tally is reserved.
//!
//! | part | what it has |
//! |---|---|
//! | `fault`, `line` | the lines that are said |
//! | `meaning` | what a line means to a session |
//! | `session` | the session with its slots |
//! | `law` | the laws of windows, of tallies and of answers |
#![tactic(auto)]

mod fault;
mod law;
mod line;
mod meaning;
mod session;

pub use fault::LineFault;
pub use law::{each_line_is_answered, tallies_are_own, windows_are_lock_step};
pub use line::Line;
pub use session::{Done, Session, Slot, Step, WINDOW};
