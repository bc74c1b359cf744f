//! The worker of a shift with a journal: it alone has the hub, and it answers no job before its call is on the disk.
//!
//! A [`JournalWorker`] has the hub of a journal, and the taking pass of the one lane. It waits for a job, takes all that are
//! there with it, makes their calls, puts them on the disk by one sync, and then answers their sessions. While it syncs, further
//! jobs come into the lane: the next batch is larger, so many sessions share one sync.
//!
//! # What is promised
//!
//! `specs/Work.antt` says what a worker gives back. Its history grew by the calls of the jobs that it took, in their order, each
//! with the reply that is the model's there; the answers that it made are these positions and replies. Unless a call of the file
//! failed, all of the history is on the disk. A crash at any moment of its work leaves a file that stands for a front of the
//! history, and this front has at least the calls that were there when it began. The same holds from each batch on, since what
//! follows a batch is the work of a worker that begins there: so what was answered stays.
//!
//! Only [`JournalWorker::answer_sessions`] gives answers to sessions, and it may be called only where they are answers to jobs whose
//! calls are in the history, all of which is on the disk. Where a call of the file fails, the answers of that batch are dropped, all
//! queues of answers are ended, and the worker takes no job any more.
//!
//! Who looks at the hub meanwhile leaves a question ([`PendingLook`], by [`JournalLooks`]), which the worker answers between two
//! batches: what is seen is of a hub all of whose calls are on the disk.
#![tactic(auto)]

mod looks;
mod worker;

pub use looks::{Exchange, JournalLooks, PendingLook, Question, Seen, see};
pub use worker::JournalWorker;
