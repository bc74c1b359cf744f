//! Workers: what the thread of a worker does, and what the threads of sessions and workers begin with.
//!
//! A worker has a lane of `session_lanes`, with its one taking pass. [`work`] is what its thread does, as its
//! `session_lanes::Work` says: it takes the jobs of its lane, makes their calls on the shared hub, and answers their sessions. A
//! session puts into one lane alone, so its calls are made in the order of its lines.
//!
//! [`make_places`] hands out to all threads what they begin with. [`close_hub`] closes the hub by the seats that the workers had,
//! and gives back their passes.
//!
//! # What is promised
//!
//! `specs/Work.antt` says what a worker gives back: that it put nothing, and that it counted a call or a fault for each job
//! that it took, and `specs/Counts.antt` what is said of all workers. [`make_call`] makes the call of one job: its Done has the session and the index of the job, and the answer to
//! the job's own call.
//!
//! No contract says that a worker that waits is woken, nor that a Done reaches its session: an `AnswerQueue` promises nothing of
//! what it holds. A worker whose lane stays empty sleeps until it is woken.
//!
//! | part | what it has |
//! |---|---|
//! | `gate` | what a job passes before it takes the lock |
//! | `worker` | what the thread of a worker is lent, and what it does |
//! | `places`, `closing` | how passes and seats are handed out, and what comes back of them |
#![tactic(auto)]

mod closing;
mod gate;
mod places;
mod worker;

pub use closing::{ClosedHub, WorkerParts, add_refused, close_hub, split_workers};
pub use gate::{Gate, OpenGate};
pub use places::{Places, make_places};
pub use worker::{SharedContext, Worker, make_call, work};
