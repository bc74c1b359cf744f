//! Sessions and lanes: what the thread of a session does, and the queues by which its jobs reach a worker.
//!
//! A lane has an inbox of jobs for one worker. [`serve`] is what the thread of a session does: it puts the session's jobs
//! into a lane, by a pass of its own, and takes their answers from a queue of its own. A session puts into one lane alone, so
//! a worker finds its jobs in the order of its lines. [`serve_next`] serves one session after another by one pass, with one tally.
//! Nothing here depends on the hub: whoever has a lane's taking pass makes the calls. [`Work`] is what the thread of a worker has
//! and does, of whatever kind the worker is.
//!
//! [`make_lane_places`] makes the lanes ([`make_lanes`]), and hands out to the sessions ([`start_sessions`]) and to the workers
//! what they begin with. [`take_sessions`], [`take_passes`] and [`close_lanes`] take it back.
//!
//! # What is promised
//!
//! `specs/Ends.antt` says what the thread of a session gives back: how the session ended, by the lines that its reader had, the
//! jobs that it gave out and what was put of them, with its tally; and the same of a session that others were served before.
//! `specs/Lanes.antt` says which sessions fall to a lane, and what
//! it handed out and took back, and how many jobs it holds at most. `specs/Work.antt` says what the thread of a worker gives
//! back: its pass put nothing, and the kind of worker says the rest. Once the first thread may start, nothing here takes memory
//! but what the sessions themselves take: a lane has room for its passes, and what is taken back goes into lists that have room
//! for it.
//!
//! No contract says that a thread that waits is woken, nor what an [`AnswerQueue`] or an [`Opening`] holds. A worker whose lane
//! is empty and a session that waits for answers let others run a few times, and then sleep until they are woken: a worker by the
//! first job, and a session once all the answers that it waits for are there. Whoever has something else for a worker to do than a
//! job gives it a signal ([`JobQueue::signal`]).
//!
//! | part | what it has |
//! |---|---|
//! | `queues` | the queues between sessions and workers, and the signal to begin |
//! | `port` | a session's way to its worker |
//! | `ends` | what the thread of a session begins with and gives back |
//! | `next` | one session more on a lane, behind those that were served before it |
//! | `session` | what the thread of a session is lent, and what it does |
//! | `work` | what the thread of a worker has and does |
//! | `room` | lists with room, made before the threads start |
//! | `lane`, `places`, `closing` | lanes: how passes are handed out and taken back, and how lanes are closed |
#![tactic(auto)]

mod closing;
mod ends;
mod lane;
mod next;
mod places;
mod port;
mod queues;
mod room;
mod session;
mod work;

pub use closing::{Outcomes, close_lanes, take_passes, take_sessions};
pub use ends::{Served, SessionEnd, SessionStart};
pub use lane::{Lane, make_lanes, start_sessions};
pub use next::{SessionQueues, serve_next};
pub use places::{LanePlaces, make_lane_places};
pub use queues::{AnswerQueue, Arrival, JobQueue, Opening, push_to_session};
pub use room::with_room;
pub use session::{SessionContext, serve};
pub use work::Work;
