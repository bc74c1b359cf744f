//! Sessions and workers that take turns in one thread, in an order that is drawn from a seed. Nothing but tests and
//! benchmarks uses it.
//!
//! A schedule draws from its seed how many connection handlers and workers there are, up to 64 and 8, how many sessions each
//! handler serves, one to four one after another, which lines each of them reads, how many places each lane has, and then who
//! goes on, turn by turn. A session reads a line, puts its job into its lane, takes an answer, or says a line that it held; a
//! worker has the hub answer a job. Sessions, tallies, hub and settling are those of the program; lanes and queues are lists. A
//! lane may be full, memory may be refused to a session or to the hub, a connection may break, a session may take no answer any
//! more, and an answer may be a stranger's.
//!
//! A handler goes on with the next session, which has the tally of the one before, once no job is out. Where a connection breaks,
//! its session reads no more, and its jobs that are out are answered. Its railway may have missed any number of the last
//! answers. It may come back to the handler that is free first, while those jobs are still out, and sends its hello and
//! the lines again to which it has no answer. After a stranger's answer, and where a session takes no answer any more, the
//! handler serves no more.
//!
//! At the end each session, by itself, has to have said what one says that reads the same lines in lock step, with each answer
//! directly after its job, but for lines that say that memory was refused where it was scarce. A handler's tally has to be that
//! of its sessions in lock step, one after another, with an entry for each answer that they took. All tallies together have to
//! settle where each answer of the hub was told, and not to settle where one was not. A message that was sent again, in whatever
//! session, has to have got the reply that it got before.
//!
//! | part | what it has |
//! |---|---|
//! | `draws`, `lines`, `scarcity` | what is drawn: numbers, the lines of sessions, when memory is scarce |
//! | `lane`, `answer`, `scheduled_session`, `scheduled_handler` | the lane of a worker, the answers that a session took, a session, its handler |
//! | `schedule` | one schedule |
//! | `lock_step`, `first_replies` | the same lines in lock step, the same replies to the same messages |
//! | `counts`, `fault` | how much was tried, and what is found wrong |
//! | `seeds` | schedules of many seeds |
#![tactic(auto)]

mod answer;
mod counts;
mod draws;
mod fault;
mod first_replies;
mod lane;
mod lines;
mod lock_step;
mod scarcity;
mod schedule;
mod scheduled_handler;
mod scheduled_session;
mod seeds;

pub use counts::Counts;
pub use fault::{ScheduleFault, SeedFault};
pub use seeds::run_seeds;
