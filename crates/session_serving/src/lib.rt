//! A session between a reader, a writer and a port: its lines are read, its jobs are sent, and what
//! it says is written.
//!
//! [`serve_session`] serves a session of `session_lines` until its reader's end. The [`Port`] takes
//! the session's jobs and gives their answers, in whatever way it has them made: by threads behind
//! a queue, or at once. What serving promises is defined in `specs/Serving.antt`, and by which
//! failures each [`SessionFault`] comes in `specs/Faults.antt`.
//!
//! It reads only while no job is out, so the reader may wait. What is said is gathered, and written
//! before the reader is asked, before it waits for an answer, and where 65,536 bytes are pending.
//! Answers that are there already ([`Port::is_ready`]) are taken first, and where it waits, it waits
//! until the jobs that are out are answered ([`Port::wait_for`]). So many answers take one write, and
//! none that was taken is kept back while the session waits.
//!
//! For a session it takes 131,073 bytes of memory at the beginning, 65,537 of them for a line and
//! 65,536 for what is pending, and 16,384 bytes of the stack for what is read at once; beside these
//! the session's own sixteen slots, and the answer and its line that are at hand.
//!
//! | part | what it does |
//! |---|---|
//! | `port`, `fault` | the port, and why serving ends early |
//! | `output` | lines on their way to the writer |
//! | `lines` | lines cut from what was read |
//! | `answers` | answers taken from the port |
//! | `chunk` | what was read at once |
//! | `ending` | what is still done after a fault |
//! | `serve` | from the reader's first byte to its end |
#![tactic(auto)]

mod answers;
mod chunk;
mod ending;
mod fault;
mod lines;
mod output;
mod port;
mod serve;

pub use fault::SessionFault;
pub use port::{Port, PortFault};
pub use serve::serve_session;
