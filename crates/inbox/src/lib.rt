//! The queue of jobs between sessions and workers: bounded, shared by threads, and without a lock.
//!
//! A [`Job`] is a call of a session, with its number in the session. [`Inbox::new`] makes an empty [`Inbox`] and its first
//! [`Pass`]. A pass is the right of one thread to put jobs and to take them; [`Inbox::split_pass`] makes one more.
//! Contracts see of a pass the list of jobs that it put and the list that it took. [`Inbox::close`] asks for all passes,
//! and gives what is [`Left`].
//!
//! # What is promised
//!
//! After `close`, some list `T` of jobs is an interleaving of what the passes took, and `T` followed by what is left is an
//! interleaving of what the passes put. So no job is lost, none is taken twice, none is taken that was not put, and the
//! jobs of one pass are taken in the order in which it put them. Where one pass takes all jobs, and a session puts by a
//! pass of its own, [`lane_in_order`] says what follows for the session's jobs.
//!
//! The queue changes by these steps and no other; each changes what is known of the one pass that makes it.
//!
//! | step | made by |
//! |---|---|
//! | the first pass is made | `Inbox::new` |
//! | a pass is split in two | `Inbox::split_pass` |
//! | a job is put | `Inbox::put` |
//! | a put finds the queue full | `Inbox::put` |
//! | a job is taken | `Inbox::take`; once the inbox is closed, `close` itself and `Left::next` |
//! | a take finds the queue empty | the same |
//! | two passes are joined | `Inbox::close` |
//!
//! Only [`Inbox::new`] takes memory. Any call may wait for a step of another thread, and no contract says that it returns.
//! The promise is for fewer than 2^62 puts.
#![tactic(auto)]

mod law;
mod left;
mod pass;
mod queue;
mod rule;

pub use law::lane_in_order;
pub use left::Left;
pub use pass::Pass;
pub use queue::Inbox;
pub use rule::Job;
