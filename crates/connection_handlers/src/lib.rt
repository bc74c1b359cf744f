//! Connection handlers: each serves sessions one after another, by one pass of a lane and with one tally.
//!
//! A handler takes the next connection that [`connections::Connections`] brings, serves its session to its end as `session_lanes` serves one,
//! and takes the next. A railway whose connection broke comes back to whichever handler is free, as a session of its own.
//!
//! # What is promised
//!
//! `specs/Handlers.antt` says what the thread of a handler gives back. There is a list of sessions, one for each connection that it
//! served. Each is a session of the handler's number that ended as said, with the tally that its lines and the answers to its own
//! jobs make of it, and with its own jobs put. The handler's tally is what they were told, one after another, and its pass put what
//! they put, and took nothing.
//!
//! Nothing is kept of a session but what it was told. So a session that makes no call takes no memory once it has ended, and what a
//! handler keeps is bounded by the hub's history.
//!
//! No contract says that a connection is served, soon or at all, or that each that comes is.
//!
//! | part | what it has |
//! |---|---|
//! | `handler` | what the threads of handlers do |
#![tactic(auto)]

mod handler;

pub use handler::ConnectionHandlers;
