//! The accept queue of a service to which clients come and go: one thread accepts connections, a bounded queue keeps those that wait,
//! and connection handlers take them, oldest first.
//!
//! A thread runs [`accept_connections`]. Each connection handler has [`QueuedConnections`] of its own ([`handlers_of`]), which implement
//! `connections::Connections`: it is given the reader and the writer of one connection after another, and serves each to its end. A
//! connection for which no handler is free in time is told `{"fault":"full"}` and a newline, and closed. [`end_service`], called by
//! any other thread, ends all: no connection is accepted any more; the sessions that are under way are given what has come of their
//! clients and then the end of it, and what is left of them after a grace is cut off.
//!
//! # What is promised
//!
//! In the queue there wait no more connections than its limits say ([`Limits`]), and for each handler one handle is kept, at most 64. A
//! connection that is put stands behind those that wait; it comes back exactly where there is no room, and once the queue is closed. A
//! handler takes the one that has waited longest, which is in the queue no more, so it is given to no other; there is none exactly where
//! none waits. Only one that has waited for its limit is taken out as late. Closing changes nothing else (`specs/Queues.antt`). What a
//! session reads is what its connection gives, or nothing where that begins with a request of HTTP
//! (`specs/Guards.antt` of `connections`).
//!
//! Memory is taken by [`AcceptQueue::new`] and [`handlers_of`] alone. Of a connection three handles are kept while it waits; once its
//! handler asks for the next, or is dropped, nothing is kept of it.
//!
//! Nothing is promised of times, nor that a connection is accepted, served or told anything: a call that waits owes no return. A client
//! that sends a byte now and then is not silent, and keeps its handler.
//!
//! | part | what it has |
//! |---|---|
//! | `limits` | how many connections are served and wait, and how long anything may take |
//! | `connection` | a connection by its handles, and how one is refused |
//! | `counts` | how many connections are served, and how many wait |
//! | `state` | the connections that wait, and a handle of each that is served |
//! | `queue` | the same, shared by threads |
//! | `reader` | the reader of a session, whose client may be silent only so long |
//! | `handler` | the connections that a handler serves |
//! | `acceptor` | accepting connections, and the end of a service |
#![tactic(auto)]

mod acceptor;
mod connection;
mod counts;
mod handler;
mod limits;
mod queue;
mod reader;
mod state;

pub use acceptor::{accept_connections, control_of, end_service};
pub use counts::QueueCounts;
pub use handler::{QueuedConnections, SessionReader, SessionWriter, handlers_of};
pub use limits::Limits;
pub use queue::AcceptQueue;
pub use reader::TimedReader;
