//! The connections of a listener: one for each session of a shift, with its two ends.
//!
//! [`ends_of`] gives a reader and a writer of each. The first read of a session's reader accepts its connection, by the [`Acceptor`]
//! that all of them share: so a client is served as soon as it is there. What is served over them is described in the crates above:
//! this one knows nothing of the hub.
//!
//! A browser connects to any port of its machine that a page names, and sends there a request of HTTP with lines that the page has
//! chosen. So a [`RequestGuard`] stands before each reader: where the first bytes are a method of HTTP and a blank, it is at its end.
//!
//! # What is promised
//!
//! There is a reader and a writer for each session. A guarded reader gives the bytes of its reader, all and in
//! order, where they do not begin with a request, and none where they do (`specs/Requests.antt`). Nothing is promised of what a
//! connection carries, nor that a client connects, reads or sends.
//!
//! | part | what it has |
//! |---|---|
//! | `acceptor` | the listener, and how many connections are still to come |
//! | `connections` | connections accepted by their readers, and their two ends |
//! | `guard` | the guard against requests of HTTP |
//! | `incoming` | what brings connections to a connection handler |
#![tactic(auto)]

mod acceptor;
mod connections;
mod guard;
mod incoming;

pub use acceptor::Acceptor;
pub use connections::{ConnectionReader, ConnectionWriter, Ends, ends_of};
pub use guard::RequestGuard;
pub use incoming::Connections;
