//! The server that is open: a service for whoever connects, until an input ends.
//!
//! [`serve_open`] runs a service whose connection handlers take the connections of an accept queue (`accept_queue`, `hub_service`), into
//! which a thread of its own puts those that it accepts. The calling thread reads its input to the end, and then ends the service in
//! order: no connection is accepted any more, sessions answer what has come, and what is left of them after a grace is cut off. Then the
//! tallies of the handlers are settled against the hub's history. [`serve_open_journaled`] serves on the hub of a journal, by one
//! worker, and settles the calls since.
//!
//! # What is promised
//!
//! Where it gives a service, that is a service of so many connection handlers and workers, and its history is told by the handlers'
//! tallies. `specs/Settled.antt` says the rest of it: the history has the answers of each session's jobs and is an interleaving of what
//! the sessions were told, and each lane has the jobs of its handlers' sessions in order, as the laws of `hub_service` define both. Each
//! fault has its kind ([`ServerFault`]); that the service did not settle is answered only of one that did not. Where a service with a
//! journal is given, all calls of its history are in the journal, on the disk; that a call of the journal's file failed is answered only
//! where one did.
//!
//! Nothing is promised of what a connection carries, nor that a client is served, soon or at all, nor that the service ends.
//!
//! | part | what it has |
//! |---|---|
//! | `listening` | what a service listens by |
//! | `acceptor` | the thread that accepts connections |
//! | `keeper` | what goes on beside the connection handlers: the input is read, and the board looks at the hub |
//! | `handlers` | what brings the connections to the handlers |
//! | `server` | the service, settled |
//! | `journaled_server` | the same with a journal |
#![tactic(auto)]

mod acceptor;
mod handlers;
mod journaled_server;
mod keeper;
mod listening;
mod server;

pub use hub_service::SettledService;
pub use journaled_server::{SettledJournaledService, serve_open_journaled};
pub use listening::Listening;
pub use server::serve_open;
pub use server_faults::ServerFault;
