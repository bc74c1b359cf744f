//! The server: a shift over connections.
//!
//! [`serve_connections`] has a connection accepted for each session of the shift, as the session begins (`connections`): its lines
//! come by the connection, and their answers go out by it. All of them are served by one shift, with as many workers as its size
//! says; then the tallies of the sessions are settled against the hub's history.
//! [`serve_journaled_connections`] serves them on the hub of a journal, by one worker, and settles the calls since.
//!
//! # What is promised
//!
//! Where it gives a shift, that is a shift of so many sessions and workers, and its history is told by the sessions' tallies.
//! `specs/Settled.antt` says the rest of it: the history has the answers of each session's jobs and is an interleaving of what the
//! sessions were told, and each lane has its sessions' jobs in order, as the laws of `hub_shifts` define both. Each fault has its
//! kind ([`ServerFault`], of `server_faults`); that the shift did not settle is answered only of one that did not. Nothing is promised of what a
//! connection carries, nor that a client reads or sends. Where a shift with a journal is given, all calls of its history are in the
//! journal, on the disk; that a call of the journal's file failed is answered only where one did.
//!
//! | part | what it has |
//! |---|---|
//! | `server` | the shift over them, settled |
//! | `journaled_server` | the same with a journal |
#![tactic(auto)]

mod journaled_server;
mod server;

pub use hub_shifts::{HubKeeper, NoKeeper, SessionEnd, SettledShift};
pub use journaled_server::{SettledJournaledShift, serve_journaled_connections};
pub use server::serve_connections;
pub use server_faults::ServerFault;
