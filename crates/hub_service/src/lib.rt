//! A service: connection handlers serve whoever connects, one session after another each, by a few workers around one hub.
//!
//! [`run_service`] gives each handler a thread of its own, which serves the connections that come to it, and each worker a thread of
//! its own, which makes their calls on the shared hub. Handler `i` puts the jobs of its sessions into the lane of worker
//! `i mod workers`. When no more connections come and the last session has ended, the workers make the calls that are left in their
//! lanes and end too. [`run_journaled_service`] is such a service of one worker on the hub of a journal, which has a history.
//!
//! # What is promised
//!
//! `specs/Services.antt` says what a service leaves. Its hub is one that a single thread could have made, and its sum is how many
//! calls that hub's history has since the service began. For each handler there is a list of the sessions that it served, one after
//! another: each is what `session_lanes` says of a session. The handler's tally is what they were told, in their order.
//! [`settle_service`] compares the tallies with the history. [`sessions_in_order`] says what follows once they settle: each entry of
//! the history is of exactly one session, and those of a session stand in its order, each once. [`handlers_in_order`] says what was
//! taken of the jobs of a handler's sessions, and what was left. `specs/JournaledServices.antt` says what the journal has, and what a
//! crash at any moment leaves.
//!
//! No contract says that a call returns, that a connection is served, soon or at all, or that two workers run at once.
//!
//! | part | what it has |
//! |---|---|
//! | `service` | the service |
//! | `journaled` | the service with a journal |
//! | `settled` | a service whose tallies tell its history |
//! | `law` | what follows of a service |
#![tactic(auto)]

mod journaled;
mod law;
mod service;
mod settled;

pub use hub_serving::{Hooks, HubKeeper, NoKeeper};
pub use hub_threads::ThreadFault;
pub use journaled::{JournaledService, run_journaled_service};
pub use law::{handlers_in_order, sessions_in_order};
pub use service::{Service, run_service};
pub use settled::{SettledService, settle_service};
