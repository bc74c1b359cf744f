//! The board of a hub that is served: on a port of 127.0.0.1 it shows the page and the wagons of railways to browsers.
//!
//! [`BoardServer::bind`] listens, before the hub is served. [`BoardServer::serve`] answers requests by looks at a hub that others call
//! meanwhile (`board_answers`, `board_connections`), until any thread calls [`BoardServer::end`]. [`BoardKeeper`] is what a shift is lent
//! for it: its hub is looked at in a thread of its own.
//!
//! No contract says that a client is answered, or that serving ends. What an answer may be says `board_answers`.
//!
//! | part | what it has |
//! |---|---|
//! | `server` | the board of a hub |
//! | `numbers` | the numbers of the server: its sessions, its memory and the time |
//! | `process` | the memory of the process |
//! | `keeper` | the board beside a shift |
#![tactic(auto)]

mod keeper;
mod numbers;
mod process;
mod server;

pub use keeper::BoardKeeper;
pub use server::BoardServer;
