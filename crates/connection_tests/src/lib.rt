//! Tests of `accept_queue`, over loopback, of `railway_keys`, and of the board, by its answers (`board`) and over loopback
//! (`board_requests`). There is nothing else here.
//!
//! A service whose handlers write back what they read is run by threads of its own, and clients connect to it: one for which there is no
//! handler is told so, 300 come one after another and each is served, one that is silent is cut off, a request of HTTP gets nothing, and
//! where there are keys one without its key is told so and given no session. What clients do is written as scripts, which one function
//! plays. Once the service ends, sessions end, those that do not are cut off, and nobody can connect any more. After each number of
//! sessions as many files are open as before.
//!
//! Keys are tested over memory: their digests and files, and what the guard before a session lets through.
#![tactic(auto)]

#[cfg(test)]
mod board;
#[cfg(test)]
mod board_requests;
#[cfg(test)]
mod ending;
#[cfg(test)]
mod keys;
#[cfg(test)]
mod limits;
#[cfg(test)]
mod script;
#[cfg(test)]
mod service;
#[cfg(test)]
mod sessions;
