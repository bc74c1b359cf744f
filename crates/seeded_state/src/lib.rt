//! How the hub's tables hash: by the fast hasher of the toolchain, which begins from a seed.
//!
//! The keys of the tables come from those who send records. Where a table hashes alike in each run, whoever knows the hasher can
//! choose keys that all fall into one part of the table, and each look-up goes through them. [`SeededState::drawn`] draws a seed from
//! the system when the program starts, so nobody knows beforehand which keys these are. [`SeededState::fixed`] is the same in
//! each run: it serves tests and measurements.
//!
//! # What is promised
//!
//! Hashing by one of these is a function of the key, as a table requires. What a table answers depends on no seed: its contracts
//! are of its keys and values alone. No contract says how well a seed spreads the keys.
#![tactic(auto)]

mod state;

pub use state::SeededState;
