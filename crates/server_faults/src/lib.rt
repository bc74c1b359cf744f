//! Why those who connected came to no settled shift or service.
//!
//! The crates that serve connections answer with a [`ServerFault`], of a shift and of a service alike. That the history is not told by
//! the tallies keeps in which respect it is not. What was served with a journal is settled only where the journal is sound
//! ([`sound_journal`]).
#![tactic(auto)]

mod fault;
mod sound;

pub use fault::ServerFault;
pub use sound::sound_journal;
