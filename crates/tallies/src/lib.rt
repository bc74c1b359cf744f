//! What calls are answered, as sessions note it.
//!
//! [`HubFault`] says why a hub took no call. [`Told`] is a call that was answered: its position in the history and its
//! reply. A session notes what it was told in its [`Tally`], in order, and at the end the tallies of all sessions are
//! compared with the history. Sessions need no more of the hub than this, so their crates stand beside the hub's.
#![tactic(auto)]

mod fault;
mod tally;

pub use fault::HubFault;
pub use tally::{Tally, Told};
