//! A hub that goes on without the trips that are closed.
//!
//! [`carry_over`] gives a new hub, whose calls are in a journal, the messages of an old hub that stay, in their order, and behind
//! them an acknowledgement of each railway. Which names stay, `closed_trips` finds.
//!
//! Promised is, where it is Ok: what is left behind is closed, the new hub knows and replies the same of what stays, whatever comes
//! then, and each railway has the same unacknowledged items (`specs/Carried.antt`). This follows from the laws of `carry_over` and
//! from what is looked at here: that each message names things on one side alone, and the items of both hubs, one by one.
//!
//! | part | what it has |
//! |---|---|
//! | `carrying` | the new hub |
//! | `calls` | the messages that stay, and the acknowledgements |
//! | `items` | whether two hubs have the same items for their railways |
//! | `fault` | why a hub is not carried over |
#![tactic(auto)]

mod calls;
mod carrying;
mod fault;
mod items;

pub use carrying::carry_over;
pub use fault::CarryFault;
