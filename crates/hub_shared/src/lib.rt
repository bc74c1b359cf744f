//! One hub for many threads: the value behind its lock, the seats by which threads call it, and the tallies that settle
//! what they were told.
//!
//! [`Booked`] is the hub with a book, a number that is the length of the hub's history. Whenever the lock is free, the
//! stored replies are those that one thread gets for the stored calls. A [`Seat`] is the right of one thread to call the
//! hub; it counts the calls that were answered and those that met a fault. [`SharedHub::submit`] takes the lock and makes
//! one [`serve_one`]. When all seats are given back, [`SharedHub::close`] gives the hub and the sum of their counts, which
//! is the length of its history.
//!
//! Who only looks makes no call, and nothing is entered: [`SharedHub::look_at_fleet`] and [`SharedHub::look_at_wagon`] show what the
//! model gives after some history that one thread could have made, and [`SharedHub::look_at_refusals`] why calls of it were refused
//! (`specs/Looks.antt`). [`HubLooks`] is what looks at a hub, whoever has it.
//!
//! A thread that takes the lock knows nothing of the calls before its own. So no contract of `submit` can say that its
//! answer is still in the history at the end. This is checked at the end: each session notes in a [`Tally`] what it was
//! told, and [`settle`] compares the tallies with the history, beside the entries that it had before these sessions.
//!
//! | part | what it has |
//! |---|---|
//! | `booked` | the value behind the lock, and one call on it |
//! | `seat` | the right to call, with its counts |
//! | `shared` | the lock |
//! | `looks` | looks at the hub, which make no call |
//! | `refusals` | looks at why calls were refused |
//! | `settling` | the comparison of tallies and history |
//! | `law` | the order of a session's entries in a history that is told |
#![tactic(auto)]

mod booked;
mod law;
mod looks;
mod refusals;
mod seat;
mod settling;
mod shared;

pub use booked::{Booked, serve_one};
pub use law::told_sessions_interleave;
pub use looks::{
    HubCounts, HubLooks, LookFault, OwnLooks, SharedLooks, WagonLook, counts_of, look_at_fleet,
    look_at_wagon,
};
pub use refusals::look_at_refusals;
pub use seat::{Seat, split_seat};
pub use settling::{SettleFault, Settled, settle};
pub use shared::SharedHub;
pub use tallies::{Tally, Told};
