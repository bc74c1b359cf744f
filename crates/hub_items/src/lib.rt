//! What an accepted message makes for the railways (4.2.6, 4.2.7, 4.2.8).
//!
//! [`put_items`] puts the items of an accepted message into a list that is lent, each with the railway that it goes to,
//! in the order in which they go into the outboxes:
//!
//! 1. the notices: the message itself, once to each railway that it concerns;
//! 2. for an answer that received wagons, the sub notice to the infrastructure manager that it names;
//! 3. of each wagon of the message, the estimates that are news: each to the railway of the next leg, or for the last
//!    leg to the lead;
//! 4. of each wagon of the message, the alert that begins or ends: to the lead, and to the railway that answers for it.
//!
//! None goes to the sender of the message. Nothing is changed: in the tables the journeys of the message's wagons have gone on by
//! it, and what was kept of them before is lent, each with its wagon's position. So what is news is found by comparing both.
//! Where the estimates of a wagon are counted from the same leg, legs and anchor as before, none is news, and no alert of it begins
//! or ends. Otherwise the estimates of its last leg, before and with the message, tell whether one does. The list is empty before
//! the items are put, and keeps its memory: so one that is lent again for the next message mostly takes no more.
#![tactic(auto)]

mod acceptable;
mod alerts;
mod each;
mod estimates;
mod item_list;
mod notices;
mod receivers;
mod wagon_change;
mod wagons;

pub use item_list::put_items;
