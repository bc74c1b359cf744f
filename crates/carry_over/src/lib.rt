//! What stays the same where closed trips are left behind.
//!
//! A hub that is full goes on with what is still on its way. An operator divides the names of wagons, consignments, intermodal
//! units and messages: those of closed trips, and all others, which stay. From the list of calls alone, oldest first, the
//! definitions in `specs/` say what that is:
//!
//! - `Names`: a set of names, the messages of these names, and when a set divides the calls: each message names things on one
//!   side alone;
//! - `Carried`: what is looked up of these names, the calls that concern them, the items that their messages made, and what of
//!   all that stays the same;
//! - `Acknowledged`: the calls with which a new hub goes on, and what each railway has not acknowledged.
//!
//! There is no code here. The functions do nothing when they are called: the contract of each is a law of the definitions, for
//! all calls that can come.
#![tactic(auto)]

mod laws;

pub use laws::{hubs_can_go_on, others_can_be_left_behind, others_do_not_matter};
