//! Offers of wagons at interchange (4.2.8).
//!
//! A railway offers wagons of a train to the next railway by a message, and the offer goes by the name of that message, its
//! sender and its number. It is open until it is answered or withdrawn, and an answer must name each of its wagons exactly
//! once and no other ([`Offer::matches`]). A closed offer is still found, since messages go on to name it.
//!
//! In contracts [`Offers`] is the list of the offers that were made, each under its name and open or closed, and `spare`,
//! the number of offers that can be made without memory (`specs/OfferTable.antt`). What must not fail is done in two steps:
//! [`Offers::reserve`] first, which may be refused, and [`Offers::open_reserved`], which may not.
#![tactic(auto)]

mod answered;
mod closing;
mod offer;
mod offers;

pub use offer::Offer;
pub use offers::Offers;
