//! Which trips of a hub are closed.
//!
//! A hub that is full goes on with what is still on its way, and leaves closed trips behind. [`find_closed_names`] finds the names of
//! these: names that a message has together are of one trip, and a trip is closed once all its wagons are delivered, none of its
//! offers is open, and all its items are acknowledged. [`are_closed`] tests such names, whoever found them.
//!
//! Contracts see [`ClosedNames`] as lists of names; all others are the names that stay, as `carry_over` has them (`names_but`). Nothing
//! is promised of what [`find_closed_names`] finds, so how it does so may change without a proof: by groups of names in trees that are
//! joined.
//!
//! | part | what it has |
//! |---|---|
//! | `closed_names` | the names |
//! | `sides` | whether a message names things on one side alone |
//! | `closed` | whether what is left behind is closed |
//! | `name`, `groups`, `finding` | how the names are found |
#![tactic(auto)]

mod closed;
mod closed_names;
mod finding;
mod groups;
mod name;
mod sides;

pub use closed::are_closed;
pub use closed_names::ClosedNames;
pub use finding::find_closed_names;
pub use sides::is_on_one_side;
