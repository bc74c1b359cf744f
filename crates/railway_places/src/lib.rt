//! Where railways were found last in a table, so that a table that is asked for the same railways again and again finds most of
//! them without a look-up.
//!
//! [`RailwayPlaces`] has 64 slots, and each railway has one of them by its code. A slot holds the place that was noted last for a
//! railway of this slot, so [`RailwayPlaces::place`] may give the place of another one. It is a help only: who uses it compares
//! the railway that is at the place with the one that is looked for, and looks it up where another is there. So nothing that a
//! table promises rests on these places.
//!
//! In contracts the value is the list of its places, and `slot_of` (`specs/Slots.antt`) gives the slot of a railway.
#![tactic(auto)]

mod places;

pub use places::RailwayPlaces;
