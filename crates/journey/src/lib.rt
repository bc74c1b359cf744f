//! The journey of one wagon: its events since its last plan, and what they come to.
//!
//! A message may name many wagons. What it says of one of them is an [`Event`]: its sender, its number, its moment
//! where it has one, and an [`EventBody`]. A journey is the list of a wagon's events, oldest first; the first is its
//! plan (Regulation (EU) No 1305/2014, Annex, 4.2.7 and 4.2.8). All that a further event is judged by is read off
//! the events by the definitions of `specs/`:
//!
//! | | read off the events | definition |
//! |---|---|---|
//! | stage | the last event that leads to one | `Stages.stage` |
//! | leg index | how many railways received the wagon | `Stages.leg_index` |
//! | legs | the plan's, with later routes and times of legs | `Legs.legs` |
//! | responsible railway | the last that took the wagon over, from departure to delivery | `Stages.responsible` |
//! | place | where the legs begin or end, or the yard, by the stage | `Legs.place` |
//! | next event | the first check that refuses it, in the order of the rules | `Checks.refusal` |
//!
//! - [`Track`] is a wagon with the events of its journey, and contracts see it as these (`specs/Journey.antt`).
//!   [`Track::open`] begins it with a plan, [`Track::admits`] says why an event may not come next, and
//!   [`Track::add`] adds one that may. Where memory is refused, a track is as it was.
//! - [`Track::take_back`] takes the newest event back, by what [`Track::state_before`] gave before it came: the state without the
//!   legs, which few events change, and the legs where the event changes them ([`EarlierState`]).
//! - [`JourneyState`] is what the events come to. A track keeps it beside them, so that no call but
//!   [`Track::events`] leads to a walk: stage, leg index, legs, responsible railway, place and checks take no more
//!   than a look at it. [`Track::state_after`] gives what they come to with one event more.
//! - [`Legs`] are the one to eight legs of a wagon, kept in place.
//!
//! The legs are defined from event to event. [`legs_are_what_the_newest_event_sets`] is the law that they are what a
//! rule over all events says (`specs/NewestLegs.antt`).
//!
//! Promised: each answer is that of the definitions over the track's own events, for every journey. A wagon is
//! always on one of its legs, of which there are at most eight. Only `open` and `add` take memory.
#![tactic(auto)]

mod checks;
mod earlier_state;
mod event;
mod journey_state;
mod laws;
mod legs;
mod track;

pub use earlier_state::EarlierState;
pub use event::{Event, EventBody};
pub use journey_state::JourneyState;
pub use laws::legs_are_what_the_newest_event_sets;
pub use legs::Legs;
pub use track::Track;
