//! The chain of estimates of a wagon: when it is expected at the end of each of its legs (Regulation (EU)
//! No 1305/2014, Annex, 4.2.6).
//!
//! The estimates are counted from the newest anchor, which is a release, a departure, a reported estimate, a reception,
//! an arrival or a delivery. The current leg ends at the anchor's moment or, after a release, a departure or a
//! reception, once the minutes of the leg have passed since. Delays after the anchor and the minutes of later legs come
//! on top (`specs/Estimates.antt`). The estimate of the last leg is the estimated time of arrival, which is compared
//! with the moment to which the plan committed.
//!
//! [`Estimates`] are those of one track, whose legs they borrow, or own once they follow an event. Contracts see them as the
//! `estimates_state` of the track's events: what they are counted from, which is the leg index, the legs and the newest anchor with
//! the delays since, and the committed moment (`specs/EstimateStates.antt`). [`EstimateAnchor`] is what is kept for them beside a
//! track: the anchor and the commitment alone.
//!
//! - [`Estimates::fits`] says whether no estimate of a track passes 2199-12-31T23:59Z. [`Estimates::of`] and
//!   [`EstimateAnchor::of`] walk its events.
//! - [`EstimateAnchor::estimates`] gives the estimates of a track without a walk. [`EstimateAnchor::add`] adds an event to the track
//!   and goes on with it.
//! - [`Estimates::follow`] goes from the estimates of a track to those of the track with one event more.
//!   [`Estimates::would_pass_calendar`] says beforehand whether one would pass the calendar.
//! - [`EstimateAnchor::estimates_by`] gives those by a leg index and legs, which may be kept from before an event.
//! - [`Estimates::estimate`], [`Estimates::eta`], [`Estimates::late`] and [`Estimates::late_by`] read them.
//!   [`EstimatesInTurn`], by [`Estimates::in_turn_from`], gives those of the legs from one on, one after another, and then the
//!   estimated time of arrival, by which [`Estimates::is_late_with`] says whether the wagon is late without another sum.
//!
//! Promised: each answer is that of the definitions over the track's events, and what `add` keeps is what `of` would
//! give. Only `add` takes memory. Sums are made in 128 bits: fewer than 2^64 events delay a wagon by at most 100,000 minutes
//! each, and eight legs take less than 2^32 minutes each, so that no sum overflows.
#![tactic(auto)]

mod anchor;
mod basis;
mod estimate_anchor;
mod estimates;
mod estimates_in_turn;
mod held_legs;

pub use estimate_anchor::EstimateAnchor;
pub use estimates::Estimates;
pub use estimates_in_turn::EstimatesInTurn;
