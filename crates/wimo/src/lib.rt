//! Records of the wagon and intermodal unit operational database (Regulation (EU) No 1305/2014, Annex, 4.2.11).
//!
//! - [`record_of`] makes the record of a wagon from its track: the plan's terms, the stage, status and place, the leg
//!   index, the responsible railway, the estimates with the time of arrival and whether it is late, the events, and the
//!   intermodal units that the plan loads on this wagon (`specs/Records.antt`). [`record_with`] makes the same for a
//!   caller that has the track's estimates.
//! - [`may_see`] says whether a railway may see it: the lead and the railways of the legs may.
//!
//! | stage | status, loaded | status, empty |
//! |---|---|---|
//! | planned, released | loading | fleet control |
//! | running, in yard, offered, arrived | loaded on journey | empty on journey |
//! | delivered | unloading | fleet control |
//!
//! Promised: the record is exactly the one that the definitions give for the track's events. `record_of` and
//! `record_with` take memory for their lists, and `may_see` none.
#![tactic(auto)]

mod record;

pub use record::{may_see, record_of, record_with};
