//! What the hub answers from its tables, which stay as they are.
//!
//! - [`ask`] and [`ask_unit`] give a railway the record of a wagon, found by its number or by an
//!   intermodal unit on it (4.2.11).
//! - [`deviation`] gives the lead railway of a consignment the records of those wagons that are
//!   expected after what was promised to the customer (4.2.6).
//! - [`view_part`] gives the records of wagons in the order of their first plans, all or some in a row, and [`shown_part`] those of
//!   them that a railway may see, with the legs of their journeys.
//! - [`apart`] tells whether two messages share nothing, so that they may come in either order.
//!
//! | asked for | refused as | where |
//! |---|---|---|
//! | a wagon | `UnknownWagon` with the wagon | no accepted plan names it |
//! | | `NotYours` with the wagon | the railway neither leads its plan nor runs one of its legs |
//! | a unit | `UnknownUnit` | it has no wagon |
//! | | `NotYours` | the railway may not see the unit's wagon |
//! | deviations | `UnknownConsignment` | no accepted plan has the consignment |
//! | | `NotYours` | the railway doesn't lead the plan |
//!
//! Promised: for all tables each call gives exactly what `hub_model` defines by the same name, at
//! the `table_state` of the tables (`hub_tables`). [`Memory`](taf_codes::Memory) may come in place
//! of a reply or of records, and no other error. [`apart`] takes no memory. That
//! messages which are apart get the same replies in either order is a law of `hub_model`.
#![tactic(auto)]

mod affected;
mod asking;
mod deviations;
mod fleet;
mod law;
mod overtaking;
mod shown;

pub use asking::{ask, ask_unit};
pub use deviations::deviation;
pub use fleet::view_part;
pub use law::{shown_is_asked, shown_is_for_the_trip};
pub use overtaking::apart;
pub use shown::{ShownWagon, shown_part, shown_wagon};
