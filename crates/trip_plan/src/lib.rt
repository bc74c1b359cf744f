//! Trip plans of wagons: what a lead railway undertaking plans, and how it may be changed.
//!
//! A plan says for a consignment which wagons go, over which legs, by which railway undertaking
//! each, and what was promised to the customer. It may load intermodal units (ISO 6346) on its
//! wagons. Of one wagon the lead may later replace all legs behind the current one by a route.
//!
//! - [`Plan`] is made by [`Plan::new`], [`Plan::with_units`] or, from vectors that are not copied,
//!   [`Plan::from_parts`]. In contracts it is a `Trip`, the record of what it says
//!   (`specs/Trip.antt`). [`Leg`], [`UnitLoad`] and [`Load`] are its parts.
//! - [`Route`] is made by [`Route::new`]. In contracts it is the list of its legs.
//! - [`PlanFault`] says why there is none: the code of a rule, or refused memory.
//!
//! | code | rule | of a plan | of a route |
//! |---|---|---|---|
//! | 1 | there is a leg, and not too many | 8 at most | 7 at most |
//! | 2 | each leg begins where the one before it ends | yes | yes |
//! | 3 | no railway undertaking runs two legs in succession | yes | yes |
//! | 4 | there are 1 to 60 wagons | yes | |
//! | 5 | no wagon is named twice | yes | |
//! | 6 | each leg takes 1 to 100,000 minutes | yes | yes |
//! | 7 | no unit is loaded twice | yes | |
//! | 8 | each unit is loaded on a wagon of the plan | yes | |
//!
//! Promised: a plan or a route is made exactly where no rule is broken, and the fault's code is
//! that of the first broken rule in this order; memory is refused to a good one alone. The calls
//! that show a plan's parts give what was handed in, `==` is equality of what is said, and a copy
//! equals its source. Copies share what is said, so that a plan of sixty wagons is kept once. Only
//! making a plan or a route takes memory.
#![tactic(auto)]

mod fault;
mod parts;
mod plan;
mod route;
mod rules;

pub use fault::PlanFault;
pub use parts::{Leg, Load, UnitLoad};
pub use plan::{Plan, PlanParts};
pub use route::Route;
pub use rules::all_differ;
