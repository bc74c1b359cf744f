//! The report of the operational database (4.2.11): a line that counts the wagons, and one line for each.
//!
//! [`lines`] makes the lines by as many threads as there are processors, [`plain_lines`] one after another, and [`hub_lines`]
//! those of a hub without all of its records at once. Each gives exactly the lines that `specs/Report.antt` defines, in the
//! order of the view:
//!
//! ```text
//! wagons 2
//! 218124712173 R100 R101 0 running   ------- 2025-03-01T15:00Z         0 loaded_on_journey
//! 338478961232 R100 ---- 0 planned   DE00001 -----------------         0 loading
//! ```
//!
//! A line shows the wagon, the lead railway, the railway that is responsible, the leg, counted from 0, how far the
//! journey has come, the place, when the wagon is expected at its target, by how many minutes this is late, the
//! status, and the intermodal units where there are any.
#![tactic(auto)]

mod column;
mod line;
mod report;

pub use report::{hub_lines, lines, plain_lines};
