//! Moments: minutes of the calendar.
//!
//! A moment is a minute of the Gregorian calendar in the years 1970 to 2199, in universal time. It
//! is written as ISO 8601 writes it, `YYYY-MM-DDThh:mmZ`, as `2025-03-01T06:00Z`.
//!
//! - [`Moment`] is such a minute. In contracts it is a number, the minutes since
//!   `1970-01-01T00:00Z`, from 0 to 120,968,639 (`last_minute` of `specs/Calendar.antt`).
//! - [`Moment::read`] and [`Moment::text`] go between a moment and its text, and `Display` prints
//!   the text. [`Moment::from_minutes`] and [`Moment::minutes`] go between a moment and its number,
//!   and [`Moment::plus`] adds minutes.
//! - [`BadMoment`] says that a text denotes no moment.
//!
//! Promised: a text is read exactly if it has the form and shows a date of the calendar, an hour to
//! 23 and a minute to 59; then it denotes 1440 minutes for each day since 1970-01-01, 60 for each
//! hour, and its minutes. The text of each moment is read as that moment, and no two texts denote
//! the same one (`laws.rt`). No call takes memory. The day numbers are those of `jiff_core`.
#![tactic(auto)]

mod date;
mod fault;
mod laws;
mod moment;
mod reading;
mod text;

pub use fault::BadMoment;
pub use laws::moment_text_is_read;
pub use moment::Moment;
pub use text::MomentText;
