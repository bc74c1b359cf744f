//! The lines of a journal of calls.
//!
//! A line is the text of a call, as `reply_writer` writes it, with a sum in front:
//! `{"_sum":"<16 digits>",` and then the text without its first brace. `_sum` stands before all other keys in byte order, and
//! readers of records pass over it. The sum is taken over the text of the call and begins from the sum of the line before, so
//! a byte that turned into another one shows, and so does a line that was lost, added, or put in another place, unless both lines
//! before happen to have the same sum. It is FNV-1a of 64 bits: it shows mistakes, and not what someone forges.
//!
//! [`line_of`] makes the line of a call. A [`LineReader`] reads line after line, as [`read_line`] reads one: it keeps the memory
//! that reading takes, and looks at the parts of a line where they stand.
//!
//! | part | what it has |
//! |---|---|
//! | `sum` | the sum |
//! | `line` | a call as a line, and a line as a call |
//! | `laws` | what the lines of calls are good for |
#![tactic(auto)]

mod fault;
mod laws;
mod line;
mod sum;

pub use fault::LineFault;
pub use laws::{journal_lines_are_calls, sums_show_changes};
pub use line::{LineReader, line_of, read_line};
pub use sum::{first_sum, sum_after};
