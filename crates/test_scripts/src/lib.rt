//! Scripts of tests. Nothing but tests uses it.
//!
//! A script is a list of texts. Of their lines those behind `> ` are to be said, and every other one is sent. So a script reads as
//! the session that it stands for, and what several scripts have in common is written once. A [`Script`] has the bytes of both kinds
//! of lines, each with its newline.
//!
//! | part | what it has |
//! |---|---|
//! | `script` | the lines of a script |
//! | `lines` | lines among bytes: added, counted and cut |
//! | `sessions` | what two railways send of their wagons, and what they are answered |
#![tactic(auto)]

mod lines;
mod script;
mod sessions;

pub use lines::{add_line, count_answered, count_lines, first_lines, replies_of};
pub use script::Script;
pub use sessions::{FIRST, SECOND};
