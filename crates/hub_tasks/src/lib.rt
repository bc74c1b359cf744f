//! What the program is to do: the arguments of the command line, and the task that they name.
//!
//! | arguments | task |
//! |---|---|
//! | `replay [--journal FILE]` | [`Task::Replay`] |
//! | `board [--for RAILWAY]` | [`Task::Board`] |
//! | `check JOURNAL` | [`Task::Check`] |
//! | `carry JOURNAL NEXT` | [`Task::Carry`] |
//! | `number TEXT` | [`Task::Number`] |
//! | `serve --port P --sessions N [--workers K] [--board Q]` | [`Task::Serve`]: P and Q are 1 to 65,535, N 1 to 64, K 1 to 8, and 2 if left out |
//! | `serve --port P --sessions N --journal FILE [--board Q]` | [`Task::Serve`] with one worker; together with `--workers` an error |
//! | `open --port P [--sessions N] [--workers K] [--keys FILE] [--board Q] [TIMES]` | [`Task::Open`]: as `serve`, and N is 64 if left out |
//! | `open --port P [--sessions N] --journal FILE [--keys FILE] [--board Q] [TIMES]` | [`Task::Open`] with one worker; together with `--workers` an error |
//!
//! TIMES are `--hello-seconds S`, `--silence-seconds S`, `--write-seconds S` and `--grace-seconds S`, each if given: S is 1 to 86,400, and
//! for the last also 0. If left out they are 10, without end, 30 and 5.
//!
//! [`task_of`] reads them, by clap. Arguments that name no task are an error of clap's, which has the text to print: for
//! `--help` the help, which ends with an example and the statuses, for `--version` the version, and else what is wrong with
//! them. What a task does is described in the crate of the commands.
#![tactic(auto)]

mod commands;
mod help;
mod service;
mod task;

pub use service::{ServiceOptions, ShiftOptions};
pub use task::{Task, task_of};
