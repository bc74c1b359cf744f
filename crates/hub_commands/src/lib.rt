//! The commands of the hub: what each does.
//!
//! | command | does | status |
//! |---|---|---|
//! | `taf_hub replay` | answers the lines of the input on the output, on a new hub, and prints the report of all wagons | 0; 3 reading or writing failed, or no end came; 4 memory was refused |
//! | `taf_hub replay --journal FILE` | the same on the hub of the calls that the journal has; each further call is in the journal, on the disk, before it is answered | also 7 a call of the journal's file failed; 8 the journal is busy or was refused |
//! | `taf_hub board [--for RAILWAY]` | answers the lines of the input on a new hub, and writes the board as a page with the wagons inside: those that RAILWAY may see, or all | 0; 3 reading or writing failed, or no end came; 4 memory was refused |
//! | `taf_hub check JOURNAL` | prints how many calls the journal has, and how many bytes its torn end | 0; 3 writing failed; 4 memory was refused; 7 the file could not be read; 8 the journal was refused |
//! | `taf_hub carry JOURNAL NEXT` | writes the journal NEXT with the trips of JOURNAL that are not closed, and prints how many calls each has | 0; 3 writing the numbers failed; 4 memory was refused; 7 a call of a file failed; 8 a journal is busy or was refused |
//! | `taf_hub serve --port P --sessions N [--workers K] [--board Q]` | serves N railways on connections of their own by K workers, and prints how many calls settled and the report of all wagons | 0; 3 writing failed; 4 memory was refused; 5 a socket or a thread could not be had; 6 the shift did not settle |
//! | `taf_hub serve --port P --sessions N --journal FILE [--board Q]` | the same on the hub of the calls that the journal has, by one worker; each further call is in the journal, on the disk, before it is answered | also 7 a call of the journal's file failed; 8 the journal is busy or was refused |
//! | `taf_hub open --port P [--sessions N] [--workers K] [--keys FILE] [--board Q] [TIMES]` | serves whoever connects, N sessions at a time, by K workers, until its input ends, and prints how many calls settled and the report of all wagons; with keys only railways with theirs | as `serve`, and 2 the keys were refused |
//! | `taf_hub open --port P [--sessions N] --journal FILE [--keys FILE] [--board Q] [TIMES]` | the same on the hub of the calls that the journal has, by one worker; each further call is in the journal, on the disk, before it is answered | as `serve` with a journal, and 2 the keys were refused |
//! | `taf_hub number TEXT` | prints the vehicle number that TEXT shows in the marked form | 0; 1 TEXT shows none; 3 writing failed; 4 memory was refused |
//!
//! With `--board Q` railways are shown their wagons on port Q meanwhile. TIMES say how long anything may take. [`arguments`] gives the arguments of the command line, and [`perform`] does what they name, as
//! `hub_tasks` reads them. [`serve_on`] is `serve` on a listener; a session that could not be served to its end is a line among the errors
//! ([`report_end`]). `--help` prints clap's help, which ends with an example and the statuses, and `--version` the version, both
//! with status 0. Arguments that name no command end with status 2 and clap's text among the errors. A [`Fault`] is one line there,
//! by [`report_fault`], which gives its status; where a journal or a file of keys is not taken, the line before says why, behind the file's path.
//! Where the arguments cannot be read, the status is 4 if memory was refused and else 2.
#![tactic(auto)]

mod board;
mod carry;
mod check;
mod command_line;
mod commands;
mod journal_file;
mod journal_open;
mod journaled_open;
mod journaled_replay;
mod journaled_serve;
mod keys;
mod number;
mod open;
mod print;
mod replay;
mod serve;
mod served_board;

pub use command_line::arguments;
pub use commands::{perform, report_fault, serve_on};
pub use hub_faults::Fault;
pub use hub_server::SessionEnd;
pub use serve::report_end;
pub use shift_size::ShiftSize;
