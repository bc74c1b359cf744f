ghost use Rattle.std.specs.Prelude.{◌≡◌, ◌<◌, if◌then◌else◌, is_some, IfOk, IfSome};
ghost use Rattle.std.specs.Duration.{as_nanos};
ghost use Rattle.hub_tasks.specs.Tasks.{IsWithinLimits};

use crate::commands::command;
use crate::service::{ServiceOptions, ShiftOptions};
use accept_queue::Limits;
use clap::error::ErrorKind;
use clap::{ArgMatches, Command, Error};
use shift_size::ShiftSize;
use std::alloc::Global;
use std::time::Duration;
use taf_codes::Railway;

// What is told where a text is no code of a railway.
const NO_RAILWAY: &str = "RAILWAY is four characters of A to Z and 0 to 9";

/// What the program is to do.
#[derive(Clone, Copy, Debug, PartialEq, Eq)]
pub enum Task<'a> {
    /// With the file of the journal, if one is kept.
    Replay {
        journal: Option<&'a str>,
    },
    /// Of the wagons that this railway may see; without one, of all.
    Board {
        railway: Option<Railway>,
    },
    /// Of the journal in this file.
    Check(&'a str),
    /// The trips of the journal in the first file that are not closed go on in the second one.
    Carry {
        journal: &'a str,
        next: &'a str,
    },
    Number(&'a str),
    /// With the file of the journal, if one is kept: then one worker makes the calls.
    Serve {
        shift: ShiftOptions,
        journal: Option<&'a str>,
    },
    /// With the file of the journal, if one is kept: then one worker makes the calls. With the file of the keys, if railways are asked
    /// for theirs.
    Open {
        service: ServiceOptions,
        journal: Option<&'a str>,
        keys: Option<&'a str>,
    },
}

/// The task that the arguments name, the program's name first. Numbers out of their limits are an error of clap's.
pub fn task_of<'a>(alloc: Global, arguments: &'a [String]) -> Result<Task<'a>, Error>
    ensures limits { IfOk result IsWithinLimits }
{
    let mut command = command(alloc)?;
    named_by(&mut command, arguments)
}

// The task that the arguments name to the command.
fn named_by<'a>(command: &mut Command<'a>, arguments: &'a [String]) -> Result<Task<'a>, Error>
    ensures limits { IfOk result IsWithinLimits }
{
    let matches = command.try_get_matches_from_mut(arguments)?;
    match task_in(&matches) {
        Some(task) => Ok(task),
        None => Err(no_task(command)),
    }
}

// For a text that is no code of a railway: clap has no parser for it, and all else has passed one.
fn no_task(command: &mut Command<'_>) -> Error {
    match command.error(ErrorKind::ValueValidation, NO_RAILWAY) {
        Ok(error) => error,
        Err(refused) => Error::from(refused),
    }
}

fn task_in<'a>(matches: &ArgMatches<'a>) -> Option<Task<'a>>
    ensures limits { IfSome result IsWithinLimits }
{
    let (name, found) = matches.subcommand()?;
    match name {
        "replay" => Some(Task::Replay {
            journal: found.get_str("journal"),
        }),
        "board" => board_in(found),
        "check" => Some(Task::Check(found.get_str("JOURNAL")?)),
        "carry" => Some(Task::Carry {
            journal: found.get_str("JOURNAL")?,
            next: found.get_str("NEXT")?,
        }),
        "serve" => shift_in(found),
        "open" => service_in(found),
        _ => Some(Task::Number(found.get_str("TEXT")?)),
    }
}

// The board that is named, unless its railway has no code of one.
fn board_in<'a>(matches: &ArgMatches<'a>) -> Option<Task<'a>>
    ensures limits { IfSome result IsWithinLimits }
{
    let railway = match matches.get_str("for") {
        Some(code) => Some(Railway::read(code).ok()?),
        None => None,
    };
    Some(Task::Board { railway })
}

// The shift that is named. Its numbers passed clap's parsers, so they are within their limits.
fn shift_in<'a>(matches: &ArgMatches<'a>) -> Option<Task<'a>>
    ensures limits { IfSome result IsWithinLimits }
{
    let port = matches.get_one::<u16>("port")?;
    let sessions = matches.get_one::<u8>("sessions")?;
    let workers = matches.get_one::<u8>("workers")?;
    let journal = matches.get_str("journal");
    let size = ShiftSize::new(usize::from(sessions), workers_of(journal, workers))?;
    if port == 0 {
        return None;
    }
    let shift = ShiftOptions {
        port,
        size,
        board: matches.get_one::<u16>("board"),
    };
    Some(Task::Serve { shift, journal })
}

// The service that is named. Its numbers passed clap's parsers, so they are within their limits.
fn service_in<'a>(matches: &ArgMatches<'a>) -> Option<Task<'a>>
    ensures limits { IfSome result IsWithinLimits }
{
    let port = matches.get_one::<u16>("port")?;
    let workers = matches.get_one::<u8>("workers")?;
    let journal = matches.get_str("journal");
    let limits = limits_in(matches)?;
    let workers = workers_of(journal, workers);
    let is_within = 1 <= port && 1 <= workers && workers <= 8;
    if !is_within {
        return None;
    }
    let service = ServiceOptions {
        port,
        limits,
        workers,
        board: matches.get_one::<u16>("board"),
    };
    Some(Task::Open {
        service,
        journal,
        keys: matches.get_str("keys"),
    })
}

// The limits of a service that are named.
fn limits_in(matches: &ArgMatches<'_>) -> Option<Limits> {
    let sessions = matches.get_one::<u8>("sessions")?;
    let mut limits = Limits::new(usize::from(sessions))?;
    limits.silence_before_hello = seconds_in(matches, "hello-seconds")?;
    limits.silence_between_lines = seconds_in(matches, "silence-seconds");
    limits.write_timeout = seconds_in(matches, "write-seconds")?;
    limits.grace = Duration::from_secs(u64::from(matches.get_one::<u32>("grace-seconds")?));
    Some(limits)
}

// So many seconds, at least one.
fn seconds_in(matches: &ArgMatches<'_>, name: &str) -> Option<Duration>
    ensures { IfSome result (λ d. 0 < as_nanos d) }
{
    let seconds = matches.get_one::<u32>(name)?;
    if seconds == 0 {
        return None;
    }
    Some(Duration::from_secs(u64::from(seconds)))
}

// How many workers make the calls: with a journal one, and else as many as are named.
fn workers_of(journal: Option<&str>, named: u8) -> usize
    ensures { result ≡ (if is_some journal.entry then 1 else named) }
{
    match journal {
        Some(_) => 1,
        None => usize::from(named),
    }
}
