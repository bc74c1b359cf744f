//! The commands that clap reads: their arguments, and the text of their help.
use crate::help;
use clap::{Arg, ArgAction, Command, value_parser};
use std::alloc::{AllocError, Global};

/// The program with its commands.
pub(crate) fn command<'a>(alloc: Global) -> Result<Command<'a>, AllocError> {
    let program = Ok(without_commands(alloc));
    let program = with_command(program, replay(alloc));
    let program = with_command(program, board(alloc));
    let program = with_command(program, check(alloc));
    let program = with_command(program, carry(alloc));
    let program = with_command(program, number(alloc));
    let program = with_command(program, serve(alloc));
    with_command(program, open(alloc))
}

fn without_commands<'a>(alloc: Global) -> Command<'a> {
    Command::new(alloc, "taf_hub")
        .about("The hub for wagon movement, interchange and estimated times in rail freight")
        .version(help::VERSION)
        .after_help(help::PROGRAM)
        .subcommand_required(true)
}

// The program with one command more, unless memory was refused for one of them.
fn with_command<'a>(
    program: Result<Command<'a>, AllocError>,
    command: Result<Command<'a>, AllocError>,
) -> Result<Command<'a>, AllocError> {
    let (program, command) = both(program, command)?;
    program.subcommand(command)
}

// The command with one argument more, unless memory was refused for it.
fn with_arg<'a>(
    command: Result<Command<'a>, AllocError>,
    arg: Arg<'a>,
) -> Result<Command<'a>, AllocError> {
    command?.arg(arg)
}

// The command with one argument more, which has to be given.
fn with_required<'a>(
    command: Result<Command<'a>, AllocError>,
    arg: Arg<'a>,
) -> Result<Command<'a>, AllocError> {
    with_arg(command, arg.required(true))
}

// Both values, if there are both.
fn both<A: Drop, B: Drop>(
    first: Result<A, AllocError>,
    second: Result<B, AllocError>,
) -> Result<(A, B), AllocError> {
    let first = first?;
    Ok((first, second?))
}

fn replay<'a>(alloc: Global) -> Result<Command<'a>, AllocError> {
    let journal = option(
        alloc,
        "journal",
        "FILE",
        "The journal: begins with its calls, and keeps each further one",
    );
    Command::new(alloc, "replay")
        .about("Answers the records of standard input, one line for each, on a new hub")
        .after_help(help::REPLAY)
        .arg(journal)
}

fn board<'a>(alloc: Global) -> Result<Command<'a>, AllocError> {
    let railway = option(
        alloc,
        "for",
        "RAILWAY",
        "The railway whose board it is; all wagons if not given",
    );
    Command::new(alloc, "board")
        .about("Writes the board of the records of standard input, as a page for a browser")
        .after_help(help::BOARD)
        .arg(railway)
}

fn check<'a>(alloc: Global) -> Result<Command<'a>, AllocError> {
    let command = Command::new(alloc, "check")
        .about("Reads a journal, and prints how many calls it has")
        .after_help(help::CHECK);
    with_required(Ok(command), journal(alloc))
}

fn carry<'a>(alloc: Global) -> Result<Command<'a>, AllocError> {
    let command = Command::new(alloc, "carry")
        .about("Leaves closed trips behind: writes the journal of all others")
        .after_help(help::CARRY);
    let next = positional(
        alloc,
        "NEXT",
        "The file of the new journal, which has no calls yet",
    );
    with_required(with_required(Ok(command), journal(alloc)), next)
}

fn number<'a>(alloc: Global) -> Result<Command<'a>, AllocError> {
    let text = positional(
        alloc,
        "TEXT",
        "Twelve digits, or the marked form as 21 81 2471 217-3",
    );
    let command = Command::new(alloc, "number")
        .about("Prints the vehicle number of a wagon in the marked form")
        .after_help(help::NUMBER);
    with_required(Ok(command), text)
}

fn serve<'a>(alloc: Global) -> Result<Command<'a>, AllocError> {
    let journal = journal_of_one_worker(alloc)?;
    let command = Command::new(alloc, "serve")
        .about("Serves railways on connections of their own, on a new hub, until each has ended")
        .after_help(help::SERVE);
    let command = with_required(Ok(command), port(alloc));
    let sessions = sessions(alloc, "How many connections to serve, 1 to 64");
    let command = with_required(command, sessions);
    let command = with_arg(command, workers(alloc));
    let command = with_arg(command, journal);
    with_arg(command, board_port(alloc))
}

fn open<'a>(alloc: Global) -> Result<Command<'a>, AllocError> {
    let journal = journal_of_one_worker(alloc)?;
    let command = Command::new(alloc, "open")
        .about("Serves railways that come and go, on a new hub, until standard input ends")
        .after_help(help::OPEN);
    let command = with_required(Ok(command), port(alloc));
    let sessions = sessions(alloc, "How many connections to serve at a time, 1 to 64");
    let command = with_arg(command, sessions.default_value("64"));
    let command = with_arg(command, workers(alloc));
    let command = with_arg(command, journal);
    let command = with_arg(command, keys(alloc));
    let command = with_arg(command, board_port(alloc));
    with_times(alloc, command)
}

// The command with the options that say how long anything may take.
fn with_times<'a>(
    alloc: Global,
    command: Result<Command<'a>, AllocError>,
) -> Result<Command<'a>, AllocError> {
    let command = with_arg(command, hello_time(alloc));
    let command = with_arg(command, silence_time(alloc));
    let command = with_arg(command, write_time(alloc));
    with_arg(command, grace(alloc))
}

fn hello_time<'a>(alloc: Global) -> Arg<'a> {
    seconds(
        alloc,
        "hello-seconds",
        1,
        "How long a client may be silent until its first line is complete, 1 to 86400",
    )
    .default_value("10")
}

fn silence_time<'a>(alloc: Global) -> Arg<'a> {
    seconds(
        alloc,
        "silence-seconds",
        1,
        "How long it may be silent after that, 1 to 86400; without end if not given",
    )
}

fn write_time<'a>(alloc: Global) -> Arg<'a> {
    seconds(
        alloc,
        "write-seconds",
        1,
        "How long it may take nothing of what is written to it, 1 to 86400",
    )
    .default_value("30")
}

fn grace<'a>(alloc: Global) -> Arg<'a> {
    seconds(
        alloc,
        "grace-seconds",
        0,
        "How long sessions may go on once standard input has ended, 0 to 86400",
    )
    .default_value("5")
}

// An option of a number of seconds, at least so many and at most a day.
fn seconds<'a>(alloc: Global, name: &'a str, least: i64, help: &'a str) -> Arg<'a> {
    option(alloc, name, "S", help).value_parser(value_parser!(u32).range(least..86_401))
}

fn port<'a>(alloc: Global) -> Arg<'a> {
    port_number(alloc, "port", "The port of 127.0.0.1 to listen on")
}

fn board_port<'a>(alloc: Global) -> Arg<'a> {
    port_number(
        alloc,
        "board",
        "The port of 127.0.0.1 for the board: a page that shows railways their wagons",
    )
}

// An option of a port, but for 0.
fn port_number<'a>(alloc: Global, name: &'a str, help: &'a str) -> Arg<'a> {
    option(alloc, name, "P", help).value_parser(value_parser!(u16).range(1..))
}

fn sessions<'a>(alloc: Global, help: &'a str) -> Arg<'a> {
    count(alloc, "sessions", "N", 64, help)
}

fn workers<'a>(alloc: Global) -> Arg<'a> {
    count(
        alloc,
        "workers",
        "K",
        8,
        "How many workers make their calls, 1 to 8",
    )
    .default_value("2")
}

// An option of a number, at least one and at most so many.
fn count<'a>(alloc: Global, name: &'a str, value: &'a str, most: i64, help: &'a str) -> Arg<'a> {
    option(alloc, name, value, help).value_parser(value_parser!(u8).range(1..=most))
}

fn journal_of_one_worker<'a>(alloc: Global) -> Result<Arg<'a>, AllocError> {
    option(
        alloc,
        "journal",
        "FILE",
        "The journal, as of replay; one worker makes the calls, so K is not given",
    )
    .conflicts_with("workers")
}

fn keys<'a>(alloc: Global) -> Arg<'a> {
    option(
        alloc,
        "keys",
        "FILE",
        "The keys of railways: a session begins only with the key of its railway",
    )
}

fn option<'a>(alloc: Global, name: &'a str, value: &'a str, help: &'a str) -> Arg<'a> {
    Arg::new(alloc, name)
        .long(name)
        .value_name(value)
        .action(ArgAction::Set)
        .help(help)
}

fn journal<'a>(alloc: Global) -> Arg<'a> {
    positional(alloc, "JOURNAL", "The file of the journal")
}

// An argument that has no name before it.
fn positional<'a>(alloc: Global, name: &'a str, help: &'a str) -> Arg<'a> {
    Arg::new(alloc, name).action(ArgAction::Set).help(help)
}
