use hub_commands::{Fault, perform, report_fault};
use std::alloc::Global;
use std::fs::File;
use std::io;
use std::io::ErrorKind;
use std::net::{Net, TcpListener, TcpStream};
use std::random::RandomSource;
use std::rt::{Clock, Files};
use std::sync::Wait;
use std::test::Fail;
use std::thread::Threads;

// The arguments of a command line, which stand with `|` between them.
pub(crate) fn arguments(alloc: Global, line: &str) -> Result<Vec<String>, Fail> {
    let mut arguments = Vec::new(alloc);
    for argument in line.split('|') {
        arguments.push(argument.to_string(alloc)?)?;
    }
    Ok(arguments)
}

// What a command wrote, and the status that it ended with.
#[derive(Drop)]
pub(crate) struct Ended {
    pub status: u8,
    pub output: Vec<u8>,
    pub errors: Vec<u8>,
}

// Does what the line of arguments names.
pub(crate) fn end_of<H>(rt: &H, line: &str, input: &str) -> Result<Ended, Fail>
where
    H: Files<File = File>
        + Net<Listener = TcpListener, Stream = TcpStream>
        + Threads
        + Wait
        + Clock
        + Sync
        + RandomSource
        + AllocGlobal,
{
    let arguments = arguments(rt.alloc(), line)?;
    let mut output = Vec::new(rt.alloc());
    let mut errors = Vec::new(rt.alloc());
    let status = perform(rt, &arguments, input.as_bytes(), &mut output, &mut errors);
    Ok(Ended {
        status,
        output,
        errors,
    })
}

const MARKED: &str = "21 81 2471 217-3\n";

const BAD_CHECK_DIGIT: &str = "fault 2: bad check digit\n";

const NOT_TWELVE_DIGITS: &str = "fault 1: not twelve digits\n";

// The arguments, the input, the status, the output, and the errors.
static COMMANDS: [(&str, &str, u8, &str, &str); 11] = [
    ("taf_hub|--version", "", 0, "taf_hub 0.1.0\n", ""),
    ("taf_hub|number|218124712173", "", 0, MARKED, ""),
    ("taf_hub|number|21 81 2471 217-3", "", 0, MARKED, ""),
    ("taf_hub|number|218124712174", "", 1, "", BAD_CHECK_DIGIT),
    (
        "taf_hub|number|21 81 2471 217-4",
        "",
        1,
        "",
        BAD_CHECK_DIGIT,
    ),
    ("taf_hub|number|21812471217", "", 1, "", NOT_TWELVE_DIGITS),
    (
        "taf_hub|number|000000000000",
        "",
        0,
        "00 00 0000 000-0\n",
        "",
    ),
    ("taf_hub|number|", "", 1, "", NOT_TWELVE_DIGITS),
    ("taf_hub|replay", "", 0, "wagons 0\n", ""),
    ("taf_hub|replay", "\n \t\n\r\n\n  ", 0, "wagons 0\n", ""),
    (
        "taf_hub|replay",
        "{\n\n",
        0,
        "{\"fault\":\"bad_json\"}\nwagons 0\n",
        "",
    ),
];

// Whether the arguments end so.
fn ends_as(ended: &Ended, status: u8, output: &str, errors: &str) -> bool {
    ended.status == status
        && ended.output.as_slice() == output.as_bytes()
        && ended.errors.as_slice() == errors.as_bytes()
}

#[test]
fn commands_end_with_their_status(rt: HostRuntime) -> Result<(), Fail> {
    for (line, input, status, output, errors) in &COMMANDS {
        let ended = end_of(&rt, line, input)?;
        if !ends_as(&ended, *status, output, errors) {
            return Err(Fail::new(*line));
        }
    }
    Ok(())
}

// Arguments that are explained, on the output for the status 0 and else among the errors.
static EXPLAINED: [(&str, u8); 50] = [
    ("taf_hub|--help", 0),
    ("taf_hub|number|--help", 0),
    ("taf_hub", 2),
    ("taf_hub|reply", 2),
    ("taf_hub|number", 2),
    ("taf_hub|replay|again", 2),
    ("taf_hub|replay|--journal", 2),
    ("taf_hub|replay|hub.journal", 2),
    ("taf_hub|board|--help", 0),
    ("taf_hub|board|records.jsonl", 2),
    ("taf_hub|board|--for", 2),
    ("taf_hub|board|--for|R1", 2),
    ("taf_hub|board|--for|r101", 2),
    ("taf_hub|check|--help", 0),
    ("taf_hub|check", 2),
    ("taf_hub|check|hub.journal|again", 2),
    ("taf_hub|carry|--help", 0),
    ("taf_hub|carry|hub.journal", 2),
    ("taf_hub|carry|hub.journal|next.journal|again", 2),
    ("taf_hub|serve|--help", 0),
    ("taf_hub|serve", 2),
    ("taf_hub|serve|--port|7000", 2),
    ("taf_hub|serve|--sessions|3", 2),
    ("taf_hub|serve|--port|0|--sessions|3", 2),
    ("taf_hub|serve|--port|65536|--sessions|3", 2),
    ("taf_hub|serve|--port|x|--sessions|3", 2),
    ("taf_hub|serve|--port|7000|--sessions|0", 2),
    ("taf_hub|serve|--port|7000|--sessions|65", 2),
    ("taf_hub|serve|--port|7000|--sessions|3|--workers|0", 2),
    ("taf_hub|serve|--port|7000|--sessions|3|--workers|9", 2),
    ("taf_hub|serve|--port|7000|--sessions|3|--journal", 2),
    (
        "taf_hub|serve|--port|7000|--sessions|3|--workers|2|--journal|hub.journal",
        2,
    ),
    (
        "taf_hub|serve|--port|7000|--sessions|3|--journal|hub.journal|--workers|1",
        2,
    ),
    ("taf_hub|open|--help", 0),
    ("taf_hub|open", 2),
    ("taf_hub|open|--port|0", 2),
    ("taf_hub|open|--port|65536", 2),
    ("taf_hub|open|--port|7000|--sessions|0", 2),
    ("taf_hub|open|--port|7000|--sessions|65", 2),
    ("taf_hub|open|--port|7000|--workers|0", 2),
    ("taf_hub|open|--port|7000|--workers|9", 2),
    (
        "taf_hub|open|--port|7000|--workers|1|--journal|hub.journal",
        2,
    ),
    ("taf_hub|open|--port|7000|--keys", 2),
    (
        "taf_hub|serve|--port|7000|--sessions|3|--keys|railways.keys",
        2,
    ),
    ("taf_hub|open|--port|7000|--hello-seconds|0", 2),
    ("taf_hub|open|--port|7000|--hello-seconds|86401", 2),
    ("taf_hub|open|--port|7000|--silence-seconds|0", 2),
    ("taf_hub|open|--port|7000|--write-seconds|0", 2),
    ("taf_hub|open|--port|7000|--grace-seconds|86401", 2),
    ("taf_hub|open|--port|7000|--grace-seconds|-1", 2),
];

#[test]
fn other_arguments_are_explained(rt: HostRuntime) -> Result<(), Fail> {
    for (line, status) in &EXPLAINED {
        let ended = end_of(&rt, line, "")?;
        let is_output = !ended.output.is_empty();
        let is_error = !ended.errors.is_empty();
        if ended.status != *status || is_output != (*status == 0) || is_error != (*status == 2) {
            return Err(Fail::new(*line));
        }
    }
    Ok(())
}

// The arguments that ask for help, and the last lines of what is printed.
static ENDS: [(&str, &str); 8] = [
    (
        "taf_hub|--help",
        "\n  8  the journal is in use, damaged or of another program\n",
    ),
    (
        "taf_hub|replay|--help",
        "\n  taf_hub replay --journal hub.journal < records.jsonl > answers.txt\n\nStatuses: 0, 2, 3, 4, 7, 8\n",
    ),
    (
        "taf_hub|board|--help",
        "\n  taf_hub board --for R101 < hub.journal > board.html\n\nStatuses: 0, 2, 3, 4\n",
    ),
    (
        "taf_hub|check|--help",
        "\nExample:\n  taf_hub check hub.journal\n\nStatuses: 0, 2, 3, 4, 7, 8\n",
    ),
    (
        "taf_hub|carry|--help",
        "\nExample:\n  taf_hub carry hub.journal next.journal\n\nStatuses: 0, 2, 3, 4, 7, 8\n",
    ),
    (
        "taf_hub|number|--help",
        "\nExample:\n  taf_hub number 218124712173\n\nStatuses: 0, 1, 2, 3, 4\n",
    ),
    (
        "taf_hub|serve|--help",
        "\n  taf_hub serve --port 7000 --sessions 3 --board 7080\n\nStatuses: 0, 2, 3, 4, 5, 6, 7, 8\n",
    ),
    (
        "taf_hub|open|--help",
        "\n  taf_hub open --port 7000 --board 7080\n\nStatuses: 0, 2, 3, 4, 5, 6, 7, 8\n",
    ),
];

#[test]
fn help_ends_with_an_example_and_the_statuses(rt: HostRuntime) -> Result<(), Fail> {
    for (line, end) in &ENDS {
        let ended = end_of(&rt, line, "")?;
        if ended.status != 0 || !ended.output.ends_with(end.as_bytes()) {
            return Err(Fail::new(*line));
        }
    }
    Ok(())
}

// Whether a fault of the arguments of this kind is told by this status and line.
fn is_told(alloc: Global, kind: ErrorKind, status: u8, line: &str) -> bool {
    let mut errors = Vec::new(alloc);
    let fault = Fault::of_arguments(io::Error::from(kind));
    report_fault(fault, &mut errors) == status && errors.as_slice() == line.as_bytes()
}

#[test]
fn arguments_that_are_not_read_are_a_fault(rt: HostRuntime) {
    assert!(rt; is_told(rt.alloc(), ErrorKind::OutOfMemory, 4, "fault: memory\n"));
    assert!(rt; is_told(rt.alloc(), ErrorKind::InvalidData, 2, "fault: words\n"));
}
