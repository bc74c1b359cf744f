//! Sessions that are served to their end, and to each fault.

use crate::serving::ends::{Ends, Served};
use crate::serving::streams::{FAR, Giving, MANY, Reach};
use session_serving::SessionFault;
use std::alloc::Global;
use std::test::Fail;
use test_scripts::{Script, add_line, count_answered, first_lines};

// The hello of a railway.
const HELLO: &str = r#"{"kind":"hello","from":"R100"}"#;

// A call, and what is said to it.
const ASK: &str = r#"{"from":"R100","kind":"ask","wagon":"318066552148"}"#;

const UNKNOWN: &str = r#"{"reply":"refused","wagon":"318066552148","why":"unknown_wagon"}"#;

// What is said to a line that is no record.
const BAD_JSON: &str = r#"{"fault":"bad_json"}"#;

// What a railway sends of its wagon, with lines that are no calls of it. It has five jobs.
const EXAMPLE_TEXT: &str = r#"{"kind":"hello","from":"R100"}
> {"hello":"R100"}
{"kind":"plan","from":"R100","no":1,"consignment":"C-1","load":"loaded","commit":"2025-03-01T15:30Z","wagons":["218124712173"],"legs":[{"ru":"R101","origin":"DE00001","target":"AT00002","minutes":300},{"ru":"R102","origin":"AT00002","target":"IT00003","minutes":240}]}
> {"no":1,"reply":"accepted"}
{"from":"R100","kind":"ask","wagon":"218124712173"}
> {"record":{"commit":"2025-03-01T15:30Z","consignment":"C-1","estimates":[],"eta":null,"events":[{"by":"R100","kind":"plan","no":1}],"late":false,"lead":"R100","leg":0,"load":"loaded","place":"DE00001","responsible":null,"stage":"planned","status":"loading","wagon":"218124712173"},"reply":"record"}

{"at":"2025-03-01T05:30Z","from":"R100","kind":"release","no":2,"wagon":"218124712173"}
> {"no":2,"reply":"accepted"}
[]
> {"fault":"bad_json"}
{"at":"2025-03-01T06:00Z","from":"R101","kind":"depart","no":1,"wagon":"218124712173"}
> {"fault":"wrong_sender"}
{"from":"R100","kind":"ask","wagon":"218124712173"}
> {"record":{"commit":"2025-03-01T15:30Z","consignment":"C-1","estimates":[{"at":"2025-03-01T10:30Z","leg":0},{"at":"2025-03-01T14:30Z","leg":1}],"eta":"2025-03-01T14:30Z","events":[{"by":"R100","kind":"plan","no":1},{"at":"2025-03-01T05:30Z","by":"R100","kind":"release","no":2}],"late":false,"lead":"R100","leg":0,"load":"loaded","place":"DE00001","responsible":null,"stage":"released","status":"loading","wagon":"218124712173"},"reply":"record"}
{"from":"R100","kind":"fetch","limit":10}
> {"items":[],"reply":"items"}"#;

// The interchange of a train, as the session of one of its railways reads it. Its hub knows none of the wagons.
const INTERCHANGE_TEXT: &str = r#"{"kind":"hello","from":"R101"}
> {"hello":"R101"}
{"kind":"plan","from":"R100","no":1,"consignment":"C-1","load":"loaded","commit":"2025-03-01T15:30Z","wagons":["218124712173","338478961232"],"legs":[{"ru":"R101","origin":"DE00001","target":"AT00002","minutes":300},{"ru":"R102","origin":"AT00002","target":"IT00003","minutes":240}]}
> {"fault":"wrong_sender"}
{"at":"2025-03-01T05:30Z","from":"R100","kind":"release","no":2,"wagon":"218124712173"}
> {"fault":"wrong_sender"}
{"at":"2025-03-01T06:00Z","from":"R101","kind":"depart","no":1,"wagon":"218124712173"}
> {"no":1,"reply":"refused","wagon":"218124712173","why":"unknown_wagon"}
{"at":"2025-03-01T10:40Z","from":"R101","kind":"yard_in","no":2,"place":"AT00002","wagon":"218124712173"}
> {"no":2,"reply":"refused","wagon":"218124712173","why":"unknown_wagon"}
{"at":"2025-03-01T05:30Z","from":"R100","kind":"release","no":3,"wagon":"338478961232"}
> {"fault":"wrong_sender"}
{"at":"2025-03-01T06:00Z","from":"R101","kind":"depart","no":3,"wagon":"338478961232"}
> {"no":3,"reply":"refused","wagon":"338478961232","why":"unknown_wagon"}
{"at":"2025-03-01T10:50Z","from":"R101","kind":"offer","no":4,"place":"AT00002","to":"R102","train":"T-77","wagons":["218124712173","338478961232"]}
> {"no":4,"reply":"refused","wagon":"218124712173","why":"unknown_wagon"}
{"at":"2025-03-01T10:45Z","from":"R101","kind":"yard_in","no":5,"place":"AT00002","wagon":"338478961232"}
> {"no":5,"reply":"refused","wagon":"338478961232","why":"unknown_wagon"}
{"at":"2025-03-01T10:50Z","from":"R101","kind":"offer","no":6,"place":"AT00002","to":"R102","train":"T-77","wagons":["218124712173","338478961232"]}
> {"no":6,"reply":"refused","wagon":"218124712173","why":"unknown_wagon"}
{"at":"2025-03-01T11:10Z","from":"R102","kind":"answer","manager":"I300","no":1,"offer":6,"offerer":"R101","received":["218124712173"],"refused":["338478961232"]}
> {"fault":"wrong_sender"}
{"from":"I300","kind":"fetch","limit":5}
> {"fault":"wrong_sender"}"#;

// A line before the hello, one of another railway, and a call whose answer is a stranger's.
const STRANGER_TEXT: &str = r#"{"kind":"ask","from":"R100","wagon":"218124712173"}
> {"fault":"no_hello"}
{"kind":"hello","from":"R100"}
> {"hello":"R100"}
{"kind":"ask","from":"R101","wagon":"218124712173"}
> {"fault":"wrong_sender"}
{"kind":"ask","from":"R100","wagon":"218124712173"}
> {"fault":"stranger"}
[]"#;

// A last line that has no newline, and is dropped.
const DROPPED: &str = r#"{"kind":"ask","from":"R100","wagon":"218124712173"}"#;

static EXAMPLE: &[&str] = &[EXAMPLE_TEXT];

static INTERCHANGE: &[&str] = &[INTERCHANGE_TEXT];

static STRANGER: &[&str] = &[STRANGER_TEXT];

// The lines of an example with a piece of a line behind them, and those that are to be said.
fn script_of(alloc: Global, example: &[&str]) -> Result<Script, Fail> {
    let mut script = Script::of(alloc, example)?;
    script.input.extend_from_slice(DROPPED.as_bytes())?;
    Ok(script)
}

/// The example of a railway's wagon.
pub(crate) fn example(alloc: Global) -> Result<Script, Fail> {
    script_of(alloc, EXAMPLE)
}

// Serves a session of these bytes.
fn serve_input(alloc: Global, input: &[u8], reach: Reach) -> Result<Served, Fail> {
    let ends = Ends::new(alloc, input, Vec::new(alloc), reach)?;
    Ok(ends.serve_to_end(alloc))
}

/// Whether all lines of the example were answered, and its five jobs told.
pub(crate) fn is_whole(served: &Served, script: &Script) -> bool {
    served.end == Ok(())
        && served.output == script.wanted
        && (served.sent, served.told) == (5, 5)
        && served.left == 0
}

// The first bytes, so many of them.
fn first_bytes(bytes: &[u8], size: usize) -> &[u8] {
    bytes.get(..size).unwrap_or(bytes)
}

// What is said to the whole lines among the first bytes of the input, so many of them.
fn said_to_first(script: &Script, size: usize) -> &[u8] {
    let front = first_bytes(&script.input, size);
    first_lines(&script.wanted, count_answered(front))
}

// Readers, writers and ports that go by so much.
const BY: [(usize, bool, usize, bool); 8] = [
    (1, false, MANY, true),
    (1, false, 1, false),
    (7, false, 3, true),
    (50, false, MANY, false),
    (400, false, 1, true),
    (MANY, true, MANY, false),
    (MANY, false, 7, false),
    (MANY, false, MANY, true),
];

#[test]
fn chunks_of_each_kind(rt: HostRuntime) -> Result<(), Fail> {
    let script = example(rt.alloc())?;
    for (step, is_by_line, taken, is_telling) in BY {
        let reach = Reach {
            step,
            is_by_line,
            taken,
            is_telling,
            ..FAR
        };
        let served = serve_input(rt.alloc(), &script.input, reach)?;
        assert!(rt; is_whole(&served, &script), "by {step} and {taken}");
    }
    Ok(())
}

// The lines with a carriage return before each newline.
fn with_carriage_returns(alloc: Global, lines: &[u8]) -> Result<Vec<u8>, Fail> {
    let mut bytes = Vec::new(alloc);
    for byte in lines {
        if *byte == b'\n' {
            bytes.push(b'\r')?;
        }
        bytes.push(*byte)?;
    }
    Ok(bytes)
}

#[test]
fn a_carriage_return_is_a_blank(rt: HostRuntime) -> Result<(), Fail> {
    let script = example(rt.alloc())?;
    let input = with_carriage_returns(rt.alloc(), &script.input)?;
    for step in [1usize, 50, MANY] {
        let served = serve_input(rt.alloc(), &input, Reach { step, ..FAR })?;
        assert!(rt; is_whole(&served, &script), "by {step}");
    }
    Ok(())
}

// A hello that blanks make a line of this size, and a hello behind it.
fn two_hellos(alloc: Global, size: usize) -> Result<Vec<u8>, Fail> {
    let mut input = Vec::from_slice(alloc, HELLO.as_bytes())?;
    for _ in HELLO.len()..size {
        input.push(b' ')?;
    }
    add_line(&mut input, b"")?;
    add_line(&mut input, HELLO.as_bytes())?;
    Ok(input)
}

// How long the first hello is, and what is said to both.
const LONG: [(usize, &str); 4] = [
    (65_536, "{\"hello\":\"R100\"}\n{\"fault\":\"bad_kind\"}\n"),
    (
        65_537,
        "{\"fault\":\"line_too_long\"}\n{\"hello\":\"R100\"}\n",
    ),
    (
        65_538,
        "{\"fault\":\"line_too_long\"}\n{\"hello\":\"R100\"}\n",
    ),
    (
        300_000,
        "{\"fault\":\"line_too_long\"}\n{\"hello\":\"R100\"}\n",
    ),
];

#[test]
fn long_lines(rt: HostRuntime) -> Result<(), Fail> {
    for (size, wanted) in LONG {
        let input = two_hellos(rt.alloc(), size)?;
        let served = serve_input(rt.alloc(), &input, FAR)?;
        assert_eq!(rt; served.end, Ok(()));
        assert!(rt; served.output.as_slice() == wanted.as_bytes(), "of {size}");
    }
    Ok(())
}

// Whether an input that is cut after so many bytes is answered up to its last whole line.
fn is_cut_answered(alloc: Global, script: &Script, size: usize) -> Result<bool, Fail> {
    let served = serve_input(alloc, first_bytes(&script.input, size), FAR)?;
    Ok(served.end == Ok(()) && served.output.as_slice() == said_to_first(script, size))
}

// Whether the lines that were read before a read fails are answered, and no more.
fn fails_to_read(alloc: Global, script: &Script, reads: usize) -> Result<bool, Fail> {
    let reach = Reach {
        step: 1,
        reads,
        ..FAR
    };
    let served = serve_input(alloc, &script.input, reach)?;
    Ok(
        served.end == Err(SessionFault::Read)
            && served.output.as_slice() == said_to_first(script, reads)
            && served.told == served.sent,
    )
}

// Whether each read of a script may be the last, or fail.
fn ends_at_each_read(alloc: Global, script: &Script) -> Result<bool, Fail> {
    for size in 0..=script.input.len() {
        if !is_cut_answered(alloc, script, size)? || !fails_to_read(alloc, script, size)? {
            return Ok(false);
        }
    }
    Ok(true)
}

#[test]
fn each_read_is_the_last_or_fails(rt: HostRuntime) -> Result<(), Fail> {
    let script = example(rt.alloc())?;
    assert!(rt; ends_at_each_read(rt.alloc(), &script)?);
    Ok(())
}

#[test]
fn each_read_of_an_interchange_is_the_last_or_fails(rt: HostRuntime) -> Result<(), Fail> {
    let script = script_of(rt.alloc(), INTERCHANGE)?;
    assert!(rt; ends_at_each_read(rt.alloc(), &script)?);
    Ok(())
}

// Whether a writer that fails after so many bytes has just these, whatever the reader gives at once. The answers of all
// jobs that are out are taken.
fn fails_to_write(
    alloc: Global,
    script: &Script,
    writes: usize,
    step: usize,
) -> Result<bool, Fail> {
    let reach = Reach {
        step,
        taken: 1,
        writes,
        is_telling: false,
        ..FAR
    };
    let served = serve_input(alloc, &script.input, reach)?;
    Ok(
        served.end == Err(SessionFault::Write)
            && served.output.as_slice() == first_bytes(&script.wanted, writes)
            && served.told == served.sent,
    )
}

#[test]
fn each_write_fails(rt: HostRuntime) -> Result<(), Fail> {
    let script = example(rt.alloc())?;
    for writes in 0..script.wanted.len() {
        assert!(rt;
            fails_to_write(rt.alloc(), &script, writes, 1)?,
            "at {writes}"
        );
        assert!(rt;
            fails_to_write(rt.alloc(), &script, writes, MANY)?,
            "at {writes} at once"
        );
    }
    Ok(())
}

// Whether a flush that fails comes behind as many reads and one, and behind what is said to the lines that they gave.
fn fails_to_flush(alloc: Global, script: &Script, flushes: usize) -> Result<bool, Fail> {
    let reach = Reach {
        step: 1,
        flushes,
        ..FAR
    };
    let served = serve_input(alloc, &script.input, reach)?;
    let reads = flushes.saturating_add(1);
    Ok(
        served.end == Err(SessionFault::Write)
            && served.reads == reads
            && served.output.as_slice() == said_to_first(script, reads),
    )
}

#[test]
fn each_flush_fails(rt: HostRuntime) -> Result<(), Fail> {
    let script = example(rt.alloc())?;
    for flushes in 0..script.input.len() {
        assert!(rt;
            fails_to_flush(rt.alloc(), &script, flushes)?,
            "at {flushes}"
        );
    }
    Ok(())
}

// How many calls of the port there are before one fails. How many lines are then said where a read gives one byte: each
// job is sent and answered before the next line. How many where a read gives all: five jobs are sent, and then answered.
const CALLS: [(usize, usize, usize); 10] = [
    (0, 1, 1),
    (1, 1, 1),
    (2, 2, 1),
    (3, 2, 1),
    (4, 3, 1),
    (5, 3, 1),
    (6, 6, 2),
    (7, 6, 3),
    (8, 7, 6),
    (9, 7, 7),
];

// Whether a session whose port fails after so many calls says so many lines.
fn fails_at_call(
    alloc: Global,
    script: &Script,
    step: usize,
    calls: usize,
    lines: usize,
) -> Result<bool, Fail> {
    let reach = Reach { step, calls, ..FAR };
    let served = serve_input(alloc, &script.input, reach)?;
    Ok(
        served.end == Err(SessionFault::Port)
            && served.output.as_slice() == first_lines(&script.wanted, lines)
            && served.told <= served.sent,
    )
}

#[test]
fn each_call_of_the_port_fails(rt: HostRuntime) -> Result<(), Fail> {
    let script = example(rt.alloc())?;
    for (calls, by_one, at_once) in CALLS {
        assert!(rt;
            fails_at_call(rt.alloc(), &script, 1, calls, by_one)?,
            "at {calls}"
        );
        assert!(rt;
            fails_at_call(rt.alloc(), &script, MANY, calls, at_once)?,
            "at {calls} at once"
        );
    }
    let served = serve_input(rt.alloc(), &script.input, Reach { calls: 10, ..FAR })?;
    assert!(rt; is_whole(&served, &script));
    Ok(())
}

// A port that can't tell whether an answer is there and gives so many; so many writes were made before it is asked for
// the next, and so many lines were said.
const BEFORE_NEXT: [(usize, usize); 5] = [(0, 1), (1, 2), (2, 3), (3, 6), (4, 7)];

// Whether all is written before the port is asked for an answer that may have to be waited for: a write that fails there
// comes first. Where the port tells that the answer is there, it is asked first.
fn writes_before_it_waits(
    alloc: Global,
    script: &Script,
    answers: usize,
    lines: usize,
) -> Result<bool, Fail> {
    let reach = Reach {
        calls: answers.saturating_add(5),
        is_telling: false,
        ..FAR
    };
    let asked = serve_input(alloc, &script.input, reach)?;
    let writes = answers;
    let unwritten = serve_input(alloc, &script.input, Reach { writes, ..reach })?;
    let is_telling = true;
    let told = serve_input(
        alloc,
        &script.input,
        Reach {
            writes,
            is_telling,
            ..reach
        },
    )?;
    Ok(
        asked.end == Err(SessionFault::Port)
            && asked.output.as_slice() == first_lines(&script.wanted, lines)
            && asked.writes == answers.saturating_add(1)
            && unwritten.end == Err(SessionFault::Write)
            && unwritten.told == answers
            && told.end == Err(SessionFault::Port),
    )
}

#[test]
fn what_is_said_is_written_before_it_waits(rt: HostRuntime) -> Result<(), Fail> {
    let script = example(rt.alloc())?;
    for (answers, lines) in BEFORE_NEXT {
        assert!(rt;
            writes_before_it_waits(rt.alloc(), &script, answers, lines)?,
            "before {answers}"
        );
    }
    Ok(())
}

// What a reader gives at once, and whose answers the port gives.
const STRANGERS: [(usize, Giving); 4] = [
    (1, Giving::OfAnotherJob),
    (1, Giving::OfAnotherSession),
    (MANY, Giving::OfAnotherJob),
    (MANY, Giving::OfAnotherSession),
];

// How many bytes stand behind the call that gets a stranger's answer, and are not read with it.
fn count_unread(step: usize) -> usize {
    if step == 1 {
        DROPPED.len().saturating_add(3)
    } else {
        0
    }
}

#[test]
fn a_strange_answer_ends_the_session(rt: HostRuntime) -> Result<(), Fail> {
    let script = script_of(rt.alloc(), STRANGER)?;
    for (step, giving) in STRANGERS {
        let reach = Reach {
            step,
            giving,
            ..FAR
        };
        let served = serve_input(rt.alloc(), &script.input, reach)?;
        assert_eq!(rt; served.end, Ok(()));
        assert!(rt; served.output == script.wanted);
        assert_eq!(rt; (served.sent, served.told), (1, 0));
        assert_eq!(rt; served.left, count_unread(step));
    }
    let failing = serve_input(rt.alloc(), &script.input, Reach { calls: 0, ..FAR })?;
    assert_eq!(rt; failing.end, Err(SessionFault::Port));
    assert!(rt; failing.output.as_slice() == first_lines(&script.wanted, 3));
    Ok(())
}

// A line and what is said to it, again and again.
fn repeat(script: &mut Script, line: &str, said: &str, times: u32) -> Result<(), Fail> {
    for _ in 0..times {
        add_line(&mut script.input, line.as_bytes())?;
        add_line(&mut script.wanted, said.as_bytes())?;
    }
    Ok(())
}

// A hello.
fn greeting(alloc: Global) -> Result<Script, Fail> {
    let mut script = Script::new(alloc);
    repeat(&mut script, HELLO, "{\"hello\":\"R100\"}", 1)?;
    Ok(script)
}

// Behind a hello four calls, a line that is none, and sixteen calls more.
fn add_many(script: &mut Script) -> Result<(), Fail> {
    repeat(script, ASK, UNKNOWN, 4)?;
    repeat(script, "[]", BAD_JSON, 1)?;
    repeat(script, ASK, UNKNOWN, 16)
}

// What a reader gives at once, whether the port tells that answers are there, how many answers waited at most, and how
// many writes there were: one for each line where a read gives one byte; one for all, where all are there at once; and one
// before each answer that may have to be waited for, beside the last.
const MANY_LINES: [(usize, bool, usize, usize); 3] = [
    (1, true, 1, 22),
    (MANY, true, 16, 1),
    (MANY, false, 16, 21),
];

#[test]
fn many_lines_take_few_reads_and_writes(rt: HostRuntime) -> Result<(), Fail> {
    let mut script = greeting(rt.alloc())?;
    add_many(&mut script)?;
    for (step, is_telling, most, writes) in MANY_LINES {
        let reach = Reach {
            step,
            is_telling,
            ..FAR
        };
        let served = serve_input(rt.alloc(), &script.input, reach)?;
        let reads = script.input.len().div_ceil(step).saturating_add(1);
        assert_eq!(rt; served.end, Ok(()));
        assert!(rt; served.output == script.wanted);
        assert_eq!(rt; (served.sent, served.most), (20, most));
        assert_eq!(rt; (served.reads, served.writes), (reads, writes));
    }
    Ok(())
}

// What is said to 5,000 lines that are read at once, 105,000 bytes, is written once 65,536 bytes are pending, and at the end.
#[test]
fn much_is_written_in_parts(rt: HostRuntime) -> Result<(), Fail> {
    let mut script = greeting(rt.alloc())?;
    repeat(&mut script, "[]", BAD_JSON, 5000)?;
    let served = serve_input(rt.alloc(), &script.input, FAR)?;
    assert_eq!(rt; served.end, Ok(()));
    assert!(rt; served.output == script.wanted);
    assert_eq!(rt; (served.reads, served.writes), (2, 2));
    Ok(())
}
