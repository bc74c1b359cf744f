//! Scripts of single lines, of sixteen jobs, of held lines and of answers that are not the session's.

use crate::script_runner::{HELLO, ScriptRunner};
use std::alloc::Global;
use std::str;
use std::test::Fail;
use test_scripts::{Script, count_lines};

// A session from its hello to an answer that is not its own.
const STRANGER: &str = r#"{"kind":"ask","from":"R100","wagon":"218124712173"}
> {"fault":"no_hello"}
{"kind":"hello","from":"R100"}
> {"hello":"R100"}
{"kind":"ask","from":"R101","wagon":"218124712173"}
> {"fault":"wrong_sender"}
{"kind":"ask","from":"R100","wagon":"218124712173"}
> job a
< b
> {"fault":"stranger"}
{"kind":"ask","from":"R100","wagon":"218124712173"}
> ended

> ended
front
> none
< a
> no job"#;

// An answer to another session's job, after one of its own. A held line is dropped.
const OTHER_SESSION: &str = r#"{"kind":"hello","from":"R100"}
> {"hello":"R100"}
{"kind":"ask","from":"R100","wagon":"318066552148"}
> job a
{"kind":"ask","from":"R100","wagon":"318066552148"}
> job b
[]
> held
< a
> {"reply":"refused","wagon":"318066552148","why":"unknown_wagon"}
another's < b
> {"fault":"stranger"}
front
> none
{"kind":"ask","from":"R100","wagon":"318066552148"}
> ended"#;

// The answer to a job comes twice.
const TWICE: &str = r#"{"kind":"hello","from":"R100"}
> {"hello":"R100"}
{"kind":"ask","from":"R100","wagon":"318066552148"}
> job a
{"kind":"ask","from":"R100","wagon":"318066552148"}
> job b
< a
> {"reply":"refused","wagon":"318066552148","why":"unknown_wagon"}
< a
> {"fault":"stranger"}
< b
> no job
{"kind":"ask","from":"R100","wagon":"318066552148"}
> ended"#;

// A hello, and fifteen jobs.
const FIFTEEN_JOBS: &str = r#"{"kind":"hello","from":"R100"}
> {"hello":"R100"}
{"kind":"ask","from":"R100","wagon":"318066552148"}
> job a
{"kind":"ask","from":"R100","wagon":"318066552148"}
> job b
{"kind":"ask","from":"R100","wagon":"318066552148"}
> job c
{"kind":"ask","from":"R100","wagon":"318066552148"}
> job d
{"kind":"ask","from":"R100","wagon":"318066552148"}
> job e
{"kind":"ask","from":"R100","wagon":"318066552148"}
> job f
{"kind":"ask","from":"R100","wagon":"318066552148"}
> job g
{"kind":"ask","from":"R100","wagon":"318066552148"}
> job h
{"kind":"ask","from":"R100","wagon":"318066552148"}
> job i
{"kind":"ask","from":"R100","wagon":"318066552148"}
> job j
{"kind":"ask","from":"R100","wagon":"318066552148"}
> job k
{"kind":"ask","from":"R100","wagon":"318066552148"}
> job l
{"kind":"ask","from":"R100","wagon":"318066552148"}
> job m
{"kind":"ask","from":"R100","wagon":"318066552148"}
> job n
{"kind":"ask","from":"R100","wagon":"318066552148"}
> job o"#;

// The sixteenth job, and the answer to the second first.
const SIXTEENTH: &str = r#"{"kind":"ask","from":"R100","wagon":"318066552148"}
> job p

> busy
< b
> {"fault":"stranger"}
{"kind":"ask","from":"R100","wagon":"318066552148"}
> ended"#;

// A line that is held behind fifteen jobs.
const HELD: &str = r#"[]
> held
[]
> busy
front
> none
< a
> {"reply":"refused","wagon":"318066552148","why":"unknown_wagon"}
< b
> {"reply":"refused","wagon":"318066552148","why":"unknown_wagon"}
< c
> {"reply":"refused","wagon":"318066552148","why":"unknown_wagon"}
< d
> {"reply":"refused","wagon":"318066552148","why":"unknown_wagon"}
< e
> {"reply":"refused","wagon":"318066552148","why":"unknown_wagon"}
< f
> {"reply":"refused","wagon":"318066552148","why":"unknown_wagon"}
< g
> {"reply":"refused","wagon":"318066552148","why":"unknown_wagon"}
< h
> {"reply":"refused","wagon":"318066552148","why":"unknown_wagon"}
< i
> {"reply":"refused","wagon":"318066552148","why":"unknown_wagon"}
< j
> {"reply":"refused","wagon":"318066552148","why":"unknown_wagon"}
< k
> {"reply":"refused","wagon":"318066552148","why":"unknown_wagon"}
< l
> {"reply":"refused","wagon":"318066552148","why":"unknown_wagon"}
< m
> {"reply":"refused","wagon":"318066552148","why":"unknown_wagon"}
< n
> {"reply":"refused","wagon":"318066552148","why":"unknown_wagon"}
< o
> {"reply":"refused","wagon":"318066552148","why":"unknown_wagon"}
front
> {"fault":"bad_json"}
front
> none
[]
> {"fault":"bad_json"}"#;

// Answers that are faults end their jobs, and enter no tally.
const FAULTS_OF_JOBS: &str = r#"{"kind":"hello","from":"R100"}
> {"hello":"R100"}
{"kind":"ask","from":"R100","wagon":"318066552148"}
> job a
{"kind":"ask","from":"R100","wagon":"318066552148"}
> job b
{"kind":"ask","from":"R100","wagon":"318066552148"}
> job c
full < a
> {"fault":"hub_full"}
no memory < b
> {"fault":"no_memory"}
< c
> {"reply":"refused","wagon":"318066552148","why":"unknown_wagon"}
< c
> no job"#;

// Lines before the hello, each of which leaves the session without one.
const BEFORE: &str = r#"
> nothing

> nothing
   
> nothing
[]
> {"fault":"no_hello"}
{"kind":"hello","from":"R100"
> {"fault":"no_hello"}
[{"kind":"hello","from":"R100"}]
> {"fault":"no_hello"}
"hello"
> {"fault":"no_hello"}
null
> {"fault":"no_hello"}
{}
> {"fault":"no_hello"}
{"from":"R100"}
> {"fault":"no_hello"}
{"kind":"Hello","from":"R100"}
> {"fault":"no_hello"}
{"kind":["hello"],"from":"R100"}
> {"fault":"no_hello"}
{"kind":"hello","from":"R100","kind":"ask"}
> {"fault":"no_hello"}
{"kind":"ask","from":"r100"}
> {"fault":"no_hello"}
{"kind":"fetch","from":"R100","limit":10}
> {"fault":"no_hello"}
{"kind":"hello"}
> {"fault":"missing_field","field":"from"}
{"kind":"hello","no":1}
> {"fault":"missing_field","field":"from"}
{"kind":"hello","from":null}
> {"fault":"bad_field","field":"from"}
{"kind":"hello","from":100}
> {"fault":"bad_field","field":"from"}
{"kind":"hello","from":"r100"}
> {"fault":"bad_field","field":"from"}
{"kind":"hello","from":"R1000"}
> {"fault":"bad_field","field":"from"}
{"kind":"hello","from":"R100","from":"R10"}
> {"fault":"bad_field","field":"from"}
{"no":1,"from":"R10","kind":"ask","kind":"hello","from":"R100"}
> {"hello":"R100"}"#;

// Lines after the hello, by the order of their faults.
const AFTER: &str = r#"{"kind":"hello","from":"R100"}
> {"hello":"R100"}

> nothing
   
> nothing
{"kind":"ask","from":"DE
> {"fault":"bad_json"}
[]
> {"fault":"bad_json"}
"ask"
> {"fault":"bad_json"}
{}
> {"fault":"bad_kind"}
{"kind":null}
> {"fault":"bad_kind"}
{"kind":"call"}
> {"fault":"bad_kind"}
{"kind":"hello","from":"R100"}
> {"fault":"bad_kind"}
{"kind":"hello","from":"R101"}
> {"fault":"bad_kind"}
{"kind":"ask"}
> {"fault":"missing_field","field":"from"}
{"kind":"ask","wagon":7}
> {"fault":"missing_field","field":"from"}
{"kind":"ask","from":"r100"}
> {"fault":"bad_field","field":"from"}
{"kind":"ask","from":"R101"}
> {"fault":"missing_field","field":"wagon"}
{"kind":"ask","from":"R101","wagon":"218124712174"}
> {"fault":"bad_field","field":"wagon"}
{"kind":"fetch","from":"R101","limit":51}
> {"fault":"bad_field","field":"limit"}
{"kind":"plan","from":"R101","no":1,"consignment":"C-1","load":"loaded","commit":"2025-03-01T15:30Z","wagons":["218124712173"],"legs":[]}
> {"code":1,"fault":"bad_plan"}
{"kind":"ask","from":"R101","wagon":"218124712173"}
> {"fault":"wrong_sender"}
{"kind":"ask","from":"R100","wagon":"318066552148","no":"x"}
> job a
< a
> {"reply":"refused","wagon":"318066552148","why":"unknown_wagon"}"#;

// The scripts, and how many entries the tally of each has.
static SCRIPTS: &[(&[&str], usize)] = &[
    (&[STRANGER], 0),
    (&[OTHER_SESSION], 1),
    (&[TWICE], 1),
    (&[FIFTEEN_JOBS, SIXTEENTH], 0),
    (&[FIFTEEN_JOBS, HELD], 15),
    (&[FAULTS_OF_JOBS], 1),
    (&[BEFORE], 0),
    (&[AFTER], 1),
];

// The bytes as a text, for a failed test to show.
fn shown(bytes: &[u8]) -> &str {
    str::from_utf8(bytes).unwrap_or("no text")
}

// Fails unless just this comes of the script, and its tally has so many entries.
fn check_script(
    runner: &mut ScriptRunner,
    script: &[&str],
    wanted: &[u8],
    told: usize,
) -> Result<(), Fail> {
    runner.run(script)?;
    let result = runner.end()?;
    if result.log.as_slice() != wanted || count_lines(&result.tally) != told {
        return Err(Fail::new(shown(&result.log)));
    }
    Ok(())
}

// Fails unless each script is answered.
fn check_scripts(runner: &mut ScriptRunner, alloc: Global) -> Result<(), Fail> {
    for (script, told) in SCRIPTS {
        let wanted = Script::of(alloc, script)?.wanted;
        check_script(runner, script, &wanted, *told)?;
    }
    Ok(())
}

#[test]
fn scripts_are_answered(rt: HostRuntime) -> Result<(), Fail> {
    let mut runner = ScriptRunner::new(rt.alloc())?;
    check_scripts(&mut runner, rt.alloc())
}

// A call of each kind, of another railway than the session's.
static OF_ANOTHER: &str =
    r#"{"kind":"plan","from":"R101","no":1,"consignment":"C-1","load":"loaded","commit":"2025-03-01T15:30Z","wagons":["218124712173"],"legs":[{"ru":"R100","origin":"DE00001","target":"AT00002","minutes":300}]}
{"kind":"plan","from":"R101","no":1,"consignment":"C-1","load":"loaded","commit":"2025-03-01T15:30Z","wagons":["218124712173"],"legs":[{"ru":"R100","origin":"DE00001","target":"AT00002","minutes":300}],"units":[{"unit":"CSQU3054383","wagon":"218124712173"}]}
{"kind":"release","from":"R101","no":2,"wagon":"218124712173","at":"2025-03-01T05:30Z"}
{"kind":"depart","from":"R101","no":2,"wagon":"218124712173","at":"2025-03-01T05:30Z"}
{"kind":"yard_in","from":"R101","no":2,"wagon":"218124712173","at":"2025-03-01T05:30Z","place":"AT00002"}
{"kind":"yard_out","from":"R101","no":2,"wagon":"218124712173","at":"2025-03-01T05:30Z","place":"AT00002"}
{"kind":"exception","from":"R101","no":2,"wagon":"218124712173","at":"2025-03-01T05:30Z","delay":45}
{"kind":"eti","from":"R101","no":2,"wagon":"218124712173","at":"2025-03-01T05:30Z"}
{"kind":"eti_ask","from":"R101","no":2,"wagon":"218124712173"}
{"kind":"leg_time","from":"R101","no":2,"wagon":"218124712173","leg":1,"minutes":200}
{"kind":"offer","from":"R101","no":2,"at":"2025-03-01T05:30Z","train":"T-77","place":"AT00002","to":"R100","wagons":["218124712173"]}
{"kind":"answer","from":"R101","no":2,"at":"2025-03-01T05:30Z","offerer":"R100","offer":6,"received":["218124712173"],"refused":[]}
{"kind":"withdraw","from":"R101","no":2,"at":"2025-03-01T05:30Z","offer":6}
{"kind":"arrival","from":"R101","no":2,"wagon":"218124712173","at":"2025-03-01T05:30Z"}
{"kind":"delivery","from":"R101","no":2,"wagon":"218124712173","at":"2025-03-01T05:30Z"}
{"kind":"reroute","from":"R101","no":2,"wagon":"218124712173","legs":[{"ru":"R100","origin":"AT00002","target":"CH00004","minutes":180}]}
{"kind":"ask","from":"R101","wagon":"218124712173"}
{"kind":"ask_unit","from":"R101","unit":"CSQU3054383"}
{"kind":"deviation","from":"R101","consignment":"C-1"}
{"kind":"fetch","from":"R101","limit":10}
{"kind":"ack","from":"R101","item":1}"#;

// What comes of a line behind these commands.
fn log_of(runner: &mut ScriptRunner, first: &str, line: &[u8]) -> Result<Vec<u8>, Fail> {
    runner.run_text(first)?;
    runner.read_line(line)?;
    Ok(runner.end()?.log)
}

#[test]
fn calls_of_another_railway(rt: HostRuntime) -> Result<(), Fail> {
    let mut runner = ScriptRunner::new(rt.alloc())?;
    for line in OF_ANOTHER.lines() {
        let log = log_of(&mut runner, HELLO, line.as_bytes())?;
        if log.as_slice() != WRONG_SENDER.as_bytes() {
            return Err(Fail::new(line));
        }
    }
    Ok(())
}

const ASK: &str = r#"{"kind":"ask","from":"R100","wagon":"318066552148"}"#;

const TOO_LONG: &str = "{\"fault\":\"line_too_long\"}\n";

const GREETED: &str = "{\"hello\":\"R100\"}\n";

const NO_HELLO: &str = "{\"fault\":\"no_hello\"}\n";

const NOTHING: &str = "nothing\n";

const GREETED_NOTHING: &str = "{\"hello\":\"R100\"}\nnothing\n";

const GREETED_JOB: &str = "{\"hello\":\"R100\"}\njob a\n";

const GREETED_TOO_LONG: &str = "{\"hello\":\"R100\"}\n{\"fault\":\"line_too_long\"}\n";

const GREETED_BAD_JSON: &str = "{\"hello\":\"R100\"}\n{\"fault\":\"bad_json\"}\n";

const WRONG_SENDER: &str = "{\"hello\":\"R100\"}\n{\"fault\":\"wrong_sender\"}\n";

// The line before it, how a line begins, the byte that it is filled with, its size, and what comes of both.
type Filled = (&'static str, &'static str, u8, usize, &'static str);

static FILLED: [Filled; 21] = [
    ("", HELLO, b' ', 65_536, GREETED),
    ("", HELLO, b' ', 65_537, TOO_LONG),
    ("", HELLO, b'\r', 31, GREETED),
    ("", "", b' ', 65_536, NOTHING),
    ("", "", b' ', 65_537, TOO_LONG),
    ("", "", b'\r', 1, NOTHING),
    ("", "", b'\t', 3, NOTHING),
    ("", "", b'[', 30_000, NO_HELLO),
    ("", "", b'[', 65_537, TOO_LONG),
    ("", "", 0xFF, 1, NO_HELLO),
    (HELLO, ASK, b' ', 65_536, GREETED_JOB),
    (HELLO, ASK, b' ', 65_537, GREETED_TOO_LONG),
    (HELLO, ASK, b'\r', 52, GREETED_JOB),
    (HELLO, "", b' ', 65_536, GREETED_NOTHING),
    (HELLO, "", b' ', 65_537, GREETED_TOO_LONG),
    (HELLO, "", b'\r', 1, GREETED_NOTHING),
    (HELLO, "", b'\t', 3, GREETED_NOTHING),
    (HELLO, "", b'[', 30_000, GREETED_BAD_JSON),
    (HELLO, "", b'[', 300_000, GREETED_TOO_LONG),
    (HELLO, "", 0xFF, 1, GREETED_BAD_JSON),
    (HELLO, "\"", 0xC3, 2, GREETED_BAD_JSON),
];

// A line that is filled with a byte to this size.
fn filled(alloc: Global, line: &str, fill: u8, size: usize) -> Result<Vec<u8>, Fail> {
    let mut bytes = Vec::from_slice(alloc, line.as_bytes())?;
    for _ in line.len()..size {
        bytes.push(fill)?;
    }
    Ok(bytes)
}

// Fails unless this comes of a line that is filled so.
fn check_filled(runner: &mut ScriptRunner, alloc: Global, case: &Filled) -> Result<(), Fail> {
    let (first, line, fill, size, wanted) = *case;
    let line = filled(alloc, line, fill, size)?;
    let log = log_of(runner, first, &line)?;
    if log.as_slice() == wanted.as_bytes() {
        return Ok(());
    }
    Err(Fail::new(shown(&log)))
}

// Fails unless each line is taken as it should be.
fn check_all_filled(runner: &mut ScriptRunner, alloc: Global) -> Result<(), Fail> {
    for case in &FILLED {
        check_filled(runner, alloc, case)?;
    }
    Ok(())
}

#[test]
fn long_lines_and_blank_ones(rt: HostRuntime) -> Result<(), Fail> {
    let mut runner = ScriptRunner::new(rt.alloc())?;
    check_all_filled(&mut runner, rt.alloc())
}
