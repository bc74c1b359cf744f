use crate::play::{INTERCHANGE, first_output_of, no_difference};
use std::alloc::Global;
use std::test::Fail;
use std::thread::Threads;
use test_scripts::{Script, count_lines, first_lines};

// A session's first line is no call, and without sessions anyone may ask.
pub(crate) const BAD_LINES: &str = r#"{"kind":"ask","from":"DE
> {"fault":"bad_json"}
[]
> {"fault":"bad_json"}
{}
> {"fault":"bad_kind"}
{"kind":"ask"}
> {"fault":"missing_field","field":"from"}
{"kind":"ask","from":"r100"}
> {"fault":"bad_field","field":"from"}
{"from":"R100","kind":"ask","wagon":"218124712174"}
> {"fault":"bad_field","field":"wagon"}
{"at":"2025-03-01T07:00Z","delay":100001,"from":"R101","kind":"exception","no":2,"wagon":"218124712173"}
> {"fault":"bad_field","field":"delay"}
{"kind":"fetch","from":"R100","limit":1.0}
> {"fault":"bad_field","field":"limit"}
{"kind":"fetch","from":"R100","limit":1e0}
> {"fault":"bad_field","field":"limit"}
{"kind":"fetch","from":"R100","limit":-1}
> {"fault":"bad_field","field":"limit"}
{"kind":"fetch","from":"R100","limit":0}
> {"fault":"bad_field","field":"limit"}
{"kind":"fetch","from":"R100","limit":51}
> {"fault":"bad_field","field":"limit"}
{"kind":"fetch","from":"R100","limit":null}
> {"fault":"bad_field","field":"limit"}
{"kind":"hello","from":"R100"}
> {"fault":"bad_kind"}
{"from":"R101","kind":"ask","wagon":"218124712173"}
> {"reply":"refused","wagon":"218124712173","why":"unknown_wagon"}
{"kind":"ask","from":"R100","wagon":"318066552148"}
> {"reply":"refused","wagon":"318066552148","why":"unknown_wagon"}"#;

pub(crate) static EXAMPLES: &[(&str, &[&str])] = &[("bad lines", &[BAD_LINES])];

const ASK: &str = r#"{"kind":"ask","from":"R100","wagon":"318066552148"}"#;

const UNKNOWN: &str = r#"{"reply":"refused","wagon":"318066552148","why":"unknown_wagon"}
"#;

const TOO_LONG: &str = r#"{"fault":"line_too_long"}
"#;

const BAD_JSON: &str = r#"{"fault":"bad_json"}
"#;

const TOO_LONG_AND_BAD: &str = r#"{"fault":"line_too_long"}
{"fault":"bad_json"}
"#;

// How a line begins, the byte that it is filled with, its size, what stands behind it, and what is answered.
static FILLED: [(&str, u8, usize, &str, &str); 20] = [
    (ASK, b' ', 65_536, "", UNKNOWN),
    (ASK, b' ', 65_536, "\n", UNKNOWN),
    (ASK, b' ', 65_537, "", TOO_LONG),
    (ASK, b' ', 65_537, "\n", TOO_LONG),
    (ASK, b' ', 65_537, "\n\n[]\n", TOO_LONG_AND_BAD),
    ("", b'[', 30_000, "", BAD_JSON),
    ("", b'[', 30_000, "\n", BAD_JSON),
    ("", b'[', 300_000, "\n\n[]\n", TOO_LONG_AND_BAD),
    ("", 0xFF, 1, "", BAD_JSON),
    ("", 0xFF, 1, "\n", BAD_JSON),
    ("\"", 0xC3, 2, "", BAD_JSON),
    ("\"", 0xC3, 2, "\n", BAD_JSON),
    ("", b' ', 65_537, "", TOO_LONG),
    ("", b' ', 65_537, "\n", TOO_LONG),
    ("", b' ', 65_536, "", ""),
    ("", b' ', 0, "", ""),
    ("", b' ', 0, "\n", ""),
    ("", b' ', 0, "\n\n\n", ""),
    ("", b' ', 1, "\t\r", ""),
    ("", b' ', 1, "\n\t\n\r\n\n ", ""),
];

// A line that is filled with a byte to this size, and what stands behind it.
fn filled(alloc: Global, line: &str, fill: u8, size: usize, behind: &str) -> Result<Vec<u8>, Fail> {
    let mut input = Vec::from_slice(alloc, line.as_bytes())?;
    for _ in line.len()..size {
        input.push(fill)?;
    }
    input.extend_from_slice(behind.as_bytes())?;
    Ok(input)
}

#[test]
fn long_lines_and_blank_ones(rt: HostRuntime) -> Result<(), Fail> {
    for (line, fill, size, behind, wanted) in &FILLED {
        let input = filled(rt.alloc(), line, *fill, *size, behind)?;
        let output = first_output_of(&rt, rt.alloc(), &input)?;
        no_difference(&output, wanted.as_bytes())?;
    }
    Ok(())
}

// The answers to an input that is cut. Whole lines have theirs. A rest has the answer to its call where the cut took the
// newline alone; else it is no call.
fn answers_to(alloc: Global, front: &[u8], rest: &[u8], answers: &[u8]) -> Result<Vec<u8>, Fail> {
    let is_call = rest.first() == Some(&b'\n');
    let lines = count_lines(front).saturating_add(usize::from(is_call));
    let mut wanted = Vec::from_slice(alloc, first_lines(answers, lines))?;
    let is_whole = front.is_empty() || front.ends_with(b"\n");
    if !is_whole && !is_call {
        wanted.extend_from_slice(BAD_JSON.as_bytes())?;
    }
    Ok(wanted)
}

// Whether the script that is cut at a byte is answered as it has to be.
fn is_cut_answered(
    rt: &impl Threads,
    alloc: Global,
    script: &Script,
    cut: usize,
) -> Result<bool, Fail> {
    let Some((front, rest)) = script.input.split_at_checked(cut) else {
        return Err(Fail::new("no such cut"));
    };
    let wanted = answers_to(alloc, front, rest, &script.wanted)?;
    Ok(first_output_of(rt, alloc, front)? == wanted)
}

#[test]
fn an_interchange_is_cut_at_every_byte(rt: HostRuntime) -> Result<(), Fail> {
    let script = Script::of(rt.alloc(), INTERCHANGE)?;
    for cut in 0..=script.input.len() {
        if !is_cut_answered(&rt, rt.alloc(), &script, cut)? {
            return Err(Fail::new(cut));
        }
    }
    Ok(())
}
