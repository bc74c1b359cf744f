//! `replay` with a journal, and `check`, on files of the system.

use crate::commands::{Ended, arguments, end_of};
use hub_commands::perform;
use std::alloc::{AllocError, Global};
use std::fs::File;
use std::net::{Net, TcpListener, TcpStream};
use std::random::RandomSource;
use std::rt::{Clock, Files};
use std::sync::Wait;
use std::test::Fail;
use std::thread::Threads;
use std::{env, fs, process};

const RELEASE: &str =
    r#"{"kind":"release","from":"R100","no":2,"wagon":"218124712173","at":"2025-03-01T05:30Z"}
"#;

const FETCH: &str = "{\"kind\":\"fetch\",\"from\":\"R103\",\"limit\":10}\n";

// The journal of a release and a fetch that came at once. The sums of lines were computed apart from the program.
const TWO: &str =
    r#"{"_sum":"6183eec5a2898aec","at":"2025-03-01T05:30Z","from":"R100","kind":"release","no":2,"wagon":"218124712173"}
{"_sum":"9de69dd8c70b9f90","from":"R103","kind":"fetch","limit":10}

"#;

// What is appended to it by a further fetch.
const THIRD: &str = r#"{"_sum":"01f3ebcfc3029d4c","from":"R103","kind":"fetch","limit":10}

"#;

const TORN: &str = "{\"_sum\":\"01f3";

const REFUSED: &str =
    "{\"no\":2,\"reply\":\"refused\",\"wagon\":\"218124712173\",\"why\":\"unknown_wagon\"}\n";

const ITEMS: &str = "{\"items\":[],\"reply\":\"items\"}\n";

const REPORT: &str = "wagons 0\n";

// A command, but for the path of the journal; what the journal has, if there is one, and the input; the status, the output, and
// the errors, where `@` stands for the path; what the journal has afterwards, and what its copy.
struct Case {
    words: &'static str,
    before: &'static [&'static str],
    input: &'static [&'static str],
    status: u8,
    output: &'static [&'static str],
    errors: &'static str,
    after: &'static [&'static str],
    copy: &'static str,
}

const REPLAY: &str = "taf_hub|replay|--journal|";

const CHECK: &str = "taf_hub|check|";

static CASES: [Case; 10] = [
    Case {
        words: REPLAY,
        before: &[],
        input: &[RELEASE, FETCH],
        status: 0,
        output: &[REFUSED, ITEMS, REPORT],
        errors: "@: 0 calls\n",
        after: &[TWO],
        copy: "",
    },
    // A line that is no call is not kept.
    Case {
        words: REPLAY,
        before: &[TWO],
        input: &["\n{\n", FETCH],
        status: 0,
        output: &["{\"fault\":\"bad_json\"}\n", ITEMS, REPORT],
        errors: "@: 2 calls\n",
        after: &[TWO, THIRD],
        copy: "",
    },
    Case {
        words: REPLAY,
        before: &[TWO, TORN],
        input: &[FETCH],
        status: 0,
        output: &[ITEMS, REPORT],
        errors: "@: 2 calls; a torn end of 13 bytes was cut off, and is kept in @.cut-1\n",
        after: &[TWO, THIRD],
        copy: TORN,
    },
    // A byte 0 before a whole batch.
    Case {
        words: REPLAY,
        before: &[TWO, "\0\n\n", THIRD],
        input: &[FETCH],
        status: 8,
        output: &[],
        errors: "@: the journal is damaged behind byte 183\nfault: journal refused\n",
        after: &[TWO, "\0\n\n", THIRD],
        copy: "",
    },
    // A batch twice.
    Case {
        words: REPLAY,
        before: &[TWO, TWO],
        input: &[FETCH],
        status: 8,
        output: &[],
        errors: "@: line 3 of the journal, blank ones not counted, has a wrong sum\nfault: journal refused\n",
        after: &[TWO, TWO],
        copy: "",
    },
    // The records of a run, and no journal.
    Case {
        words: REPLAY,
        before: &[RELEASE],
        input: &[FETCH],
        status: 8,
        output: &[],
        errors: "@: the file is no journal of this program\nfault: journal refused\n",
        after: &[RELEASE],
        copy: "",
    },
    Case {
        words: CHECK,
        before: &[TWO, THIRD],
        input: &[],
        status: 0,
        output: &["calls 3\ntorn bytes 0\n"],
        errors: "",
        after: &[TWO, THIRD],
        copy: "",
    },
    Case {
        words: CHECK,
        before: &[TWO, TORN],
        input: &[],
        status: 0,
        output: &["calls 2\ntorn bytes 13\n"],
        errors: "",
        after: &[TWO, TORN],
        copy: "",
    },
    Case {
        words: CHECK,
        before: &[THIRD],
        input: &[],
        status: 8,
        output: &[],
        errors: "@: line 1 of the journal, blank ones not counted, has a wrong sum\nfault: journal refused\n",
        after: &[THIRD],
        copy: "",
    },
    Case {
        words: CHECK,
        before: &[RELEASE],
        input: &[],
        status: 8,
        output: &[],
        errors: "@: the file is no journal of this program\nfault: journal refused\n",
        after: &[RELEASE],
        copy: "",
    },
];

// The texts, one after another.
fn joined(alloc: Global, texts: &[&str]) -> Result<String, AllocError> {
    let mut all = String::new(alloc);
    for text in texts {
        all.push_str(text)?;
    }
    Ok(all)
}

// The text with the path in place of each `@`.
fn with_path(alloc: Global, text: &str, path: &str) -> Result<String, AllocError> {
    let mut all = String::new(alloc);
    for (i, part) in text.split('@').enumerate() {
        if i > 0 {
            all.push_str(path)?;
        }
        all.push_str(part)?;
    }
    Ok(all)
}

// A path that no other test takes.
pub(crate) fn path_of(rt: HostRuntime, name: usize) -> Result<String, Fail> {
    let folder = env::temp_dir(&rt)?;
    let process = process::id(rt.process());
    Ok(format!(in rt.alloc(); "{}/command-tests-{process}-{name}", folder.as_str())?)
}

// Whether the file has these bytes; a file that is not there has none.
fn has_bytes(rt: &(impl Files + AllocGlobal), path: &str, bytes: &str) -> bool {
    match fs::read(rt, path) {
        Ok(found) => found.as_slice() == bytes.as_bytes(),
        Err(_) => bytes.is_empty(),
    }
}

// Does what the words and the path name.
fn end_at<H>(rt: &H, words: &str, path: &str, input: &str) -> Result<Ended, Fail>
where
    H: Files<File = File>
        + Net<Listener = TcpListener, Stream = TcpStream>
        + Threads
        + Wait
        + Clock
        + Sync
        + RandomSource
        + AllocGlobal,
{
    let line = joined(rt.alloc(), &[words, path])?;
    end_of(rt, line.as_str(), input)
}

// Whether a command ended with this status and these texts.
fn ends_as(alloc: Global, ended: &Ended, case: &Case, path: &str) -> Result<bool, AllocError> {
    let output = joined(alloc, case.output)?;
    let errors = with_path(alloc, case.errors, path)?;
    Ok(
        ended.status == case.status
            && ended.output.as_slice() == output.as_bytes()
            && ended.errors.as_slice() == errors.as_bytes(),
    )
}

// Whether a command does with the file of this path what the case says.
fn does<H>(rt: &H, case: &Case, path: &str, copy: &str) -> Result<bool, Fail>
where
    H: Files<File = File>
        + Net<Listener = TcpListener, Stream = TcpStream>
        + Threads
        + Wait
        + Clock
        + Sync
        + RandomSource
        + AllocGlobal,
{
    let alloc = rt.alloc();
    if !case.before.is_empty() {
        fs::write(rt, path, joined(alloc, case.before)?.as_str())?;
    }
    let input = joined(alloc, case.input)?;
    let ended = end_at(rt, case.words, path, input.as_str())?;
    let after = joined(alloc, case.after)?;
    Ok(
        ends_as(alloc, &ended, case, path)?
            && has_bytes(rt, path, after.as_str())
            && has_bytes(rt, copy, case.copy),
    )
}

#[test]
fn journals_are_kept_and_checked(rt: HostRuntime) -> Result<(), Fail> {
    for (i, case) in CASES.iter().enumerate() {
        let path = path_of(rt, i)?;
        let copy = joined(rt.alloc(), &[path.as_str(), ".cut-1"])?;
        let done = does(&rt, case, path.as_str(), copy.as_str());
        let gone = fs::remove_file(&rt, path.as_str());
        let _ = fs::remove_file(&rt, copy.as_str());
        if !done? || gone.is_err() {
            return Err(Fail::new(case.errors));
        }
    }
    Ok(())
}

// What is no file that can be had: the command, the path, the status and the errors.
static NO_FILES: [(&str, &str, u8, &str); 4] = [
    (
        REPLAY,
        "/dev/null",
        8,
        "/dev/null: it is no regular file\nfault: journal refused\n",
    ),
    (
        CHECK,
        "/dev/null",
        8,
        "/dev/null: it is no regular file\nfault: journal refused\n",
    ),
    (
        REPLAY,
        "/dev/null/none",
        7,
        "/dev/null/none: the file could not be opened\nfault: journal file\n",
    ),
    (
        CHECK,
        "/dev/null/none",
        7,
        "/dev/null/none: the file could not be opened\nfault: journal file\n",
    ),
];

#[test]
fn what_is_no_file_is_refused(rt: HostRuntime) -> Result<(), Fail> {
    for (words, path, status, errors) in &NO_FILES {
        let ended = end_at(&rt, words, path, FETCH)?;
        let same = ended.output.is_empty() && ended.errors.as_slice() == errors.as_bytes();
        if ended.status != *status || !same {
            return Err(Fail::new(*errors));
        }
    }
    Ok(())
}

static BUSY: Case = Case {
    words: REPLAY,
    before: &[],
    input: &[],
    status: 8,
    output: &[],
    errors: "@: another process has the file\nfault: journal busy\n",
    after: &[],
    copy: "",
};

// Has a journal of two calls, which this process keeps open, opened again and checked.
fn is_busy<H>(rt: &H, path: &str) -> Result<bool, Fail>
where
    H: Files<File = File>
        + Net<Listener = TcpListener, Stream = TcpStream>
        + Threads
        + Wait
        + Clock
        + Sync
        + RandomSource
        + AllocGlobal,
{
    let input = joined(rt.alloc(), &[RELEASE, FETCH])?;
    let first = end_at(rt, REPLAY, path, input.as_str())?;
    let second = end_at(rt, REPLAY, path, FETCH)?;
    let checked = end_at(rt, CHECK, path, "")?;
    Ok(
        first.status == 0
            && ends_as(rt.alloc(), &second, &BUSY, path)?
            && checked.output.as_slice() == "calls 2\ntorn bytes 0\n".as_bytes()
            && has_bytes(rt, path, TWO),
    )
}

#[test]
fn a_journal_in_use_is_busy(rt: HostRuntime) -> Result<(), Fail> {
    let path = path_of(rt, 100)?;
    let busy = is_busy(&rt, path.as_str());
    let gone = fs::remove_file(&rt, path.as_str());
    assert!(rt; busy? && gone.is_ok());
    Ok(())
}

// Has two calls answered on an output with room for four bytes.
fn is_kept<H>(rt: &H, path: &str) -> Result<bool, Fail>
where
    H: Files<File = File>
        + Net<Listener = TcpListener, Stream = TcpStream>
        + Threads
        + Wait
        + Clock
        + Sync
        + RandomSource
        + AllocGlobal,
{
    let line = joined(rt.alloc(), &[REPLAY, path])?;
    let arguments = arguments(rt.alloc(), line.as_str())?;
    let input = joined(rt.alloc(), &[RELEASE, FETCH])?;
    let (mut room, mut errors) = ([0u8; 4], Vec::new(rt.alloc()));
    let input = input.as_bytes();
    let status = perform(rt, &arguments, input, room.as_mut_slice(), &mut errors);
    Ok(status == 3 && errors.ends_with(b"fault: write\n") && has_bytes(rt, path, TWO))
}

// The calls of lines that could not be answered are in the journal.
#[test]
fn an_output_that_fails_leaves_the_calls(rt: HostRuntime) -> Result<(), Fail> {
    let path = path_of(rt, 101)?;
    let kept = is_kept(&rt, path.as_str());
    let gone = fs::remove_file(&rt, path.as_str());
    assert!(rt; kept? && gone.is_ok());
    Ok(())
}
