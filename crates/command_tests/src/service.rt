//! Services over loopback, until their input ends.

use crate::commands::{Ended, arguments, end_of};
use crate::journaled_serving::{
    EARLY_RELEASE, PLAN, RELEASE, SHIFTS, free_address, is_answered_there,
};
use crate::journals::path_of;
use crate::serving::FIRST_HELLO;
use hub_commands::perform;
use std::alloc::Global;
use std::fs::File;
use std::io::{Read, Write};
use std::net::{Ipv4Addr, Net, OpenListener, SocketAddr, TcpListener, TcpStream};
use std::random::RandomSource;
use std::rt::{Clock, Files};
use std::sync::Wait;
use std::test::Fail;
use std::thread::Threads;
use std::{fs, io, thread};
use test_scripts::Script;

// An input, and what it ends with: it ends once that is dropped.
pub(crate) fn input_until_dropped<R>(rt: &R) -> io::Result<(TcpStream, TcpStream)>
where
    R: Net<Listener = TcpListener, Stream = TcpStream>,
{
    let listener = TcpListener::bind(rt, (Ipv4Addr::LOCALHOST, 0))?;
    let until = TcpStream::connect(rt, listener.local_addr()?)?;
    let (input, _) = listener.accept()?;
    Ok((input, until))
}

// Serves as these words say until the input ends.
pub(crate) fn serve_until<H, I>(rt: &H, words: &str, input: I) -> Result<Ended, Fail>
where
    H: Files<File = File>
        + Net<Listener = TcpListener, Stream = TcpStream>
        + Threads
        + Wait
        + Clock
        + Sync
        + RandomSource
        + AllocGlobal,
    I: Read + Send + Drop,
{
    let arguments = arguments(rt.alloc(), words)?;
    let (mut output, mut errors) = (Vec::new(rt.alloc()), Vec::new(rt.alloc()));
    let status = perform(rt, &arguments, input, &mut output, &mut errors);
    Ok(Ended {
        status,
        output,
        errors,
    })
}

// Whether a railway that sends the lines of a script is said those that are wanted. Then it breaks off in the middle of a line.
fn is_answered_until_it_breaks_off<R: Net>(
    rt: &R,
    alloc: Global,
    address: SocketAddr,
    script: &Script,
) -> io::Result<bool> {
    let mut stream = TcpStream::connect(rt, address)?;
    stream.write_all(script.input.as_slice())?;
    let mut said = Vec::new(alloc);
    for _ in 0..script.wanted.len() {
        let mut byte = [0];
        stream.read_exact(&mut byte)?;
        said.push(byte[0])?;
    }
    stream.write_all(b"{\"kind\":\"release\",\"from\":\"R1")?;
    Ok(said.as_slice() == script.wanted.as_slice())
}

// The same, as soon as somebody listens.
fn breaks_off_there<R: Net>(rt: &R, alloc: Global, address: SocketAddr, script: &Script) -> bool {
    for _ in 0..1_000_000 {
        if let Ok(answered) = is_answered_until_it_breaks_off(rt, alloc, address, script) {
            return answered;
        }
        thread::yield_now();
    }
    false
}

// What is printed of the wagon that is planned and released: two calls came before the break, and three after it.
const PRINTED: &str = "settled 5
wagons 1
218124712173 R100 ---- 0 released  DE00001 2025-03-01T10:30Z         0 loading
";

// A message that is sent again gets its first reply, though by now the wagon is planned.
#[test]
fn a_railway_comes_back(rt: HostRuntime) -> Result<(), Fail> {
    let alloc = rt.alloc();
    let first = Script::of(alloc, &[FIRST_HELLO, EARLY_RELEASE, PLAN])?;
    let again = Script::of(alloc, &[FIRST_HELLO, EARLY_RELEASE, PLAN, RELEASE])?;
    let address = free_address(&rt)?;
    let port = address.port();
    let words = format!(in alloc; "taf_hub|open|--port|{port}|--sessions|2")?;
    let (input, until) = input_until_dropped(&rt)?;
    let (answered, ended) = thread::join(
        &rt,
        || {
            let answered = breaks_off_there(&rt, alloc, address, &first)
                && is_answered_there(&rt, alloc, address, &again);
            drop(until);
            answered
        },
        || serve_until(&rt, words.as_str(), input),
    );
    let ended = ended?;
    let listening = format!(in alloc;
        "listening on 127.0.0.1:{port}, up to 2 sessions at a time\n"
    )?;
    assert!(rt; answered && ended.status == 0);
    assert!(rt; ended.output.as_slice() == PRINTED.as_bytes());
    assert!(rt; ended.errors.as_slice() == listening.as_bytes());
    Ok(())
}

// Whether each of these services, one after another with the journal of this path, gives its railway the replies that are wanted.
fn serves_in_turn<H>(rt: &H, path: &str) -> Result<bool, Fail>
where
    H: Files<File = File>
        + Net<Listener = TcpListener, Stream = TcpStream>
        + Threads
        + Wait
        + Clock
        + Sync
        + RandomSource
        + AllocGlobal,
{
    let alloc = rt.alloc();
    for (lines, before, report) in &SHIFTS {
        let script = Script::of(alloc, *lines)?;
        let address = free_address(rt)?;
        let port = address.port();
        let words = format!(in alloc; "taf_hub|open|--port|{port}|--journal|{path}")?;
        let (input, until) = input_until_dropped(rt)?;
        let (answered, ended) = thread::join(
            rt,
            || {
                let answered = is_answered_there(rt, alloc, address, &script);
                drop(until);
                answered
            },
            || serve_until(rt, words.as_str(), input),
        );
        let ended = ended?;
        let had = format!(in alloc; "{path}{before}")?;
        let begins = ended.errors.starts_with(had.as_bytes()) && ended.output.starts_with(*report);
        if !answered || ended.status != 0 || !begins {
            return Ok(false);
        }
    }
    Ok(true)
}

// The next service begins with the calls of the one before, as the next shift does.
#[test]
fn the_next_service_goes_on(rt: HostRuntime) -> Result<(), Fail> {
    let path = path_of(rt, 104)?;
    let served = serves_in_turn(&rt, path.as_str());
    let gone = fs::remove_file(&rt, path.as_str());
    assert!(rt; served? && gone.is_ok());
    Ok(())
}

// A service whose input has ended before it began ends at once.
#[test]
fn a_service_without_input_ends(rt: HostRuntime) -> Result<(), Fail> {
    let port = free_address(&rt)?.port();
    let words = format!(in rt.alloc(); "taf_hub|open|--port|{port}")?;
    let ended = end_of(&rt, words.as_str(), "")?;
    assert!(rt; ended.status == 0);
    assert!(rt; ended.output.as_slice() == "settled 0\nwagons 0\n".as_bytes());
    Ok(())
}

// The keys of two railways, `green-signal-100` and `green-signal-200`: the digests are those that `sha256sum` gives.
const KEYS: &str = "# winter
R100 7b31adcccc6ae7d4ab9e14ae42869c791517dcccdad93183c4b8cc657ca790da

R200 0a21d3ca889900ab786fa76332362f514d1171a56653c0bfb13ac1d9abb1cf7b
";

// What railways send on connections of their own, and all that each is said until its connection ends.
static KEYED: [&[&str]; 5] = [
    &[
        r#"{"kind":"hello","from":"R100","key":"green-signal-200"}
> {"fault":"wrong_key"}"#,
    ],
    &[
        r#"{"kind":"hello","from":"R100"}
> {"fault":"wrong_key"}"#,
    ],
    &[
        r#"{"kind":"hello","from":"R300","key":"green-signal-100"}
> {"fault":"wrong_key"}"#,
    ],
    &[
        r#"{"kind":"hello","from":"R100","key":"green-signal-100"}
> {"hello":"R100"}"#,
        PLAN,
    ],
    &[
        r#"
{"key":"green-signal-200","kind":"hello","from":"R200"}
> {"hello":"R200"}"#,
    ],
];

// Whether each railway, one after another, is said what is wanted as soon as somebody listens.
fn are_answered_by_key<R: Net>(rt: &R, alloc: Global, address: SocketAddr) -> bool {
    for lines in &KEYED {
        let Ok(script) = Script::of(alloc, *lines) else {
            return false;
        };
        if !is_answered_there(rt, alloc, address, &script) {
            return false;
        }
    }
    true
}

// Whether a service with the keys of this path answers railways by them, and ends well.
fn serves_by_key<H>(rt: &H, path: &str) -> Result<bool, Fail>
where
    H: Files<File = File>
        + Net<Listener = TcpListener, Stream = TcpStream>
        + Threads
        + Wait
        + Clock
        + Sync
        + RandomSource
        + AllocGlobal,
{
    let alloc = rt.alloc();
    let address = free_address(rt)?;
    let port = address.port();
    let words = format!(in alloc; "taf_hub|open|--port|{port}|--keys|{path}")?;
    let (input, until) = input_until_dropped(rt)?;
    let (answered, ended) = thread::join(
        rt,
        || {
            let answered = are_answered_by_key(rt, alloc, address);
            drop(until);
            answered
        },
        || serve_until(rt, words.as_str(), input),
    );
    let ended = ended?;
    Ok(answered && ended.status == 0 && ended.output.starts_with(b"settled 1\nwagons 1\n"))
}

#[test]
fn railways_are_served_by_their_keys(rt: HostRuntime) -> Result<(), Fail> {
    let path = path_of(rt, 105)?;
    fs::write(&rt, path.as_str(), KEYS)?;
    let served = serves_by_key(&rt, path.as_str());
    let gone = fs::remove_file(&rt, path.as_str());
    assert!(rt; served? && gone.is_ok());
    Ok(())
}

// Files of keys that are not taken, and what is said of each behind its path.
static FAULTY_KEYS: [(&[u8], &str); 3] = [
    (
        b"# winter\nR100 green-signal-100\n",
        ": line 2 of the keys: it ends in no digest of 64 hexadecimal digits\nfault: keys refused\n",
    ),
    (
        b"# winter\n\nR10\n",
        ": line 3 of the keys: it is no railway and digest with a blank between them\nfault: keys refused\n",
    ),
    (
        b"# \xff\n",
        ": the file is not UTF-8\nfault: keys refused\n",
    ),
];

// Whether a service with the keys of this path, and with a journal, ends at once with this status and these lines, behind the path, and
// makes no journal.
fn is_refused<H>(rt: &H, path: &str, status: u8, lines: &str) -> Result<bool, Fail>
where
    H: Files<File = File>
        + Net<Listener = TcpListener, Stream = TcpStream>
        + Threads
        + Wait
        + Clock
        + Sync
        + RandomSource
        + AllocGlobal,
{
    let alloc = rt.alloc();
    let journal = format!(in alloc; "{path}-journal")?;
    let words = format!(in alloc; "taf_hub|open|--port|7000|--journal|{journal}|--keys|{path}")?;
    let ended = end_of(rt, words.as_str(), "")?;
    let told = format!(in alloc; "{path}{lines}")?;
    let is_made = fs::exists(rt, journal.as_str())?;
    let is_told = ended.output.is_empty() && ended.errors.as_slice() == told.as_bytes();
    Ok(ended.status == status && is_told && !is_made)
}

#[test]
fn faulty_keys_are_refused(rt: HostRuntime) -> Result<(), Fail> {
    let path = path_of(rt, 106)?;
    let path = path.as_str();
    let absent = ": the file could not be read\nfault: keys file\n";
    assert!(rt; is_refused(&rt, path, 3, absent)?);
    for (text, lines) in &FAULTY_KEYS {
        fs::write(&rt, path, *text)?;
        let refused = is_refused(&rt, path, 2, lines);
        let gone = fs::remove_file(&rt, path);
        assert!(rt; refused? && gone.is_ok(), "{lines}");
    }
    Ok(())
}
