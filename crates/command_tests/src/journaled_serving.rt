//! Shifts with a journal, over loopback and on files of the system.
use crate::commands::{Ended, end_of};
use crate::journals::path_of;
use crate::serving::{FIRST_HELLO, PRINTED, SECOND_HELLO, said_to};
use std::alloc::Global;
use std::fs::File;
use std::net::{Ipv4Addr, Net, OpenListener, SocketAddr, TcpListener, TcpStream};
use std::random::RandomSource;
use std::rt::{Clock, Files};
use std::sync::Wait;
use std::test::*;
use std::thread::Threads;
use std::{fs, io, thread};
use test_scripts::Script;

// An address of this machine on which nobody listens.
pub(crate) fn free_address<R: Net>(rt: &R) -> io::Result<SocketAddr> {
    TcpListener::bind(rt, (Ipv4Addr::LOCALHOST, 0))?.local_addr()
}

// Whether the railway that sends the lines of a script, as soon as somebody listens, is said those that are wanted, each byte.
pub(crate) fn is_answered_there<R: Net>(
    rt: &R,
    alloc: Global,
    address: SocketAddr,
    script: &Script,
) -> bool {
    for _ in 0..1_000_000 {
        if let Ok(said) = said_to(rt, alloc, address, script.input.as_slice()) {
            return said.as_slice() == script.wanted.as_slice();
        }
        thread::yield_now();
    }
    false
}

// Serves so many sessions at this address with the journal of this path.
fn serve_at<H>(rt: &H, address: SocketAddr, sessions: usize, path: &str) -> Result<Ended, Fail>
where
    H: Files<File = File>
        + Net<Listener = TcpListener, Stream = TcpStream>
        + Threads
        + Wait
        + Clock
        + Sync
        + RandomSource
        + AllocGlobal,
{
    let port = address.port();
    let words = format!(in rt.alloc();
        "taf_hub|serve|--port|{port}|--sessions|{sessions}|--journal|{path}"
    )?;
    end_of(rt, &words, "")
}

// The replies and the report are those of a shift without a journal.
fn serves_two<H>(rt: &H, path: &str) -> Result<bool, Fail>
where
    H: Files<File = File>
        + Net<Listener = TcpListener, Stream = TcpStream>
        + Threads
        + Wait
        + Clock
        + Sync
        + RandomSource
        + AllocGlobal,
{
    let alloc = rt.alloc();
    let first = Script::of(alloc, &[FIRST_HELLO, test_scripts::FIRST])?;
    let second = Script::of(alloc, &[SECOND_HELLO, test_scripts::SECOND])?;
    let address = free_address(rt)?;
    let (answered, ended) = thread::join(
        rt,
        || {
            thread::join(
                rt,
                || is_answered_there(rt, alloc, address, &first),
                || is_answered_there(rt, alloc, address, &second),
            )
        },
        || serve_at(rt, address, 2, path),
    );
    let ended = ended?;
    let printed = PRINTED
        .iter()
        .any(|printed| ended.output.as_slice() == printed.as_bytes());
    Ok(answered == (true, true) && ended.status == 0 && printed)
}

#[test]
fn two_railways_are_served_with_a_journal(rt: HostRuntime) -> Result<(), Fail> {
    let path = path_of(rt, 102)?;
    let served = serves_two(&rt, path.as_str());
    let gone = fs::remove_file(&rt, path.as_str());
    assert!(rt; served? && gone.is_ok());
    Ok(())
}

pub(crate) const PLAN: &str =
    r#"{"kind":"plan","from":"R100","no":1,"consignment":"C-1","load":"loaded","commit":"2025-03-01T15:30Z","wagons":["218124712173"],"legs":[{"ru":"R101","origin":"DE00001","target":"AT00002","minutes":300}]}
> {"no":1,"reply":"accepted"}"#;

pub(crate) const EARLY_RELEASE: &str =
    r#"{"at":"2025-03-01T05:30Z","from":"R100","kind":"release","no":2,"wagon":"218124712173"}
> {"no":2,"reply":"refused","wagon":"218124712173","why":"unknown_wagon"}"#;

pub(crate) const RELEASE: &str =
    r#"{"at":"2025-03-01T05:30Z","from":"R100","kind":"release","no":3,"wagon":"218124712173"}
> {"no":3,"reply":"accepted"}"#;

// The lines of two shifts of one railway, how many calls the journal has before each, and how the report of each begins.
pub(crate) static SHIFTS: [(&[&str], &str, &[u8]); 2] = [
    (
        &[FIRST_HELLO, EARLY_RELEASE, PLAN],
        ": 0 calls\n",
        b"settled 2\nwagons 1\n",
    ),
    (
        &[FIRST_HELLO, EARLY_RELEASE, PLAN, RELEASE],
        ": 2 calls\n",
        b"settled 3\nwagons 1\n",
    ),
];

// Whether each of these shifts, one after another, gives its railway the replies that are wanted.
fn serves_in_turn<H>(rt: &H, path: &str) -> Result<bool, Fail>
where
    H: Files<File = File>
        + Net<Listener = TcpListener, Stream = TcpStream>
        + Threads
        + Wait
        + Clock
        + Sync
        + RandomSource
        + AllocGlobal,
{
    let alloc = rt.alloc();
    for (lines, before, report) in &SHIFTS {
        let script = Script::of(alloc, *lines)?;
        let address = free_address(rt)?;
        let (answered, ended) = thread::join(
            rt,
            || is_answered_there(rt, alloc, address, &script),
            || serve_at(rt, address, 1, path),
        );
        let ended = ended?;
        let had = format!(in alloc; "{path}{before}")?;
        let begins = ended.errors.starts_with(had.as_bytes()) && ended.output.starts_with(*report);
        if !answered || ended.status != 0 || !begins {
            return Ok(false);
        }
    }
    Ok(true)
}

// The next shift begins with the calls of the one before: a message that is sent again gets its first reply, though by now the
// wagon is planned. Only the calls of the shift are settled.
#[test]
fn the_next_shift_goes_on(rt: HostRuntime) -> Result<(), Fail> {
    let path = path_of(rt, 103)?;
    let served = serves_in_turn(&rt, path.as_str());
    let gone = fs::remove_file(&rt, path.as_str());
    assert!(rt; served? && gone.is_ok());
    Ok(())
}
