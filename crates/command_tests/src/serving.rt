//! Shifts over loopback.

use crate::commands::end_of;
use hub_commands::{ShiftSize, serve_on};
use memory_limit::MemoryLimit;
use std::alloc::Global;
use std::io::{Read, Write};
use std::net::{Ipv4Addr, Net, OpenStream, Shutdown, SocketAddr, TcpListener, TcpStream};
use std::random::RandomSource;
use std::sync::Wait;
use std::test::*;
use std::thread::Threads;
use std::{io, thread};
use test_scripts::Script;

pub(crate) const FIRST_HELLO: &str = r#"{"kind":"hello","from":"R100"}
> {"hello":"R100"}"#;

pub(crate) const SECOND_HELLO: &str = r#"{"kind":"hello","from":"R200"}
> {"hello":"R200"}"#;

// What is printed, in either order of the wagons: the plan that came first has its wagon first.
pub(crate) static PRINTED: [&str; 2] = [
    "settled 10
wagons 2
218124712173 R100 ---- 0 released  DE00001 2025-03-01T14:30Z         0 loading
338478961232 R200 ---- 0 released  DE00001 2025-03-01T10:30Z         0 loading
",
    "settled 10
wagons 2
338478961232 R200 ---- 0 released  DE00001 2025-03-01T10:30Z         0 loading
218124712173 R100 ---- 0 released  DE00001 2025-03-01T14:30Z         0 loading
",
];

// What is said to one that sends these bytes and ends.
pub(crate) fn said_to<R: Net>(
    rt: &R,
    alloc: Global,
    address: SocketAddr,
    lines: &[u8],
) -> io::Result<Vec<u8>> {
    let mut stream = TcpStream::connect(rt, address)?;
    stream.write_all(lines)?;
    stream.shutdown(Shutdown::Write)?;
    let mut said = Vec::new(alloc);
    stream.read_to_end(&mut said)?;
    Ok(said)
}

// Whether the railway that sends the lines of a script is said those that are wanted, each byte.
fn is_answered<R: Net>(rt: &R, alloc: Global, address: SocketAddr, script: &Script) -> bool {
    match said_to(rt, alloc, address, script.input.as_slice()) {
        Ok(said) => said.as_slice() == script.wanted.as_slice(),
        Err(_) => false,
    }
}

#[test]
fn two_railways_are_served(rt: HostRuntime) -> Result<(), Fail> {
    let alloc = rt.alloc();
    let first = Script::of(alloc, &[FIRST_HELLO, test_scripts::FIRST])?;
    let second = Script::of(alloc, &[SECOND_HELLO, test_scripts::SECOND])?;
    let listener = TcpListener::bind(&rt, (Ipv4Addr::LOCALHOST, 0))?;
    let address = listener.local_addr()?;
    let Some(size) = ShiftSize::new(2, 2) else {
        return Err(Fail::new("no size"));
    };
    let mut output = Vec::new(alloc);
    let mut errors = Vec::new(alloc);
    let (answered, status) = thread::join(
        &rt,
        || {
            thread::join(
                &rt,
                || is_answered(&rt, alloc, address, &first),
                || is_answered(&rt, alloc, address, &second),
            )
        },
        || serve_on(&rt, listener, size, &mut output, &mut errors),
    );
    assert!(rt; answered == (true, true));
    assert!(rt; status == 0 && errors.is_empty());
    assert!(rt;
        PRINTED
            .iter()
            .any(|printed| output.as_slice() == printed.as_bytes())
    );
    Ok(())
}

// A port that is listened on is not had a second time.
#[test]
fn a_taken_port_is_a_fault(rt: HostRuntime) -> Result<(), Fail> {
    let listener = TcpListener::bind(&rt, (Ipv4Addr::LOCALHOST, 0))?;
    let port = listener.local_addr()?.port();
    let words = format!(in rt.alloc(); "taf_hub|serve|--port|{port}|--sessions|1")?;
    let ended = end_of(&rt, &words, "")?;
    assert!(rt; ended.status == 5 && ended.output.is_empty());
    assert!(rt; ended.errors.as_slice() == "fault: socket\n".as_bytes());
    Ok(())
}

// One railway after the other: the first has all its answers before the second is there.
#[test]
fn a_railway_is_served_before_the_next_comes(rt: HostRuntime) -> Result<(), Fail> {
    let alloc = rt.alloc();
    let first = Script::of(alloc, &[FIRST_HELLO, test_scripts::FIRST])?;
    let second = Script::of(alloc, &[SECOND_HELLO, test_scripts::SECOND])?;
    let listener = TcpListener::bind(&rt, (Ipv4Addr::LOCALHOST, 0))?;
    let address = listener.local_addr()?;
    let Some(size) = ShiftSize::new(2, 2) else {
        return Err(Fail::new("no size"));
    };
    let mut output = Vec::new(alloc);
    let mut errors = Vec::new(alloc);
    let (answered, status) = thread::join(
        &rt,
        || {
            is_answered(&rt, alloc, address, &first) && is_answered(&rt, alloc, address, &second)
        },
        || serve_on(&rt, listener, size, &mut output, &mut errors),
    );
    assert!(rt; answered && status == 0 && errors.is_empty());
    assert!(rt; output.as_slice() == PRINTED[0].as_bytes());
    Ok(())
}

// What a shift of three railways reports of which so many connect, say nothing and end, on a listener that then waits for no other.
fn reported_of_some<H>(rt: &H, listener: TcpListener, connected: usize) -> Result<Vec<u8>, Fail>
where
    H: Net + Threads + Wait + Sync + RandomSource + AllocGlobal,
{
    let Some(size) = ShiftSize::new(3, 2) else {
        return Err(Fail::new("no size"));
    };
    let mut clients = Vec::new(rt.alloc());
    for _ in 0..connected {
        let client = TcpStream::connect(rt, listener.local_addr()?)?;
        client.shutdown(Shutdown::Write)?;
        clients.push(client)?;
    }
    listener.set_nonblocking(true)?;
    let (mut output, mut errors) = (Vec::new(rt.alloc()), Vec::new(rt.alloc()));
    if serve_on(rt, listener, size, &mut output, &mut errors) != 0 {
        return Err(Fail::new("another status"));
    }
    if output.as_slice() != b"settled 0\nwagons 0\n".as_slice() {
        return Err(Fail::new("another output"));
    }
    Ok(errors)
}

// What is reported where none of three connects.
const FAILED: &str = "session 0: the reader failed
session 1: the reader failed
session 2: the reader failed
";

// Each session whose connection cannot be accepted ends by itself, and no other.
#[test]
fn an_accept_that_fails_ends_its_session(rt: HostRuntime) -> Result<(), Fail> {
    for connected in 0..3usize {
        let listener = TcpListener::bind(&rt, (Ipv4Addr::LOCALHOST, 0))?;
        let reported = reported_of_some(&rt, listener, connected)?;
        // Which sessions have the connections is left open.
        assert!(rt;
            reported.len() == FAILED.len() / 3 * (3 - connected),
            "at {connected}"
        );
        assert!(rt; connected > 0 || reported.as_slice() == FAILED.as_bytes());
    }
    Ok(())
}

// Where the output takes no more, the railway is served all the same.
#[test]
fn an_output_that_fails_is_a_fault(rt: HostRuntime) -> Result<(), Fail> {
    let alloc = rt.alloc();
    let script = Script::of(alloc, &[FIRST_HELLO, test_scripts::FIRST])?;
    let listener = TcpListener::bind(&rt, (Ipv4Addr::LOCALHOST, 0))?;
    let address = listener.local_addr()?;
    let Some(size) = ShiftSize::new(1, 1) else {
        return Err(Fail::new("no size"));
    };
    let mut room = [0u8; 4];
    let mut errors = Vec::new(alloc);
    let (answered, status) = thread::join(
        &rt,
        || is_answered(&rt, alloc, address, &script),
        || serve_on(&rt, listener, size, room.as_mut_slice(), &mut errors),
    );
    assert!(rt; answered && status == 3);
    assert!(rt; errors.as_slice() == "fault: write\n".as_bytes());
    Ok(())
}

// The status of a shift of one railway that says nothing, where so many bytes are left.
fn status_within<H>(
    rt: &H,
    listener: TcpListener,
    memory_limit: &mut MemoryLimit,
    left: usize,
) -> Result<u8, Fail>
where
    H: Net + Threads + Wait + Sync + RandomSource + AllocGlobal,
{
    let Some(size) = ShiftSize::new(1, 1) else {
        return Err(Fail::new("no size"));
    };
    let client = TcpStream::connect(rt, listener.local_addr()?)?;
    memory_limit.limit_to(left)?;
    let (output, mut errors) = (Vec::new(rt.alloc()), Vec::new(rt.alloc()));
    let status = serve_on(rt, listener, size, output, &mut errors);
    memory_limit.release();
    drop(client);
    Ok(status)
}

// Memory is refused, until there is enough for all but the threads.
#[test]
fn refused_memory_and_then_no_thread(rt: HostRuntime) -> Result<(), Fail> {
    let mut memory_limit = MemoryLimit::new(rt.alloc())?;
    let mut refused = 0u32;
    for step in 0..10_000usize {
        let listener = TcpListener::bind(&rt, (Ipv4Addr::LOCALHOST, 0))?;
        match status_within(&rt, listener, &mut memory_limit, step * 64)? {
            4 => refused = refused.saturating_add(1),
            5 => break,
            _ => return Err(Fail::new("another status")),
        }
    }
    assert!(rt; refused > 4 && refused < 10_000);
    Ok(())
}
