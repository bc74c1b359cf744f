//! A board, and requests to it.
use board_answers::{Access, Board, Gauges, ServerNumbers};
use http_server::{Config, Connection, Service, serve};
use hub_core::Hub;
use hub_replay::run;
use hub_shared::OwnLooks;
use railway_keys::KeyTable;
use std::alloc::Global;
use std::hash::RandomState;
use std::random::RandomSource;
use std::test::Fail;
use std::thread::Threads;
use std::{io, str};
use taf_codes::Std;
use test_scripts::{FIRST, SECOND, Script};

/// The number of this run.
const RUN: u64 = 7;

/// A server with three sessions, beside which no connection waits, and whose memory is not known. Each look at its hub takes no time.
struct Server;

impl Gauges for Server {
    fn numbers(&self) -> ServerNumbers {
        ServerNumbers {
            sessions: Some(3),
            waiting: Some(0),
            memory: None,
        }
    }

    fn microseconds(&self) -> u64 {
        0
    }
}

/// A hub that has taken the calls of two railways, ten in all. It lies on the heap, since what owns a hub itself takes the prover long.
pub(crate) fn two_railways(rt: &impl Threads, alloc: Global) -> Result<Box<Hub>, Fail> {
    hub_after(rt, alloc, &[FIRST, SECOND])
}

/// A hub that has taken the calls of these scripts.
pub(crate) fn hub_after(
    rt: &impl Threads,
    alloc: Global,
    scripts: &[&str],
) -> Result<Box<Hub>, Fail> {
    let script = Script::of(alloc, scripts)?;
    let mut hub = Box::new(alloc, Hub::new(alloc)?)?;
    let mut reader = Std::new(script.input.as_slice());
    let mut writer = Std::new(Vec::new(alloc));
    run(rt, alloc, &mut reader, &mut writer, &mut hub)?;
    Ok(hub)
}

/// The board's hosts.
pub(crate) fn hosts(alloc: Global) -> Result<Vec<String>, Fail> {
    let mut hosts = Vec::new(alloc);
    hosts.push(String::from_str(alloc, "127.0.0.1:7080")?)?;
    hosts.push(String::from_str(alloc, "localhost:7080")?)?;
    Ok(hosts)
}

/// What the board answers to a request with this first line and these further lines, each with its end, at its first host. It is the last
/// one of its connection.
pub(crate) fn answer_to<R: RandomSource>(
    rt: &R,
    alloc: Global,
    hub: &Hub,
    keys: Option<&KeyTable>,
    lines: &str,
) -> Result<Vec<u8>, Fail> {
    let hosts = hosts(alloc)?;
    let access = Access {
        hosts: hosts.as_slice(),
        keys,
    };
    let looks = OwnLooks::new(hub);
    let mut board = Board::new(alloc, &looks, &Server, access, RUN);
    let request = format!(in alloc; "{lines}connection: close\r\n\r\n")?;
    Ok(said_to(rt, alloc, &mut board, request.as_str())?)
}

// What a service says on a connection of this request alone.
fn said_to<S: Service, R: RandomSource>(
    rt: &R,
    alloc: Global,
    service: &mut S,
    request: &str,
) -> io::Result<Vec<u8>> {
    let mut connection = Connection::new(alloc, RandomState::new(rt)?, Config::default());
    let mut reader = request.as_bytes();
    let mut writer = Vec::new(alloc);
    serve(&mut connection, service, &mut reader, &mut writer)?;
    Ok(writer)
}

/// The status of an answer, as its three digits.
pub(crate) fn status_of(answer: &[u8]) -> &str {
    let status = answer.get(9..12).unwrap_or(b"".as_slice());
    str::from_utf8(status).unwrap_or("")
}

/// The body of an answer.
pub(crate) fn body_of(answer: &[u8]) -> &str {
    let text = str::from_utf8(answer).unwrap_or("");
    match text.split_once("\r\n\r\n") {
        Some((_, body)) => body,
        None => "",
    }
}
