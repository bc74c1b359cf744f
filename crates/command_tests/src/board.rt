//! The board beside a service, asked over loopback while a railway reports.

use crate::commands::Ended;
use crate::journaled_serving::{EARLY_RELEASE, PLAN, free_address, is_answered_there};
use crate::journals::path_of;
use crate::service::{input_until_dropped, serve_until};
use crate::serving::FIRST_HELLO;
use std::alloc::Global;
use std::fs::File;
use std::io::{Read, Write};
use std::net::{Net, SocketAddr, TcpListener, TcpStream};
use std::random::RandomSource;
use std::rt::{Clock, Files};
use std::sync::Wait;
use std::test::Fail;
use std::thread::Threads;
use std::{fs, io, thread};
use test_scripts::Script;

// How an answer begins that shows something.
const FOUND: &str = "HTTP/1.1 200 OK\r\n";

// What is shown of the wagon that is planned: the reply that the question of its lead would get.
const SHOWN: &str =
    r#"{"record":{"commit":"2025-03-01T15:30Z","consignment":"C-1","estimates":[],"eta":null,"events":[{"by":"R100","kind":"plan","no":1}],"late":false,"lead":"R100","leg":0,"load":"loaded","place":"DE00001","responsible":null,"stage":"planned","status":"loading","wagon":"218124712173"},"reply":"record"}
"#;

// The answer of the board to a request for a path.
fn answer_of<R: Net>(
    rt: &R,
    alloc: Global,
    address: SocketAddr,
    path: &str,
) -> io::Result<Vec<u8>> {
    let port = address.port();
    let request = format!(in alloc;
        "GET {path} HTTP/1.1\r\nhost: 127.0.0.1:{port}\r\nconnection: close\r\n\r\n"
    )?;
    let mut stream = TcpStream::connect(rt, address)?;
    stream.write_all(request.as_bytes())?;
    let mut answer = Vec::new(alloc);
    stream.read_to_end(&mut answer)?;
    Ok(answer)
}

// Whether the board shows the wagon.
fn is_shown<R: Net>(rt: &R, alloc: Global, address: SocketAddr) -> bool {
    match answer_of(rt, alloc, address, "/R100/wagons/218124712173.json") {
        Ok(answer) => answer.starts_with(FOUND.as_bytes()) && answer.ends_with(SHOWN.as_bytes()),
        Err(_) => false,
    }
}

// Whether a railway that plans a wagon finds it on the board of a service, and how the service ended.
fn is_shown_beside<H>(rt: &H, more: &str) -> Result<(bool, Ended), Fail>
where
    H: Files<File = File>
        + Net<Listener = TcpListener, Stream = TcpStream>
        + Threads
        + Wait
        + Clock
        + Sync
        + RandomSource
        + AllocGlobal,
{
    let alloc = rt.alloc();
    let script = Script::of(alloc, &[FIRST_HELLO, EARLY_RELEASE, PLAN])?;
    let (address, board) = (free_address(rt)?, free_address(rt)?);
    let (port, board_port) = (address.port(), board.port());
    let words = format!(in alloc; "taf_hub|open|--port|{port}|--board|{board_port}{more}")?;
    let (input, until) = input_until_dropped(rt)?;
    let (shown, ended) = thread::join(
        rt,
        || {
            let shown = is_answered_there(rt, alloc, address, &script)
                && is_shown(rt, alloc, board);
            drop(until);
            shown
        },
        || serve_until(rt, words.as_str(), input),
    );
    Ok((shown, ended?))
}

#[test]
fn the_board_shows_what_was_reported(rt: HostRuntime) -> Result<(), Fail> {
    let (shown, ended) = is_shown_beside(&rt, "")?;
    assert!(rt; shown && ended.status == 0);
    assert!(rt; ended.output.starts_with(b"settled 2\nwagons 1\n"));
    Ok(())
}

// The one worker answers the board's looks, and is woken for them.
#[test]
fn the_board_shows_what_is_in_the_journal(rt: HostRuntime) -> Result<(), Fail> {
    let path = path_of(rt, 105)?;
    let more = format!(in rt.alloc(); "|--journal|{path}")?;
    let served = is_shown_beside(&rt, more.as_str());
    let gone = fs::remove_file(&rt, path.as_str());
    let (shown, ended) = served?;
    assert!(rt; shown && ended.status == 0 && gone.is_ok());
    Ok(())
}
