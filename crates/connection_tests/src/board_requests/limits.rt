//! What a client meets that is one too many, silent, slow, or does not read.

use crate::board_requests::texts::{Board, is_answered, is_closed, said_to};
use board_connections::Limits;
use std::alloc::Global;
use std::io::{Read, Write};
use std::net::{Net, SocketAddr, TcpStream};
use std::rt::Clock;
use std::test::*;
use std::time::{Duration, Instant};
use std::{io, thread};

// What a client gets that asks while eight answers wait: RFC 9110, sections 10.2.3 and 15.6.4.
const REFUSAL: &str =
    "HTTP/1.1 503 Service Unavailable\r\nretry-after: 1\r\ncontent-length: 0\r\nconnection: close\r\n\r\n";

const ASKS_LONG: &[u8] = b"GET /long HTTP/1.1\r\nhost: x\r\nconnection: close\r\n\r\n";

const ASKS_SHORT: &[u8] = b"GET /short HTTP/1.1\r\nhost: x\r\nconnection: close\r\n\r\n";

// A client that asks for the long text and reads no more than its first byte.
fn slow_reader<R: Net>(rt: &R, address: SocketAddr) -> io::Result<R::Stream> {
    let mut client = TcpStream::connect(rt, address)?;
    client.write_all(ASKS_LONG)?;
    let mut first = [0; 1];
    client.read_exact(&mut first)?;
    Ok(client)
}

// What the ninth client gets while eight answers wait, and whether others are answered once one of the eight is gone.
fn said_to_ninth<R: Net + Clock>(
    rt: &R,
    alloc: Global,
    address: SocketAddr,
) -> io::Result<(Vec<u8>, bool)> {
    let mut readers = Vec::new(alloc);
    for _ in 0..8 {
        readers.push(slow_reader(rt, address)?)?;
    }
    let ninth = said_to(rt, alloc, address, ASKS_SHORT)?;
    let _ = readers.pop();
    let is_answered = is_answered_in_time(rt, alloc, address)?;
    Ok((ninth, is_answered))
}

// Whether a client is answered, and not refused, within two seconds.
fn is_answered_in_time<R: Net + Clock>(
    rt: &R,
    alloc: Global,
    address: SocketAddr,
) -> io::Result<bool> {
    for _ in 0..100 {
        let said = said_to(rt, alloc, address, ASKS_SHORT)?;
        if said.ends_with(b"\r\n\r\nshort\n") {
            return Ok(true);
        }
        thread::sleep(rt, Duration::from_millis(20));
    }
    Ok(false)
}

#[test]
fn a_ninth_waiting_answer_is_refused(rt: HostRuntime) -> Result<(), Fail> {
    let alloc = rt.alloc();
    let Board {
        listener,
        end,
        address,
        service,
    } = Board::new(&rt, Limits::new())?;
    let mut service = service;
    let (said, served) = thread::join(
        &rt,
        || {
            let said = said_to_ninth(&rt, alloc, address);
            end.end();
            said
        },
        || listener.serve(&rt, &mut service, &end).is_ok(),
    );
    let (ninth, is_answered) = said?;
    assert!(rt; ninth.as_slice() == REFUSAL.as_bytes(), "{ninth:?}");
    assert!(rt; is_answered && served, "{is_answered} {served}");
    Ok(())
}

// Whether a client is cut off that sends nothing, one that sends a byte now and then, and one that is silent after its answer.
fn are_cut<R: Net + Clock>(rt: &R, alloc: Global, address: SocketAddr) -> io::Result<bool> {
    let began = Instant::now(rt)?;
    let mut silent = TcpStream::connect(rt, address)?;
    let mut all = is_closed(alloc, &mut silent);
    let mut answered = TcpStream::connect(rt, address)?;
    all = all && is_answered(&mut answered) && is_closed(alloc, &mut answered);
    all = all && began.elapsed(rt)? >= Duration::from_millis(1000);
    let mut slow = TcpStream::connect(rt, address)?;
    let is_cut = is_cut_while_it_sends(rt, &mut slow);
    Ok(all && is_cut && began.elapsed(rt)? < Duration::from_secs(20))
}

// Whether a client that sends a byte of its request every 100 milliseconds is cut off.
fn is_cut_while_it_sends<R: Clock, T: Write>(rt: &R, client: &mut T) -> bool {
    for _ in 0..100 {
        if client.write_all(b"G").is_err() {
            return true;
        }
        thread::sleep(rt, Duration::from_millis(100));
    }
    false
}

#[test]
fn silent_and_slow_clients_are_cut_off(rt: HostRuntime) -> Result<(), Fail> {
    let alloc = rt.alloc();
    let mut limits = Limits::new();
    limits.silence = Duration::from_millis(500);
    limits.request = Duration::from_millis(500);
    let Board {
        listener,
        end,
        address,
        service,
    } = Board::new(&rt, limits)?;
    let mut service = service;
    let (cut, served) = thread::join(
        &rt,
        || {
            let cut = are_cut(&rt, alloc, address);
            end.end();
            matches!(cut, Ok(true))
        },
        || listener.serve(&rt, &mut service, &end).is_ok(),
    );
    assert!(rt; cut && served);
    Ok(())
}

// Whether of three clients, for whom there are two places, the one that was silent for longest is cut off.
fn longest_silent_is_cut<R: Net>(rt: &R, alloc: Global, address: SocketAddr) -> io::Result<bool> {
    let mut first = TcpStream::connect(rt, address)?;
    let mut all = is_answered(&mut first);
    let mut second = TcpStream::connect(rt, address)?;
    all = all && is_answered(&mut second) && is_answered(&mut first);
    let mut third = TcpStream::connect(rt, address)?;
    all = all && is_answered(&mut third) && is_closed(alloc, &mut second);
    Ok(all && is_answered(&mut first) && is_answered(&mut third))
}

#[test]
fn the_longest_silent_makes_room(rt: HostRuntime) -> Result<(), Fail> {
    let alloc = rt.alloc();
    let mut limits = Limits::new();
    limits.clients = 2;
    let Board {
        listener,
        end,
        address,
        service,
    } = Board::new(&rt, limits)?;
    let mut service = service;
    let (made, served) = thread::join(
        &rt,
        || {
            let made = longest_silent_is_cut(&rt, alloc, address);
            end.end();
            matches!(made, Ok(true))
        },
        || listener.serve(&rt, &mut service, &end).is_ok(),
    );
    assert!(rt; made && served);
    Ok(())
}
