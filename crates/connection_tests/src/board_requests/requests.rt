//! Requests, good and bad, and the answers to them.

use crate::board_requests::texts::{Board, is_answered, said_to};
use board_connections::Limits;
use std::alloc::Global;
use std::net::{Net, SocketAddr, TcpStream};
use std::test::*;
use std::{io, thread};

// What a client sends before it ends, and what it gets: RFC 9112 has the forms, and the statuses are those that `http_server` names.
static EXCHANGES: [(&str, &str); 12] = [
    (
        "GET /short HTTP/1.1\r\nhost: x\r\nconnection: close\r\n\r\n",
        "HTTP/1.1 200 OK\r\ncontent-length: 6\r\nconnection: close\r\n\r\nshort\n",
    ),
    (
        "HEAD /short HTTP/1.1\r\nhost: x\r\nconnection: close\r\n\r\n",
        "HTTP/1.1 200 OK\r\ncontent-length: 6\r\nconnection: close\r\n\r\n",
    ),
    (
        "GET /short HTTP/1.0\r\n\r\n",
        "HTTP/1.0 200 OK\r\ncontent-length: 6\r\nconnection: close\r\n\r\nshort\n",
    ),
    (
        "GET /short HTTP/1.1\r\nhost: x\r\n\r\nGET /other HTTP/1.1\r\nhost: x\r\nconnection: close\r\n\r\n",
        "HTTP/1.1 200 OK\r\ncontent-length: 6\r\n\r\nshort\nHTTP/1.1 404 Not Found\r\ncontent-length: 0\r\nconnection: close\r\n\r\n",
    ),
    (
        "GET / HT\r\n\r\n",
        "HTTP/1.1 400 Bad Request\r\nconnection: close\r\ncontent-length: 0\r\n\r\n",
    ),
    (
        "GET / HTTP/1.1\r\n\r\n",
        "HTTP/1.1 400 Bad Request\r\nconnection: close\r\ncontent-length: 0\r\n\r\n",
    ),
    (
        "GET / HTTP/1.1\r\nhost: x\r\nhost: x\r\n\r\n",
        "HTTP/1.1 400 Bad Request\r\nconnection: close\r\ncontent-length: 0\r\n\r\n",
    ),
    (
        "GET / HTTP/1.1\r\nhost: x\r\n",
        "HTTP/1.1 400 Bad Request\r\nconnection: close\r\ncontent-length: 0\r\n\r\n",
    ),
    (
        "POST / HTTP/1.1\r\nhost: x\r\ncontent-length: 4097\r\n\r\n",
        "HTTP/1.1 413 Payload Too Large\r\nconnection: close\r\ncontent-length: 0\r\n\r\n",
    ),
    (
        "POST / HTTP/1.1\r\nhost: x\r\ntransfer-encoding: gzip, chunked\r\n\r\n",
        "HTTP/1.1 501 Not Implemented\r\nconnection: close\r\ncontent-length: 0\r\n\r\n",
    ),
    ("GET /no_memory HTTP/1.1\r\nhost: x\r\n\r\n", ""),
    ("", ""),
];

// What comes before and behind 20,000 letters, and what a client gets that sends it.
static LONG_EXCHANGES: [(&str, &str, &str); 2] = [
    (
        "GET /",
        " HTTP/1.1\r\nhost: x\r\n\r\n",
        "HTTP/1.1 414 URI Too Long\r\nconnection: close\r\ncontent-length: 0\r\n\r\n",
    ),
    (
        "GET / HTTP/1.1\r\nhost: x\r\nx: ",
        "\r\n\r\n",
        "HTTP/1.1 431 Request Header Fields Too Large\r\nconnection: close\r\ncontent-length: 0\r\n\r\n",
    ),
];

// The number of the first exchange that was not so.
fn first_other<R: Net>(rt: &R, alloc: Global, address: SocketAddr) -> io::Result<Option<usize>> {
    for (i, (sent, wanted)) in EXCHANGES.iter().enumerate() {
        let said = said_to(rt, alloc, address, sent.as_bytes())?;
        if said.as_slice() != wanted.as_bytes() {
            return Ok(Some(i));
        }
    }
    Ok(None)
}

#[test]
fn requests_are_answered_byte_for_byte(rt: HostRuntime) -> Result<(), Fail> {
    let alloc = rt.alloc();
    let Board {
        listener,
        end,
        address,
        service,
    } = Board::new(&rt, Limits::new())?;
    let mut service = service;
    let (other, served) = thread::join(
        &rt,
        || {
            let other = first_other(&rt, alloc, address);
            end.end();
            match other {
                Ok(None) => EXCHANGES.len(),
                Ok(Some(i)) => i,
                Err(_) => usize::MAX,
            }
        },
        || listener.serve(&rt, &mut service, &end).is_ok(),
    );
    assert_eq!(rt; other, EXCHANGES.len());
    assert!(rt; served);
    Ok(())
}

// Whether each long request is refused by its status.
fn are_refused<R: Net>(rt: &R, alloc: Global, address: SocketAddr) -> io::Result<bool> {
    for (start, rest, wanted) in &LONG_EXCHANGES {
        let mut sent = Vec::new(alloc);
        sent.extend_from_slice(start.as_bytes())?;
        sent.extend_from_slice([b'a'; 20_000].as_slice())?;
        sent.extend_from_slice(rest.as_bytes())?;
        let said = said_to(rt, alloc, address, &sent)?;
        if said.as_slice() != wanted.as_bytes() {
            return Ok(false);
        }
    }
    Ok(true)
}

#[test]
fn long_requests_are_refused(rt: HostRuntime) -> Result<(), Fail> {
    let alloc = rt.alloc();
    let Board {
        listener,
        end,
        address,
        service,
    } = Board::new(&rt, Limits::new())?;
    let mut service = service;
    let (refused, served) = thread::join(
        &rt,
        || {
            let refused = are_refused(&rt, alloc, address);
            end.end();
            matches!(refused, Ok(true))
        },
        || listener.serve(&rt, &mut service, &end).is_ok(),
    );
    assert!(rt; refused && served);
    Ok(())
}

// Whether two clients are answered by turns, and a third that ends in mid-request disturbs neither.
fn are_answered_by_turns<R: Net>(rt: &R, alloc: Global, address: SocketAddr) -> io::Result<bool> {
    let mut first = TcpStream::connect(rt, address)?;
    let mut second = TcpStream::connect(rt, address)?;
    let mut all = is_answered(&mut first) && is_answered(&mut second);
    all = all && !said_to(rt, alloc, address, b"GET /short")?.is_empty();
    all = all && is_answered(&mut second) && is_answered(&mut first);
    let said = said_to(
        rt,
        alloc,
        address,
        b"GET /no_memory HTTP/1.1\r\nhost: x\r\n\r\n",
    )?;
    all = all && said.is_empty() && is_answered(&mut first);
    Ok(all)
}

#[test]
fn clients_are_answered_by_turns(rt: HostRuntime) -> Result<(), Fail> {
    let alloc = rt.alloc();
    let Board {
        listener,
        end,
        address,
        service,
    } = Board::new(&rt, Limits::new())?;
    let mut service = service;
    let (answered, served) = thread::join(
        &rt,
        || {
            let answered = are_answered_by_turns(&rt, alloc, address);
            end.end();
            matches!(answered, Ok(true))
        },
        || listener.serve(&rt, &mut service, &end).is_ok(),
    );
    assert!(rt; answered && served);
    Ok(())
}
