//! The end of serving.

use crate::board_requests::texts::{Board, is_answered, is_closed};
use board_connections::{Limits, ServingEnd};
use std::alloc::Global;
use std::net::{Net, SocketAddr, TcpStream};
use std::rt::Clock;
use std::test::*;
use std::time::{Duration, Instant};
use std::{io, thread};

// Whether a client is cut off at once where the end is told, and nobody can connect after that.
fn is_ended<R: Net + Clock>(
    rt: &R,
    alloc: Global,
    address: SocketAddr,
    end: &ServingEnd,
) -> io::Result<bool> {
    let mut client = TcpStream::connect(rt, address)?;
    let mut all = is_answered(&mut client);
    let began = Instant::now(rt)?;
    end.end();
    all = all && is_closed(alloc, &mut client);
    all = all && began.elapsed(rt)? < Duration::from_secs(5);
    Ok(all && is_refused(rt, address))
}

// Whether nobody can connect, within a second.
fn is_refused<R: Net + Clock>(rt: &R, address: SocketAddr) -> bool {
    for _ in 0..100 {
        if TcpStream::connect(rt, address).is_err() {
            return true;
        }
        thread::sleep(rt, Duration::from_millis(10));
    }
    false
}

#[test]
fn it_ends_when_told(rt: HostRuntime) -> Result<(), Fail> {
    let alloc = rt.alloc();
    let Board {
        listener,
        end,
        address,
        service,
    } = Board::new(&rt, Limits::new())?;
    let mut service = service;
    let (ended, served) = thread::join(
        &rt,
        || {
            let ended = is_ended(&rt, alloc, address, &end);
            end.end();
            matches!(ended, Ok(true))
        },
        || listener.serve(&rt, &mut service, &end).is_ok(),
    );
    assert!(rt; ended && served);
    Ok(())
}
