//! What the thread does that accepts connections, and what the thread does that ends the service.
use crate::connection::{Connection, refuse};
use crate::queue::AcceptQueue;
use std::io::{ErrorKind, Read, Write};
use std::net::{OpenListener, OpenStream, Shutdown, TcpListener, TcpStream};
use std::os::fd::OwnedFd;
use std::rt::Clock;
use std::sync::Wait;
use std::time::{Duration, Instant};
use std::{io, thread};

// How long the acceptor waits after a connection that could not be accepted, as where too many files are open.
const PAUSE_MILLIS: u64 = 50;

/// Another handle of a listener's socket. Its read time-out is that of `accept`, and once its reading is shut down each `accept` fails
/// at once.
pub fn control_of(listener: &TcpListener) -> io::Result<TcpStream> {
    Ok(TcpStream::from(OwnedFd::from(listener.try_clone()?)))
}

/// Accepts connections and puts them into the queue, until the queue is closed.
///
/// One that finds no room in the queue, and one that has waited there for as long as its limits say, is told `{"fault":"full"}` and a
/// newline, and closed. `control` is another handle of the listener ([`control_of`]): while a connection waits, `accept` has the
/// time-out after which that one has waited for too long, and else none. A connection that can't be accepted is passed over, after a
/// pause of 50 milliseconds where that may last.
pub fn accept_connections<L: OpenListener, R: Wait + Clock>(
    rt: &R,
    listener: &L,
    control: &L::Stream,
    queue: &AcceptQueue<L::Stream>,
)
where
    L::Stream: Read + Write + OpenStream + Drop,
{
    for _ in rt.forever() {
        let _ = control.set_read_timeout(queue.time_left(rt));
        let accepted = listener.accept();
        if !queue.is_open(rt) {
            return;
        }
        match accepted {
            Ok((stream, _)) => enqueue(rt, queue, stream),
            Err(error) => pause_after(rt, error.kind()),
        }
        refuse_late(rt, queue);
    }
}

/// Ends a service: no connection is accepted any more, sessions that are under way have the grace of the queue's limits to end, and
/// then they are cut off. A connection that still waits then is told that there is no handler for it.
///
/// It waits for the grace at most. `control` is another handle of the listener, whose `accept` is ended. Called again it does the same.
pub fn end_service<T: Read + Write + OpenStream + Drop, R: Wait + Clock>(
    rt: &R,
    queue: &AcceptQueue<T>,
    control: &T,
) {
    queue.close(rt);
    let _ = control.shutdown(Shutdown::Read);
    queue.end_sessions(rt);
    for _ in rt.forever() {
        match queue.take(rt) {
            Some(connection) => refuse_connection(connection),
            None => return,
        }
    }
}

// Puts a connection into the queue. Where there is no room, where it can't be made ready and where the time is not to be had it is
// refused.
fn enqueue<T: Read + Write + OpenStream + Drop, R: Wait + Clock>(
    rt: &R,
    queue: &AcceptQueue<T>,
    stream: T,
) {
    let connection = match Connection::new(stream, &queue.limits()) {
        Ok(connection) => connection,
        Err(stream) => return refuse(stream),
    };
    let Ok(now) = Instant::now(rt) else {
        return refuse_connection(connection);
    };
    if let Err(connection) = queue.put(rt, connection, now) {
        refuse_connection(connection);
    }
}

// Refuses the connections that have waited for too long.
fn refuse_late<T: Read + Write + OpenStream + Drop, R: Wait + Clock>(
    rt: &R,
    queue: &AcceptQueue<T>,
) {
    let Ok(now) = Instant::now(rt) else {
        return;
    };
    for _ in rt.forever() {
        match queue.take_late(rt, now) {
            Some(connection) => refuse_connection(connection),
            None => return,
        }
    }
}

fn refuse_connection<T: Read + Write + OpenStream + Drop>(connection: Connection<T>) {
    let Connection { writer, .. } = connection;
    refuse(writer);
}

// An accept that timed out, and one whose connection was taken back, is made again at once; any other after a pause.
fn pause_after<R: Clock>(rt: &R, kind: ErrorKind) {
    match kind {
        ErrorKind::WouldBlock | ErrorKind::ConnectionAborted | ErrorKind::Interrupted => {}
        _ => thread::sleep(rt, Duration::from_millis(PAUSE_MILLIS)),
    }
}
