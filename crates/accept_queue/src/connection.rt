//! A connection that was accepted, and what is said to one that is not served.
ghost use Rattle.std.specs.Prelude.{◌≡◌, IfErr};

use crate::limits::Limits;
use std::io;
use std::io::{Read, Write};
use std::net::{OpenStream, Shutdown};

// What a client is told for which there is no handler.
const FULL: &[u8] = b"{\"fault\":\"full\"}\n";

// How many times bytes are read of a client that is not served, 1,024 at most each time.
const MAX_READS: usize = 16;

/// A connection by its three handles. It is closed once all of them are dropped.
#[derive(Drop)]
pub(crate) struct Connection<T> {
    /// What the session reads from.
    pub(crate) reader: T,

    /// What the session writes to.
    pub(crate) writer: T,

    /// By which the session is ended from outside.
    pub(crate) control: T,
}

impl<T: OpenStream + Drop> Connection<T> {
    /// Has a stream ready to be served under the limits. It comes back where its time-outs can't be set, or another handle of it
    /// can't be had.
    pub(crate) fn new(stream: T, limits: &Limits) -> Result<Connection<T>, T>
        ensures back { IfErr result (λ back. back ≡ stream) }
    {
        let Ok(()) = prepare(&stream, limits) else {
            return Err(stream);
        };
        let Ok(reader) = stream.try_clone() else {
            return Err(stream);
        };
        let Ok(control) = stream.try_clone() else {
            return Err(stream);
        };
        Ok(Connection {
            reader,
            writer: stream,
            control,
        })
    }
}

// A reply is sent on at once: Nagle's delay is off.
fn prepare<T: OpenStream>(stream: &T, limits: &Limits) -> io::Result<()> {
    stream.set_nodelay(true)?;
    stream.set_read_timeout(Some(limits.silence_before_hello))?;
    stream.set_write_timeout(Some(limits.write_timeout))
}

/// Tells a client that there is no handler for it, and closes its connection. It never waits.
///
/// What the client has sent is read first: where a connection is closed with bytes that were not read, its client may find it broken
/// before it has read what it was told.
pub(crate) fn refuse<T: Read + Write + OpenStream + Drop>(stream: T) {
    let mut stream = stream;
    let Ok(()) = stream.set_nonblocking(true) else {
        return;
    };
    let _ = stream.write(FULL);
    let _ = stream.shutdown(Shutdown::Write);
    let mut bytes = [0; 1024];
    for _ in 0..MAX_READS {
        match stream.read(&mut bytes) {
            Ok(count) if count > 0 => {}
            _ => return,
        }
    }
}
