//! The two ends of connections that are accepted as their sessions begin.
ghost use Rattle.std.specs.Prelude.{◌≡◌, vec_len, IfOk};

use crate::acceptor::Acceptor;
use crate::guard::RequestGuard;
use std::alloc::Global;
use std::io;
use std::io::{ErrorKind, Read, Write};
use std::net::{OpenListener, OpenStream};
use std::sync::{Arc, Mutex, Wait};
use taf_codes::{Memory, Std};

/// A session's reader and writer, the two ends of its connection. The reader gives nothing where a request of HTTP comes first.
pub type Ends<'a, L, R> = (
    RequestGuard<Std<ConnectionReader<'a, L, R>>>,
    Std<ConnectionWriter<'a, L, R>>,
);

// Where the reader of a session leaves the other end of its connection for the writer. It goes with both, so that the connection is
// closed once the session has ended.
#[derive(Drop)]
struct OtherEnd<T> {
    stream: Mutex<Option<T>>,
}

impl<T: OpenStream + Drop> OtherEnd<T> {
    fn new() -> OtherEnd<T> {
        OtherEnd {
            stream: Mutex::new(None),
        }
    }

    // Leaves the other end of this connection. An answer is sent on at once: Nagle's delay is off.
    fn leave<R: Wait>(&self, rt: &R, stream: &T) -> io::Result<()> {
        // A connection that was broken meanwhile is a session all the same, which ends at once.
        let _ = stream.set_nodelay(true);
        let other = stream.try_clone()?;
        *self.stream.lock(rt) = Some(other);
        Ok(())
    }

    fn take<R: Wait>(&self, rt: &R) -> Option<T> {
        self.stream.lock(rt).take()
    }
}

/// Reads from the connection of a session. Its first read accepts it, and waits for the client.
#[derive(Drop)]
pub struct ConnectionReader<'a, L: OpenListener, R> {
    rt: &'a R,
    acceptor: &'a Acceptor<L>,
    other_end: Arc<OtherEnd<L::Stream>>,
    stream: Option<L::Stream>,
}

impl<'a, L: OpenListener + Drop, R: Wait> Read for ConnectionReader<'a, L, R>
where
    L::Stream: Read + OpenStream,
{
    fn read(&mut self, buf: &mut [u8]) -> io::Result<usize> {
        if self.stream.is_none() {
            let stream = self.acceptor.accept(self.rt)?;
            self.other_end.leave(self.rt, &stream)?;
            self.stream = Some(stream);
        }
        match self.stream.as_mut() {
            Some(stream) => stream.read(buf),
            None => Err(io::Error::from(ErrorKind::NotConnected)),
        }
    }
}

/// Writes to the connection of a session, once its reader has accepted it.
#[derive(Drop)]
pub struct ConnectionWriter<'a, L: OpenListener, R> {
    rt: &'a R,
    other_end: Arc<OtherEnd<L::Stream>>,
    stream: Option<L::Stream>,
}

impl<'a, L: OpenListener, R: Wait> Write for ConnectionWriter<'a, L, R>
where
    L::Stream: Write + OpenStream,
{
    fn write(&mut self, buf: &[u8]) -> io::Result<usize> {
        if self.stream.is_none() {
            self.stream = self.other_end.take(self.rt);
        }
        match self.stream.as_mut() {
            Some(stream) => stream.write(buf),
            None => Err(io::Error::from(ErrorKind::NotConnected)),
        }
    }

    fn flush(&mut self) -> io::Result<()> {
        match self.stream.as_mut() {
            Some(stream) => stream.flush(),
            None => Ok(()),
        }
    }
}

/// The readers and writers of so many sessions, whose connections the acceptor will accept.
pub fn ends_of<'a, L, R>(
    rt: &'a R,
    alloc: Global,
    acceptor: &'a Acceptor<L>,
    sessions: usize,
) -> Result<Vec<Ends<'a, L, R>>, Memory>
where
    L: OpenListener + Drop,
    L::Stream: Read + Write + OpenStream,
    R: Wait,
    ensures { IfOk result (λ v. vec_len v ≡ sessions) }
{
    let mut ends = Vec::new(alloc);
    for _session in 0..sessions {
        let both = both_ends(rt, alloc, acceptor)?;
        if ends.push(both).is_err() {
            return Err(Memory);
        }
    }
    Ok(ends)
}

// The reader and the writer of one session.
fn both_ends<'a, L, R>(
    rt: &'a R,
    alloc: Global,
    acceptor: &'a Acceptor<L>,
) -> Result<Ends<'a, L, R>, Memory>
where
    L: OpenListener + Drop,
    L::Stream: Read + Write + OpenStream,
    R: Wait,
{
    let Ok(other_end) = Arc::new(alloc, OtherEnd::new()) else {
        return Err(Memory);
    };
    let Ok(for_writer) = Arc::try_clone(&other_end) else {
        return Err(Memory);
    };
    let reader = ConnectionReader {
        rt,
        acceptor,
        other_end,
        stream: None,
    };
    let writer = ConnectionWriter {
        rt,
        other_end: for_writer,
        stream: None,
    };
    Ok((RequestGuard::new(Std::new(reader)), Std::new(writer)))
}
