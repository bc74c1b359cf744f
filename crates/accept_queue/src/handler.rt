//! The connections that a connection handler serves, one after another.
ghost use Rattle.std.specs.Prelude.{◌≡◌, ◌≤◌, ◌<◌, vec_len, IfOk};

use crate::queue::AcceptQueue;
use crate::reader::TimedReader;
use connections::{Connections, RequestGuard};
use std::alloc::Global;
use std::io::{Read, Write};
use std::net::OpenStream;
use std::sync::Wait;
use taf_codes::{Memory, Std};

/// What a session reads from: nothing where a request of HTTP comes first, and a failure where the client is silent for too long.
pub type SessionReader<T> = RequestGuard<TimedReader<T>>;

/// What a session writes to.
pub type SessionWriter<T> = Std<T>;

/// Brings connections of an accept queue to one connection handler.
///
/// Once the next is asked for, and once this is dropped, nothing is kept of the connection before.
pub struct QueuedConnections<'a, T: OpenStream + Drop, R: Wait> {
    rt: &'a R,
    queue: &'a AcceptQueue<T>,
    handler: usize,
    ghost within: { handler < 64 },
}

impl<'a, T: OpenStream + Drop, R: Wait> QueuedConnections<'a, T, R> {
    fn new(rt: &'a R, queue: &'a AcceptQueue<T>, handler: usize) -> QueuedConnections<'a, T, R>
        requires { handler < 64 }
    {
        QueuedConnections { rt, queue, handler }
    }
}

impl<'a, T: OpenStream + Drop, R: Wait> Drop for QueuedConnections<'a, T, R> {
    fn drop(self) {
        let QueuedConnections { rt, queue, handler } = self;
        queue.end(rt, handler);
    }
}

impl<'a, T: Read + Write + OpenStream + Send + Drop, R: Wait> Connections
    for QueuedConnections<'a, T, R> {
    type Reader = SessionReader<T>;

    type Writer = SessionWriter<T>;

    fn next(&mut self) -> Option<(SessionReader<T>, SessionWriter<T>)> {
        self.queue.end(self.rt, self.handler);
        let (reader, writer) = self.queue.next(self.rt, self.handler)?;
        let silence_between_lines = self.queue.limits().silence_between_lines;
        let reader = TimedReader::new(reader, silence_between_lines);
        Some((RequestGuard::new(reader), Std::new(writer)))
    }
}

/// What brings connections of the queue to each of its handlers, as many as its limits say. It is asked for once: two handlers of one
/// number would end each other's sessions. Want of memory is the only error.
pub fn handlers_of<'a, T: OpenStream + Drop, R: Wait>(
    rt: &'a R,
    alloc: Global,
    queue: &'a AcceptQueue<T>,
) -> Result<Vec<QueuedConnections<'a, T, R>>, Memory>
    ensures { IfOk result (λ v. vec_len v ≡ queue.now.limits.handlers) }
{
    let limits = queue.limits();
    each_handler(rt, alloc, queue, limits.handlers)
}

// What brings connections to each of so many handlers.
fn each_handler<'a, T: OpenStream + Drop, R: Wait>(
    rt: &'a R,
    alloc: Global,
    queue: &'a AcceptQueue<T>,
    handlers: usize,
) -> Result<Vec<QueuedConnections<'a, T, R>>, Memory>
    requires { handlers ≤ 64 }
    ensures { IfOk result (λ v. vec_len v ≡ handlers) }
{
    let mut each = Vec::new(alloc);
    for handler in 0..handlers {
        if each
            .push(QueuedConnections::new(rt, queue, handler))
            .is_err()
        {
            return Err(Memory);
        }
    }
    Ok(each)
}
