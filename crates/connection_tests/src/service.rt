//! A service whose handlers write back what they read.

use crate::script::{Step, steps_done};
use accept_queue::{
    AcceptQueue, Limits, QueuedConnections, accept_connections, control_of, end_service,
    handlers_of,
};
use connections::Connections;
use railway_keys::{KeyTable, KeyedConnections};
use std::alloc::{AllocGlobal, Global};
use std::net::{Ipv4Addr, Net, SocketAddr, TcpListener, TcpStream};
use std::rt::{Clock, Files};
use std::sync::Wait;
use std::test::*;
use std::thread;
use std::thread::Threads;
use std::time::Duration;
use taf_codes::{Sink, Source};

// What a client is told for which there is no handler.
pub(crate) const FULL: &str = "{\"fault\":\"full\"}\n";

// A listener on a port of this machine, the queue of its connections, and the keys that they are asked for.
#[derive(Drop)]
pub(crate) struct Service {
    listener: TcpListener,
    control: TcpStream,
    queue: AcceptQueue<TcpStream>,
    keys: Option<KeyTable>,
    pub(crate) address: SocketAddr,
}

impl Service {
    fn new<R: Net<Listener = TcpListener, Stream = TcpStream>>(
        rt: &R,
        alloc: Global,
        limits: Limits,
        keys: Option<KeyTable>,
    ) -> Result<Service, Fail> {
        let listener = TcpListener::bind(rt, (Ipv4Addr::LOCALHOST, 0))?;
        let control = control_of(&listener)?;
        let address = listener.local_addr()?;
        let Ok(queue) = AcceptQueue::new(alloc, limits) else {
            return Err(Fail::new("no queue"));
        };
        Ok(Service {
            listener,
            control,
            queue,
            keys,
            address,
        })
    }

    // Serves connections by one or two handlers until the service ends. How many sessions there were.
    fn run<R: Threads + Wait + Clock + Sync>(&self, rt: &R, alloc: Global) -> u64 {
        let Ok(mut handlers) = handlers_of(rt, alloc, &self.queue) else {
            return 0;
        };
        let (second, first) = (handlers.pop(), handlers.pop());
        let (_, (many, more)) = thread::join(
            rt,
            || accept_connections(rt, &self.listener, &self.control, &self.queue),
            || {
                thread::join(
                    rt,
                    || serve_all(rt, alloc, self.keys.as_ref(), first),
                    || serve_all(rt, alloc, self.keys.as_ref(), second),
                )
            },
        );
        many.saturating_add(more)
    }

    pub(crate) fn end<R: Wait + Clock>(&self, rt: &R) {
        end_service(rt, &self.queue, &self.control);
    }
}

/// What came of a script: how many of its steps went as they say, and how many sessions there were.
#[derive(Clone, Copy, Debug, PartialEq, Eq)]
pub(crate) struct Played {
    pub(crate) steps: usize,
    pub(crate) sessions: u64,
}

/// All steps of the script, and so many sessions.
pub(crate) fn all_of(script: &[Step], sessions: u64) -> Played {
    let steps = script.len();
    Played { steps, sessions }
}

/// Has clients do what the script says, at a service with these limits and keys, which ends then.
pub(crate) fn play<R>(
    rt: &R,
    limits: Limits,
    keys: Option<KeyTable>,
    script: &[Step],
) -> Result<Played, Fail>
where
    R: Net<Listener = TcpListener, Stream = TcpStream> + Files + Threads + Wait + Clock,
    R: Sync + AllocGlobal + Clone + Drop,
{
    let alloc = rt.alloc();
    let service = Service::new(rt, alloc, limits, keys)?;
    let (sessions, steps) = thread::join(
        rt,
        || service.run(rt, alloc),
        || {
            let steps = steps_done(rt, alloc, &service, script);
            service.end(rt);
            steps
        },
    );
    Ok(Played { steps, sessions })
}

// The limits of so many handlers, with ten seconds for whatever is to be in time.
pub(crate) fn limits_of(handlers: usize) -> Result<Limits, Fail> {
    let Some(mut limits) = Limits::new(handlers) else {
        return Err(Fail::new("no limits"));
    };
    limits.wait_before_full = Duration::from_secs(10);
    limits.silence_before_hello = Duration::from_secs(10);
    limits.grace = Duration::from_secs(10);
    Ok(limits)
}

// Serves one session after another. How many there were.
fn serve_all<R: Wait>(
    rt: &R,
    alloc: Global,
    keys: Option<&KeyTable>,
    connections: Option<QueuedConnections<'_, TcpStream, R>>,
) -> u64 {
    let mut sessions = 0u64;
    let Some(connections) = connections else {
        return 0;
    };
    let mut connections = KeyedConnections::new(alloc, keys, connections);
    for _ in rt.forever() {
        let Some((mut reader, mut writer)) = connections.next() else {
            break;
        };
        write_back(&mut reader, &mut writer);
        sessions = sessions.saturating_add(1);
    }
    sessions
}

// Writes back what is read, to the end or to the first failure. Once it has read `!` it writes on, whatever comes.
fn write_back<S: Source, K: Sink>(reader: &mut S, writer: &mut K) {
    let mut bytes = [0; 4096];
    for _ in 0..u64::MAX {
        let count = match reader.pull(&mut bytes) {
            Ok(count) if count > 0 => count,
            _ => return,
        };
        if bytes[0] == b'!' {
            return write_on(writer);
        }
        if !write_whole(writer, &bytes[..count]) {
            return;
        }
    }
}

// Writes until the first failure.
fn write_on<K: Sink>(writer: &mut K) {
    let bytes = [b'!'; 4096];
    for _ in 0..u64::MAX {
        if !write_whole(writer, &bytes) {
            return;
        }
    }
}

// Whether all bytes were taken.
fn write_whole<K: Sink>(writer: &mut K, bytes: &[u8]) -> bool {
    let mut rest = bytes;
    for _ in 0..bytes.len() {
        if rest.is_empty() {
            return true;
        }
        let Ok(count) = writer.push(rest) else {
            return false;
        };
        rest = &rest[count..];
    }
    rest.is_empty()
}
