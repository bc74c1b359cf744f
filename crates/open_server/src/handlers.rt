//! What brings the connections of a service to its handlers.
ghost use Rattle.std.specs.Prelude.{◌≡◌, vec_len, option_map, IfOk};
ghost use Rattle.std.specs.List.{All};

use crate::listening::Listening;
use accept_queue::{QueuedConnections, handlers_of};
use railway_keys::KeyedConnections;
use std::alloc::Global;
use std::net::TcpStream;
use std::sync::Wait;
use taf_codes::Memory;

// What the thread of a handler begins with: what brings its connections, and nothing in the place of a writer.
pub(crate) type HandlerStart<'a, R> = (
    KeyedConnections<'a, QueuedConnections<'a, TcpStream, R>>,
    (),
);

// What each handler begins with, as many as the limits say. What brings their connections asks for the keys that the service has.
pub(crate) fn handler_starts<'a, R: Wait>(
    rt: &'a R,
    alloc: Global,
    listening: &'a Listening,
) -> Result<Vec<HandlerStart<'a, R>>, Memory>
    ensures count { IfOk result (λ v. vec_len v ≡ listening.now.queue.limits.handlers) }
    ensures keyed { IfOk result (λ v. All (λ start.
        option_map (λ k. k.now) start.0.keys ≡ listening.now.keys) v.items) }
{
    let each = handlers_of(rt, alloc, &listening.queue)?;
    let mut starts = Vec::new(alloc);
    for connections in each {
        let keyed = KeyedConnections::new(alloc, listening.keys.as_ref(), connections);
        if starts.push((keyed, ())).is_err() {
            return Err(Memory);
        }
    }
    Ok(starts)
}
