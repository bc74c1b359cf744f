//! A listener whose connections are accepted by the sessions of a shift, one each.
use std::io;
use std::io::ErrorKind;
use std::net::OpenListener;
use std::sync::{Mutex, Wait};

/// The listener of a shift, of which each session accepts one connection. Then it is closed: a client beyond them is refused at once,
/// and does not wait for an answer that never comes.
#[derive(Drop)]
pub struct Acceptor<L> {
    listening: Mutex<Listening<L>>,
}

#[derive(Drop)]
struct Listening<L> {
    // None once all sessions have accepted.
    listener: Option<L>,
    // How many sessions have not accepted yet.
    left: usize,
}

impl<L: OpenListener + Drop> Acceptor<L> {
    /// Accepts a connection of the listener for each of so many sessions.
    pub fn new(listener: L, sessions: usize) -> Acceptor<L> {
        Acceptor {
            listening: Mutex::new(Listening {
                listener: Some(listener),
                left: sessions,
            }),
        }
    }

    /// The connection of one more session. It waits for the client, and while another session waits for one.
    pub(crate) fn accept<R: Wait>(&self, rt: &R) -> io::Result<L::Stream> {
        let mut listening = self.listening.lock(rt);
        let accepted = match listening.listener.as_ref() {
            Some(listener) => next_connection(rt, listener),
            None => Err(io::Error::from(ErrorKind::NotConnected)),
        };
        listening.left = listening.left.saturating_sub(1);
        if listening.left == 0 {
            listening.listener = None;
        }
        accepted
    }
}

// The next connection. One that was taken back before it was accepted is passed over.
fn next_connection<L: OpenListener>(rt: &impl Wait, listener: &L) -> io::Result<L::Stream> {
    for _ in rt.forever() {
        match listener.accept() {
            Ok((stream, _)) => return Ok(stream),
            Err(error) => match error.kind() {
                ErrorKind::ConnectionAborted | ErrorKind::Interrupted => {}
                _ => return Err(error),
            },
        }
    }
    unreachable!()
}
