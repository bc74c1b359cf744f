//! The numbers of the server that has the board.
use crate::process::ProcessMemory;
use accept_queue::AcceptQueue;
use board_answers::{Gauges, ServerNumbers};
use std::net::TcpStream;
use std::sync::Wait;
use std::time::{Clock, Instant};

// What tells the numbers of a server: the memory of the process, and the sessions of a service, which have an accept queue.
#[derive(Drop)]
pub(crate) struct Numbers<'r, 'm, 'q, R> {
    pub rt: &'r R,
    pub memory: &'m ProcessMemory,
    pub queue: Option<&'q AcceptQueue<TcpStream>>,
    pub start: Option<Instant>,
}

impl<'r, 'm, 'q, R: Wait + Clock> Gauges for Numbers<'r, 'm, 'q, R> {
    fn numbers(&self) -> ServerNumbers {
        let counts = self.queue.map(|queue| queue.counts(self.rt));
        ServerNumbers {
            sessions: counts.map(|counts| counts.sessions as u64),
            waiting: counts.map(|counts| counts.waiting as u64),
            memory: self.memory.resident(),
        }
    }

    // Where the clock fails, no time passes.
    fn microseconds(&self) -> u64 {
        let Some(start) = self.start else {
            return 0;
        };
        match Instant::now(self.rt) {
            Ok(now) => now
                .saturating_duration_since(start)
                .as_micros()
                .try_into()
                .unwrap_or(u64::MAX),
            Err(_) => 0,
        }
    }
}
