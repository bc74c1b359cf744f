//! Whole shifts: the calls of eight sessions, each with sixteen on the way, made by two workers around one hub.
ghost use Rattle.std.specs.Prelude.{None};
ghost use Rattle.taf_codes.specs.Counting.{count};

use crate::measured::Measured;
use anyhow::Result;
use hub_shifts::{OpenGate, ShiftFault, run_shift};
use std::alloc::{AllocError, Global};
use std::random::RandomSource;
use std::sync::Wait;
use std::thread::Threads;
use std::time::{Clock, Instant};
use taf_codes::{Failed, Failures, Sink, Source};

const SESSIONS: usize = 8;

const WORKERS: usize = 2;

const HELLO: &[u8] = b"{\"kind\":\"hello\",\"from\":\"R100\"}\n";

const ASK: &[u8] = b"{\"kind\":\"ask\",\"from\":\"R100\",\"wagon\":\"318066552148\"}\n";

// A reader over the lines of a session.
#[derive(Drop)]
struct Lines<'a> {
    rest: &'a [u8],
    failed: Failures,
}

impl Source for Lines<'_> {
    ghost remaining = { λ _. None };

    ghost failures = { λ s. count s.failed };

    fn pull(&mut self, buf: &mut [u8]) -> Result<usize, Failed> {
        let size = self.rest.len().min(buf.len());
        buf[..size].copy_from_slice(&self.rest[..size]);
        self.rest = &self.rest[size..];
        Ok(size)
    }
}

// A writer that keeps nothing.
#[derive(Drop)]
struct Unkept {
    failed: Failures,
}

impl Sink for Unkept {
    ghost contents = { λ _. None };

    ghost failures = { λ s. count s.failed };

    fn push(&mut self, bytes: &[u8]) -> Result<usize, Failed> {
        Ok(bytes.len())
    }

    fn flush(&mut self) -> Result<(), Failed> {
        Ok(())
    }
}

// The hello of a session, and so many questions.
fn lines_of_a_session(alloc: Global, calls: u64) -> Result<Vec<u8>, AllocError> {
    let mut lines = Vec::new(alloc);
    lines.extend_from_slice(HELLO)?;
    for _ in 0..calls {
        lines.extend_from_slice(ASK)?;
    }
    Ok(lines)
}

// Eight sessions of these lines.
fn new_sessions(alloc: Global, lines: &[u8]) -> Result<Vec<(Lines<'_>, Unkept)>, AllocError> {
    let mut sessions = Vec::new(alloc);
    for _ in 0..SESSIONS {
        let reader = Lines {
            rest: lines,
            failed: Failures::new(),
        };
        let writer = Unkept {
            failed: Failures::new(),
        };
        sessions.push((reader, writer))?;
    }
    Ok(sessions)
}

/// Calls of a shift, an eighth of them in each session.
pub(crate) fn calls<R: Threads + Wait + Clock + RandomSource + Sync>(
    rt: &R,
    alloc: Global,
    count: u64,
) -> Result<Measured> {
    let lines = lines_of_a_session(alloc, count / SESSIONS as u64)?;
    let sessions = new_sessions(alloc, lines.as_slice())?;
    if sessions.is_empty() || sessions.len() > SESSIONS {
        return Err(ShiftFault::Memory.into());
    }
    let start = Instant::now(rt)?;
    let shift = run_shift(rt, alloc, &OpenGate, sessions, WORKERS)?;
    Measured::since(rt, start, shift.sum)
}
