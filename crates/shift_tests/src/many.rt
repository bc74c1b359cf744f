//! Many sessions with many calls.

use crate::shifts::boxed;
use crate::streams::{Reader, Writer, Written};
use hub_shared::{Settled, settle};
use hub_shifts::{OpenGate, SessionEnd, Shift, run_shift};
use std::alloc::Global;
use std::random::RandomSource;
use std::sync::Wait;
use std::test::*;
use std::thread::Threads;

// How many sessions, workers, and calls of each session.
const SESSIONS: usize = 64;

const WORKERS: usize = 8;

const CALLS: usize = 1_000;

const HELLO: &[u8] = b"{\"kind\":\"hello\",\"from\":\"R100\"}\n";

const ASK: &[u8] = b"{\"kind\":\"ask\",\"from\":\"R100\",\"wagon\":\"318066552148\"}\n";

// The lines of one session.
fn lines_of_a_session(alloc: Global) -> Result<Vec<u8>, Fail> {
    let mut lines = Vec::new(alloc);
    lines.extend_from_slice(HELLO)?;
    for _ in 0..CALLS {
        lines.extend_from_slice(ASK)?;
    }
    Ok(lines)
}

// What the writers of all sessions took.
fn new_written(alloc: Global) -> Result<Vec<Written>, Fail> {
    let mut written = Vec::new(alloc);
    for _ in 0..SESSIONS {
        written.push(Written::new(alloc))?;
    }
    Ok(written)
}

// Runs a session for each of these.
fn run_all<R: Threads + Wait + Sync + RandomSource>(
    rt: &R,
    alloc: Global,
    lines: &[u8],
    written: &[Written],
) -> Result<Box<Shift>, Fail> {
    let mut sessions = Vec::new(alloc);
    for written in written {
        let reader = Reader::new(lines, false);
        let writer = Writer::new(rt, written, usize::MAX);
        sessions.push((reader, writer))?;
    }
    if sessions.is_empty() || sessions.len() > SESSIONS {
        return Err(Fail::new("sessions"));
    }
    boxed(alloc, run_shift(rt, alloc, &OpenGate, sessions, WORKERS))
}

// Whether all sessions came to their end, and each was said a line to each of its lines.
fn is_whole(shift: &Shift, written: &[Written]) -> bool {
    shift.ends.iter().all(|end| *end == SessionEnd::Complete)
        && written
            .iter()
            .all(|written| written.lines() == CALLS as u64 + 1)
}

#[test]
fn many_sessions_settle(rt: HostRuntime) -> Result<(), Fail> {
    let alloc = rt.alloc();
    let lines = lines_of_a_session(alloc)?;
    let written = new_written(alloc)?;
    let shift = run_all(&rt, alloc, lines.as_slice(), written.as_slice())?;
    assert!(rt; is_whole(&shift, written.as_slice()));
    let calls = (SESSIONS * CALLS) as u64;
    assert!(rt; shift.sum == calls && shift.refused == 0);
    let settled = settle(alloc, &shift.hub, 0, shift.tallies.as_slice());
    assert!(rt; settled == Ok(Settled { calls }));
    Ok(())
}
