//! Shifts of one session and of two.
ghost use Rattle.std.specs.Prelude.{◌≡◌, ◌≤◌, vec_len, IfOk};

use crate::gates::{Holding, Meeting};
use crate::lines::{OF_FIRST, OF_SECOND, SIXTEEN, WITH_A_BAD_LINE};
use crate::streams::{Reader, Writer, Written};
use hub_shared::{Settled, settle};
use hub_shifts::{Gate, OpenGate, SessionEnd, Shift, ShiftFault, run_shift};
use session_serving::SessionFault;
use std::alloc::Global;
use std::random::RandomSource;
use std::sync::Wait;
use std::test::*;
use std::thread::Threads;
use test_scripts::Script;

/// A shift that lies on the heap.
pub(crate) fn boxed(alloc: Global, shift: Result<Shift, ShiftFault>) -> Result<Box<Shift>, Fail> {
    match shift {
        Ok(shift) => Ok(Box::new(alloc, shift)?),
        Err(ShiftFault::Thread) => Err(Fail::new("a thread")),
        Err(ShiftFault::Memory) => Err(Fail::new("memory")),
    }
}

/// Whether the tallies tell the history of the shift.
pub(crate) fn is_told(alloc: Global, shift: &Shift) -> bool {
    let settled = settle(alloc, &shift.hub, 0, shift.tallies.as_slice());
    shift.earlier == 0 && settled == Ok(Settled { calls: shift.sum })
}

// Whether so many calls were made and settle, and none met a fault.
fn is_settled(alloc: Global, shift: &Shift, calls: u64) -> bool {
    shift.sum == calls && shift.refused == 0 && is_told(alloc, shift)
}

// Whether no lane holds a job.
fn is_nothing_left(rt: &impl Wait, shift: &mut Shift) -> bool {
    for left in shift.left.iter_mut() {
        if left.next(rt).is_some() {
            return false;
        }
    }
    true
}

// Fails unless so many calls were made and settle, none met a fault and no lane holds a job.
fn check(rt: &impl Wait, alloc: Global, shift: &mut Shift, calls: u64) -> Result<(), Fail> {
    if !is_settled(alloc, shift, calls) {
        return Err(Fail::new("not settled"));
    }
    if !is_nothing_left(rt, shift) {
        return Err(Fail::new("a job is left"));
    }
    Ok(())
}

// Fails unless the lines of the session were said, and no more.
fn check_said(
    rt: &impl Wait,
    alloc: Global,
    written: &Written,
    session: &[&str],
) -> Result<(), Fail> {
    let wanted = Script::of(alloc, session)?.wanted;
    if written.is(rt, wanted.as_slice()) {
        Ok(())
    } else {
        Err(Fail::new("other lines"))
    }
}

// A session alone, and how many workers serve it.
#[derive(Clone, Copy)]
struct Alone {
    session: &'static [&'static str],
    workers: usize,
}

// Runs one session.
fn run_one<G: Gate + Sync, R: Threads + Wait + Sync + RandomSource>(
    rt: &R,
    alloc: Global,
    gate: &G,
    written: &Written,
    alone: Alone,
) -> Result<Box<Shift>, Fail>
    requires { (1 ≤ alone.workers) × (alone.workers ≤ 8) }
{
    let lines = Script::of(alloc, alone.session)?.input;
    let reader = Reader::new(lines.as_slice(), false);
    let writer = Writer::new(rt, written, usize::MAX);
    let sessions = Vec::from_array(alloc, [(reader, writer)])?;
    boxed(alloc, run_shift(rt, alloc, gate, sessions, alone.workers))
}

// How two sessions are read, written and served: whether a read gives one line, how many writes of the second are taken, and
// by how many workers.
#[derive(Clone, Copy)]
struct Manner {
    is_by_line: bool,
    writes: usize,
    workers: usize,
}

const AT_ONCE: Manner = Manner {
    is_by_line: false,
    writes: usize::MAX,
    workers: 2,
};

const IN_ONE_LANE: Manner = Manner {
    is_by_line: false,
    writes: usize::MAX,
    workers: 1,
};

const FAILING_AFTER_ITS_HELLO: Manner = Manner {
    is_by_line: true,
    writes: 1,
    workers: 2,
};

// Runs the two sessions.
fn run_two<G: Gate + Sync, R: Threads + Wait + Sync + RandomSource>(
    rt: &R,
    alloc: Global,
    gate: &G,
    written: &[Written; 2],
    manner: Manner,
) -> Result<Box<Shift>, Fail>
    requires { (1 ≤ manner.workers) × (manner.workers ≤ 8) }
{
    let lines = [
        Script::of(alloc, OF_FIRST)?.input,
        Script::of(alloc, OF_SECOND)?.input,
    ];
    let first = (
        Reader::new(lines[0].as_slice(), manner.is_by_line),
        Writer::new(rt, &written[0], usize::MAX),
    );
    let second = (
        Reader::new(lines[1].as_slice(), manner.is_by_line),
        Writer::new(rt, &written[1], manner.writes),
    );
    let sessions = Vec::from_array(alloc, [first, second])?;
    boxed(alloc, run_shift(rt, alloc, gate, sessions, manner.workers))
}

fn new_written(alloc: Global) -> [Written; 2] {
    [Written::new(alloc), Written::new(alloc)]
}

#[test]
fn two_workers_serve_at_once(rt: HostRuntime) -> Result<(), Fail> {
    let alloc = rt.alloc();
    let gate = Meeting::new(alloc);
    let written = gate.written();
    let mut shift = run_two(&rt, alloc, &gate, written, AT_ONCE)?;
    assert!(rt; !gate.is_late());
    check_said(&rt, alloc, &written[0], OF_FIRST)?;
    check_said(&rt, alloc, &written[1], OF_SECOND)?;
    check(&rt, alloc, &mut shift, 10)
}

#[test]
fn two_sessions_share_a_lane(rt: HostRuntime) -> Result<(), Fail> {
    let alloc = rt.alloc();
    let written = new_written(alloc);
    let mut shift = run_two(&rt, alloc, &OpenGate, &written, IN_ONE_LANE)?;
    check_said(&rt, alloc, &written[0], OF_FIRST)?;
    check_said(&rt, alloc, &written[1], OF_SECOND)?;
    check(&rt, alloc, &mut shift, 10)
}

#[test]
fn one_worker_keeps_the_order_of_lines(rt: HostRuntime) -> Result<(), Fail> {
    let alloc = rt.alloc();
    let written = Written::new(alloc);
    let alone = Alone {
        session: WITH_A_BAD_LINE,
        workers: 1,
    };
    let mut shift = run_one(&rt, alloc, &OpenGate, &written, alone)?;
    assert!(rt; shift.ends.as_slice() == [SessionEnd::Complete].as_slice());
    check_said(&rt, alloc, &written, WITH_A_BAD_LINE)?;
    check(&rt, alloc, &mut shift, 20)
}

#[test]
fn no_job_overtakes_the_first(rt: HostRuntime) -> Result<(), Fail> {
    let alloc = rt.alloc();
    let written = Written::new(alloc);
    let gate = Holding::new();
    let alone = Alone {
        session: SIXTEEN,
        workers: 2,
    };
    let mut shift = run_one(&rt, alloc, &gate, &written, alone)?;
    assert!(rt; gate.is_in_order() && shift.left.len() == 2);
    check_said(&rt, alloc, &written, SIXTEEN)?;
    check(&rt, alloc, &mut shift, 16)
}

// How many entries the tallies of a shift have.
fn entry_counts(shift: &Shift) -> (usize, usize) {
    match shift.tallies.as_slice() {
        [first, second] => (first.entries().len(), second.entries().len()),
        _ => (0, 0),
    }
}

#[test]
fn a_failing_writer_ends_its_own_session(rt: HostRuntime) -> Result<(), Fail> {
    let alloc = rt.alloc();
    let written = new_written(alloc);
    let mut shift = run_two(&rt, alloc, &OpenGate, &written, FAILING_AFTER_ITS_HELLO)?;
    let ends = [SessionEnd::Complete, SessionEnd::Fault(SessionFault::Write)];
    assert!(rt; shift.ends.as_slice() == ends.as_slice());
    assert!(rt; written[0].lines() == 6 && written[1].lines() == 1);
    assert!(rt; entry_counts(&shift) == (5, 1));
    check(&rt, alloc, &mut shift, 6)
}
