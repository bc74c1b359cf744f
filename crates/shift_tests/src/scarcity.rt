//! Each growth of a shift before its first thread refused in turn, then the threads themselves, and then each growth after the
//! first read.

use crate::lines::OF_FIRST;
use crate::shifts::{boxed, is_told};
use crate::streams::{LimitingReader, Reader, Writer, Written};
use hub_shifts::{OpenGate, SessionEnd, ShiftFault, run_shift};
use memory_limit::MemoryLimit;
use std::alloc::Global;
use std::random::RandomSource;
use std::sync::{Mutex, Wait};
use std::test::*;
use std::thread::Threads;
use test_scripts::Script;

// How many bytes more each budget has.
const STEP: usize = 64;

// How many budgets there are from the first read on: up to 128 KiB, since the allocator has larger pieces from the system.
const BUDGETS: usize = 2048;

// Why a shift of this session is refused with so much memory left. None where it is not.
fn refusal<R: Threads + Wait + Sync + RandomSource>(
    rt: &R,
    alloc: Global,
    memory_limit: &mut MemoryLimit,
    left: usize,
    session: (Reader<'_>, Writer<'_, '_, R>),
) -> Result<Option<ShiftFault>, Fail> {
    let sessions = Vec::from_array(alloc, [session])?;
    memory_limit.limit_to(left)?;
    let fault = run_shift(rt, alloc, &OpenGate, sessions, 1).err();
    memory_limit.release();
    Ok(fault)
}

// How many budgets are refused memory, before one is enough for all but the threads. No line is said.
fn count_refused<R: Threads + Wait + Sync + RandomSource>(
    rt: &R,
    alloc: Global,
) -> Result<u32, Fail> {
    let lines = Script::of(alloc, OF_FIRST)?.input;
    let written = Written::new(alloc);
    let mut memory_limit = MemoryLimit::new(alloc)?;
    let mut refused = 0u32;
    for step in 0..10_000usize {
        let reader = Reader::new(lines.as_slice(), false);
        let writer = Writer::new(rt, &written, usize::MAX);
        let session = (reader, writer);
        match refusal(rt, alloc, &mut memory_limit, step * STEP, session)? {
            Some(ShiftFault::Memory) if written.lines() == 0 => refused = refused.saturating_add(1),
            Some(ShiftFault::Thread) if written.lines() == 0 => return Ok(refused),
            _ => return Err(Fail::new("a line was said")),
        }
    }
    Err(Fail::new("always refused"))
}

// Runs the session with ample memory. Fails unless it comes to its end and is said its lines.
fn run_amply<R: Threads + Wait + Sync + RandomSource>(rt: &R, alloc: Global) -> Result<(), Fail> {
    let Script { input, wanted } = Script::of(alloc, OF_FIRST)?;
    let written = Written::new(alloc);
    let reader = Reader::new(input.as_slice(), false);
    let writer = Writer::new(rt, &written, usize::MAX);
    let sessions = Vec::from_array(alloc, [(reader, writer)])?;
    let shift = boxed(alloc, run_shift(rt, alloc, &OpenGate, sessions, 1))?;
    let is_complete = shift.ends.as_slice() == [SessionEnd::Complete].as_slice();
    if is_complete && written.is(rt, wanted.as_slice()) {
        Ok(())
    } else {
        Err(Fail::new("another end"))
    }
}

#[test]
fn each_growth_before_the_threads_is_refused_in_turn(rt: HostRuntime) -> Result<(), Fail> {
    assert!(rt; count_refused(&rt, rt.alloc())? > 4);
    run_amply(&rt, rt.alloc())
}

// Runs the session with so much memory left from its first read on, and tells whether it was said its lines and came to its
// end. Fails where the shift does not end well, or where its tally does not tell its history.
fn is_served_with<R: Threads + Wait + Sync + RandomSource>(
    rt: &R,
    alloc: Global,
    memory_limit: &Mutex<MemoryLimit>,
    left: usize,
) -> Result<bool, Fail> {
    let Script { input, wanted } = Script::of(alloc, OF_FIRST)?;
    let written = Written::with_room(alloc, wanted.len())?;
    let reader = Reader::new(input.as_slice(), false);
    let reader = LimitingReader::new(rt, reader, memory_limit, left);
    let writer = Writer::new(rt, &written, usize::MAX);
    let sessions = Vec::from_array(alloc, [(reader, writer)])?;
    let shift = run_shift(rt, alloc, &OpenGate, sessions, 1);
    memory_limit.lock(rt).release();
    let shift = boxed(alloc, shift)?;
    if !is_told(alloc, &shift) {
        return Err(Fail::new("not settled"));
    }
    let is_complete = shift.ends.as_slice() == [SessionEnd::Complete].as_slice();
    Ok(is_complete && written.is(rt, wanted.as_slice()))
}

// With how many budgets from the first read on the session is not served.
fn count_unserved<R: Threads + Wait + Sync + RandomSource>(
    rt: &R,
    alloc: Global,
) -> Result<u32, Fail> {
    let memory_limit = Mutex::new(MemoryLimit::new(alloc)?);
    let mut unserved = 0u32;
    for step in 0..BUDGETS {
        if !is_served_with(rt, alloc, &memory_limit, step * STEP)? {
            unserved = unserved.saturating_add(1);
        }
    }
    Ok(unserved)
}

#[test]
fn each_growth_after_the_first_read_is_refused_in_turn(rt: HostRuntime) -> Result<(), Fail> {
    assert!(rt; count_unserved(&rt, rt.alloc())? > 4);
    run_amply(&rt, rt.alloc())
}
