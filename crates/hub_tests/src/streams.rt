//! Readers that give few bytes at once and writers that take few, and both as they fail at each step.

ghost use Rattle.std.specs.Prelude.{None};
ghost use Rattle.taf_codes.specs.Counting.{count};

use crate::lines::BAD_LINES;
use crate::many::delays;
use crate::movement::AFTER_DEPARTURE;
use crate::play::{DEPARTED, new_hub};
use hub_core::Hub;
use hub_replay::{Counts, RunFault, run};
use memory_limit::MemoryLimit;
use std::test::Fail;
use std::thread::Threads;
use taf_codes::{Failed, Failures, Sink, Source};
use test_scripts::{Script, count_answered, count_lines, first_lines};

const BLANK_LINES: &str = "\n \t\n  ";

// Lines that are no calls or are blank, a departure, and what came of it.
static EXAMPLE: &[&str] = &[BAD_LINES, BLANK_LINES, DEPARTED, AFTER_DEPARTURE];

// Two calls and fourteen faults of the bad lines; a plan, a release, a departure, three asks and five fetches.
const COUNTS: Counts = Counts {
    lines: 27,
    calls: 13,
    faults: 14,
};

// So many calls of a reader or a writer as no test needs.
const MANY: usize = 1_000_000;

// What a reader gives and a writer takes.
#[derive(Clone, Copy)]
struct Reach {
    /// How many bytes a read gives at most.
    step: usize,
    /// How many reads there are before one fails.
    reads: usize,
    /// How many bytes a write takes at most.
    taken: usize,
    /// How many writes there are before one fails.
    writes: usize,
    /// How many flushes there are before one fails.
    flushes: usize,
}

const FAR: Reach = Reach {
    step: 50,
    reads: MANY,
    taken: 50,
    writes: MANY,
    flushes: MANY,
};

// A reader over bytes.
#[derive(Drop)]
struct Bytes<'a> {
    rest: &'a [u8],
    step: usize,
    reads: usize,
    failed: Failures,
}

impl<'a> Bytes<'a> {
    fn new(rest: &'a [u8], reach: Reach) -> Bytes<'a> {
        Bytes {
            rest,
            step: reach.step,
            reads: reach.reads,
            failed: Failures::new(),
        }
    }
}

impl Source for Bytes<'_> {
    ghost remaining = { λ _. None };

    ghost failures = { λ s. count s.failed };

    fn pull(&mut self, buf: &mut [u8]) -> Result<usize, Failed> {
        if self.reads == 0 {
            self.failed.add_one();
            return Err(Failed);
        }
        self.reads -= 1;
        let size = self.rest.len().min(self.step).min(buf.len());
        buf[..size].copy_from_slice(&self.rest[..size]);
        self.rest = &self.rest[size..];
        Ok(size)
    }
}

// A writer into memory.
#[derive(Drop)]
struct Page {
    bytes: Vec<u8>,
    taken: usize,
    writes: usize,
    flushes: usize,
    failed: Failures,
}

impl Page {
    fn new(bytes: Vec<u8>, reach: Reach) -> Page {
        Page {
            bytes,
            taken: reach.taken,
            writes: reach.writes,
            flushes: reach.flushes,
            failed: Failures::new(),
        }
    }
}

impl Sink for Page {
    ghost contents = { λ _. None };

    ghost failures = { λ s. count s.failed };

    fn push(&mut self, bytes: &[u8]) -> Result<usize, Failed> {
        if self.writes == 0 {
            self.failed.add_one();
            return Err(Failed);
        }
        let size = bytes.len().min(self.taken.max(1));
        let Ok(()) = self.bytes.extend_from_slice(&bytes[..size]) else {
            self.failed.add_one();
            return Err(Failed);
        };
        self.writes -= 1;
        Ok(size)
    }

    fn flush(&mut self) -> Result<(), Failed> {
        if self.flushes == 0 {
            self.failed.add_one();
            return Err(Failed);
        }
        self.flushes -= 1;
        Ok(())
    }
}

// What came of a run.
#[derive(Drop)]
struct Ran {
    told: Result<Counts, RunFault>,
    output: Vec<u8>,
    /// How many entries the history has.
    entries: usize,
    /// How many reads were left.
    reads: usize,
    /// How many flushes were left.
    flushes: usize,
}

// Runs the input through a hub, with its output behind these bytes.
fn run_through(
    rt: &(impl Threads + AllocGlobal),
    hub: &mut Hub,
    input: &[u8],
    bytes: Vec<u8>,
    reach: Reach,
) -> Ran {
    let mut from = Bytes::new(input, reach);
    let mut to = Page::new(bytes, reach);
    let told = run(rt, rt.alloc(), &mut from, &mut to, hub);
    Ran {
        told,
        output: to.bytes,
        entries: hub.len(),
        reads: from.reads,
        flushes: to.flushes,
    }
}

// What comes of a run through a new hub.
fn first_run(rt: &(impl Threads + AllocGlobal), input: &[u8], reach: Reach) -> Result<Ran, Fail> {
    let mut hub = new_hub(rt.alloc())?;
    Ok(run_through(rt, &mut hub, input, Vec::new(rt.alloc()), reach))
}

// Whether all of the script was answered by this. The writer is flushed before each read and at the end.
fn is_whole(ran: &Ran, output: &[u8]) -> bool {
    ran.told == Ok(COUNTS)
        && ran.output.as_slice() == output
        && ran.entries == 13
        && ran.reads == ran.flushes.saturating_add(1)
}

// Whether the run failed so, and wrote just this.
fn is_failed(ran: &Ran, fault: RunFault, output: &[u8]) -> bool {
    ran.told == Err(fault) && ran.output.as_slice() == output
}

// How many lines are replies to calls.
fn count_replies(output: &[u8]) -> usize {
    let faults = output
        .split(|byte| *byte == b'\n')
        .filter(|line| line.starts_with(b"{\"fault\""))
        .count();
    count_lines(output).saturating_sub(faults)
}

// Whether a front of the output was written, where of the calls in the history only the last may lack its whole line.
fn is_front(ran: &Ran, output: &[u8]) -> bool {
    let replies = count_replies(&ran.output);
    output.starts_with(&ran.output)
        && replies <= ran.entries
        && ran.entries <= replies.saturating_add(1)
}

// The answers to the whole lines among the first bytes of the input, so many of them.
fn answers_to_first(script: &Script, size: usize) -> &[u8] {
    let input = script.input.as_slice();
    let front = input.get(..size).unwrap_or(input);
    first_lines(&script.wanted, count_answered(front))
}

// Whether the script is answered where a reader and a writer go by so many bytes.
fn goes_by(
    rt: &(impl Threads + AllocGlobal),
    script: &Script,
    step: usize,
    taken: usize,
) -> Result<bool, Fail> {
    let ran = first_run(rt, &script.input, Reach { step, taken, ..FAR })?;
    Ok(is_whole(&ran, &script.wanted))
}

// How many bytes a read gives, and how many a write takes.
static STEPS: [(usize, usize); 9] = [
    (1, 1),
    (1, 3),
    (1, MANY),
    (7, 1),
    (7, 3),
    (7, MANY),
    (MANY, 1),
    (MANY, 3),
    (MANY, MANY),
];

#[test]
fn few_bytes_at_once(rt: HostRuntime) -> Result<(), Fail> {
    let script = Script::of(rt.alloc(), EXAMPLE)?;
    for (step, taken) in &STEPS {
        if !goes_by(&rt, &script, *step, *taken)? {
            return Err(Fail::new(*step));
        }
    }
    Ok(())
}

// Whether the lines that were read before a read fails are answered, and no more.
fn fails_to_read(
    rt: &(impl Threads + AllocGlobal),
    script: &Script,
    reads: usize,
) -> Result<bool, Fail> {
    let reach = Reach {
        step: 1,
        reads,
        ..FAR
    };
    let ran = first_run(rt, &script.input, reach)?;
    Ok(is_failed(&ran, RunFault::Read, answers_to_first(script, reads)))
}

#[test]
fn each_read_fails(rt: HostRuntime) -> Result<(), Fail> {
    let script = Script::of(rt.alloc(), EXAMPLE)?;
    for reads in 0..=script.input.len() {
        if !fails_to_read(&rt, &script, reads)? {
            return Err(Fail::new(reads));
        }
    }
    Ok(())
}

// Whether the bytes that were taken before a write fails are the first ones of the output.
fn fails_to_write(
    rt: &(impl Threads + AllocGlobal),
    script: &Script,
    writes: usize,
) -> Result<bool, Fail> {
    let reach = Reach {
        taken: 1,
        writes,
        ..FAR
    };
    let ran = first_run(rt, &script.input, reach)?;
    let output = script.wanted.as_slice();
    let front = output.get(..writes).unwrap_or(output);
    Ok(is_failed(&ran, RunFault::Write, front) && is_front(&ran, output))
}

#[test]
fn each_write_fails(rt: HostRuntime) -> Result<(), Fail> {
    let script = Script::of(rt.alloc(), EXAMPLE)?;
    for writes in 0..script.wanted.len() {
        if !fails_to_write(&rt, &script, writes)? {
            return Err(Fail::new(writes));
        }
    }
    Ok(())
}

// Many lines are read at once, so the next are parsed while some are answered.
#[test]
fn a_write_fails_among_many_lines(rt: HostRuntime) -> Result<(), Fail> {
    let script = delays(rt.alloc())?;
    let reach = Reach {
        step: MANY,
        taken: MANY,
        writes: 12_345,
        ..FAR
    };
    let ran = first_run(&rt, &script.input, reach)?;
    assert!(rt; is_failed(&ran, RunFault::Write, first_lines(&script.wanted, 12_345)));
    assert!(rt; ran.entries == 12_346);
    Ok(())
}

// Whether a flush that fails comes behind as many reads, and behind the answers to the lines that they gave.
fn fails_to_flush(
    rt: &(impl Threads + AllocGlobal),
    script: &Script,
    flushes: usize,
) -> Result<bool, Fail> {
    let ran = first_run(rt, &script.input, Reach { flushes, ..FAR })?;
    let answers = answers_to_first(script, flushes.saturating_mul(FAR.step));
    let is_behind_reads = ran.reads.saturating_add(flushes) == MANY;
    Ok(is_failed(&ran, RunFault::Write, answers) && is_behind_reads)
}

// There is a flush before each read, one of which finds the end, and one behind them.
#[test]
fn each_flush_fails(rt: HostRuntime) -> Result<(), Fail> {
    let script = Script::of(rt.alloc(), EXAMPLE)?;
    for flushes in 0..=script.input.len().div_ceil(FAR.step).saturating_add(1) {
        if !fails_to_flush(&rt, &script, flushes)? {
            return Err(Fail::new(flushes));
        }
    }
    Ok(())
}

// The bytes that a run holds its input in.
const HELD: usize = 2_162_688;

// What comes of a run where so many bytes are left, beside those that hold its input.
fn ran_within(
    rt: &(impl Threads + AllocGlobal),
    memory_limit: &mut MemoryLimit,
    script: &Script,
    left: usize,
) -> Result<Ran, Fail> {
    let mut hub = new_hub(rt.alloc())?;
    let held: Vec<u8> = Vec::with_capacity(rt.alloc(), HELD)?;
    let page = Vec::with_capacity(rt.alloc(), script.wanted.len())?;
    memory_limit.limit_to(left)?;
    drop(held);
    let ran = run_through(rt, &mut hub, &script.input, page, FAR);
    memory_limit.release();
    Ok(ran)
}

// Whether so many bytes are enough. Fails unless the script is answered, or memory was refused behind a front of the output.
fn is_enough(
    rt: &(impl Threads + AllocGlobal),
    memory_limit: &mut MemoryLimit,
    script: &Script,
    left: usize,
) -> Result<bool, Fail> {
    let ran = ran_within(rt, memory_limit, script, left)?;
    if is_whole(&ran, &script.wanted) {
        return Ok(true);
    }
    if ran.told == Err(RunFault::Memory) && is_front(&ran, &script.wanted) {
        Ok(false)
    } else {
        Err(Fail::new("another end"))
    }
}

// How many budgets aren't enough, each of 64 bytes more than the one before.
fn count_budgets(rt: &(impl Threads + AllocGlobal), script: &Script) -> Result<usize, Fail> {
    let mut memory_limit = MemoryLimit::new(rt.alloc())?;
    for step in 0..20_000usize {
        if is_enough(rt, &mut memory_limit, script, step * 64)? {
            return Ok(step);
        }
    }
    Err(Fail::new("always refused"))
}

#[test]
fn each_growth_of_a_run_is_refused_in_turn(rt: HostRuntime) -> Result<(), Fail> {
    let script = Script::of(rt.alloc(), EXAMPLE)?;
    assert!(rt; count_budgets(&rt, &script)? > 300);
    Ok(())
}
