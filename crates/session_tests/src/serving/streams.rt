//! Readers that give few bytes at once, writers that take few, ports over a hub, and all of them as they fail.

ghost use Rattle.std.specs.Prelude.{◌≡◌, [], None, IfOk};
ghost use Rattle.taf_codes.specs.Counting.{count};

use hub_core::{Hub, HubFault};
use inbox::Job;
use session_lines::Done;
use session_serving::{Port, PortFault};
use std::alloc::Global;
use std::collections::VecDeque;
use taf_codes::{Failed, Failures, Memory, Sink, Source};
use taf_messages::{Call, Reply, copy_call};

/// So many calls of a reader, a writer or a port as no test needs.
pub(crate) const MANY: usize = 1_000_000;

/// Whose answers a port gives.
#[derive(Clone, Copy)]
pub(crate) enum Giving {
    /// Those of its session's jobs.
    Own,
    /// To each job that of the job behind it.
    OfAnotherJob,
    /// To each job that of another session's.
    OfAnotherSession,
}

/// What a reader gives, a writer takes and a port does before it fails.
#[derive(Clone, Copy)]
pub(crate) struct Reach {
    /// How many bytes a read gives at most.
    pub(crate) step: usize,
    /// Whether a read gives no more than one line.
    pub(crate) is_by_line: bool,
    /// How many reads there are before one fails.
    pub(crate) reads: usize,
    /// How many bytes a write takes at most.
    pub(crate) taken: usize,
    /// How many writes there are before one fails.
    pub(crate) writes: usize,
    /// How many flushes there are before one fails.
    pub(crate) flushes: usize,
    /// How many calls of the port there are before one fails.
    pub(crate) calls: usize,
    /// Whose answers the port gives.
    pub(crate) giving: Giving,
    /// Whether the port says how many answers are there.
    pub(crate) is_telling: bool,
}

/// Nothing fails.
pub(crate) const FAR: Reach = Reach {
    step: MANY,
    is_by_line: false,
    reads: MANY,
    taken: MANY,
    writes: MANY,
    flushes: MANY,
    calls: MANY,
    giving: Giving::Own,
    is_telling: true,
};

/// A reader over bytes.
#[derive(Drop)]
pub(crate) struct Bytes<'a> {
    rest: &'a [u8],
    reach: Reach,
    reads: usize,
    failed: Failures,
}

// How many of these bytes are the first line, with its newline: all where there is none.
fn first_line_len(bytes: &[u8]) -> usize {
    match bytes.iter().position(|byte| *byte == b'\n') {
        Some(at) => at.saturating_add(1),
        None => bytes.len(),
    }
}

impl<'a> Bytes<'a> {
    pub(crate) fn new(rest: &'a [u8], reach: Reach) -> Bytes<'a> {
        Bytes {
            rest,
            reach,
            reads: 0,
            failed: Failures::new(),
        }
    }

    /// How many bytes it has not given.
    pub(crate) fn left(&self) -> usize {
        self.rest.len()
    }

    /// How many reads there were, one that found the end among them.
    pub(crate) fn reads(&self) -> usize {
        self.reads
    }

    // How many bytes the next read gives at most.
    fn most(&self) -> usize {
        if self.reach.is_by_line {
            return self.reach.step.min(first_line_len(self.rest));
        }
        self.reach.step
    }
}

impl Source for Bytes<'_> {
    ghost remaining = { λ _. None };

    ghost failures = { λ s. count s.failed };

    fn pull(&mut self, buf: &mut [u8]) -> Result<usize, Failed> {
        if self.reads >= self.reach.reads {
            self.failed.add_one();
            return Err(Failed);
        }
        self.reads += 1;
        let size = self.rest.len().min(self.most()).min(buf.len());
        buf[..size].copy_from_slice(&self.rest[..size]);
        self.rest = &self.rest[size..];
        Ok(size)
    }
}

/// A writer into memory.
#[derive(Drop)]
pub(crate) struct Page {
    pub(crate) bytes: Vec<u8>,
    reach: Reach,
    writes: usize,
    flushes: usize,
    failed: Failures,
}

impl Page {
    /// Behind these bytes.
    pub(crate) fn new(bytes: Vec<u8>, reach: Reach) -> Page {
        Page {
            bytes,
            reach,
            writes: 0,
            flushes: 0,
            failed: Failures::new(),
        }
    }

    /// How many writes there were.
    pub(crate) fn writes(&self) -> usize {
        self.writes
    }
}

impl Sink for Page {
    ghost contents = { λ _. None };

    ghost failures = { λ s. count s.failed };

    fn push(&mut self, bytes: &[u8]) -> Result<usize, Failed> {
        if self.writes >= self.reach.writes {
            self.failed.add_one();
            return Err(Failed);
        }
        let size = bytes.len().min(self.reach.taken.max(1));
        let Ok(()) = self.bytes.extend_from_slice(&bytes[..size]) else {
            self.failed.add_one();
            return Err(Failed);
        };
        self.writes += 1;
        Ok(size)
    }

    fn flush(&mut self) -> Result<(), Failed> {
        if self.flushes >= self.reach.flushes {
            self.failed.add_one();
            return Err(Failed);
        }
        self.flushes += 1;
        Ok(())
    }
}

// The hub of a port, and the answers that it has not given.
#[derive(Drop)]
struct Answers {
    hub: Hub,
    waiting: VecDeque<Done>,
    /// How many answers waited at once at most.
    most: usize,
    reach: Reach,
}

impl Answers {
    // Whether one more call may come.
    fn has_call(&mut self) -> bool {
        if self.reach.calls == 0 {
            return false;
        }
        self.reach.calls -= 1;
        true
    }

    // The hub's answer to a call.
    fn answer_to(&mut self, call: &Call) -> Result<(u64, Reply), HubFault> {
        match copy_call(call) {
            Ok(call) => self.hub.apply(call),
            Err(_) => Err(HubFault::Memory),
        }
    }

    // The session and the job that the answer to a job is of.
    fn name_of(&self, job: &Job) -> (u32, u64) {
        match self.reach.giving {
            Giving::Own => (job.session, job.index),
            Giving::OfAnotherJob => (job.session, job.index.saturating_add(1)),
            Giving::OfAnotherSession => (job.session.saturating_add(1), job.index),
        }
    }

    // The hub answers a job. False where the call fails.
    fn take(&mut self, job: &Job) -> bool {
        if !self.has_call() {
            return false;
        }
        let (session, index) = self.name_of(job);
        let answer = self.answer_to(&job.call);
        let done = Done {
            session,
            index,
            answer,
        };
        let is_taken = self.waiting.push_back(done).is_ok();
        self.most = self.most.max(self.waiting.len());
        is_taken
    }

    // The next answer. None where the call fails.
    fn give(&mut self) -> Option<Done> {
        if !self.has_call() {
            return None;
        }
        self.waiting.pop_front()
    }
}

/// A port over a hub.
#[derive(Drop)]
pub(crate) struct HubPort {
    pub(crate) id: u32,
    pub(crate) sent: Vec<Job>,
    answers: Answers,
    failed: Failures,
}

impl HubPort {
    /// A port of this session, with room for thirty-two jobs, and for as many answers as wait at once. A new hub takes its jobs.
    pub(crate) fn new(alloc: Global, id: u32, reach: Reach) -> Result<HubPort, Memory>
        ensures { IfOk result (λ port. (port.id ≡ id) × (port.sent.items ≡ [])) }
    {
        let waiting = VecDeque::with_capacity(alloc, 16)?;
        let sent = Vec::with_capacity(alloc, 32)?;
        Ok(HubPort {
            id,
            sent,
            answers: Answers {
                hub: Hub::new(alloc)?,
                waiting,
                most: 0,
                reach,
            },
            failed: Failures::new(),
        })
    }

    /// How many answers waited at once at most.
    pub(crate) fn most(&self) -> usize {
        self.answers.most
    }
}

impl Port for HubPort {
    ghost session = { λ p. p.id };

    ghost sent = { λ p. p.sent.items };

    ghost failures = { λ p. count p.failed };

    fn send(&mut self, job: Job) -> Result<(), PortFault> {
        if self.sent.reserve(1).is_err() || !self.answers.take(&job) {
            self.failed.add_one();
            return Err(PortFault);
        }
        self.sent.push_reserved(job);
        Ok(())
    }

    fn next(&mut self) -> Result<Done, PortFault> {
        let Some(done) = self.answers.give() else {
            self.failed.add_one();
            return Err(PortFault);
        };
        Ok(done)
    }

    fn is_ready(&self, count: u64) -> bool {
        self.answers.reach.is_telling && self.answers.waiting.len() as u64 >= count
    }
}
