//! Each growth of a session refused in turn.

use crate::script_runner::{HELLO, ID, begin_anew};
use hub_core::Hub;
use inbox::Job;
use memory_limit::MemoryLimit;
use reply_writer::{Buffer, append_reply};
use session_lines::{Done, Line, Session, Step};
use std::alloc::Global;
use std::mem::replace;
use std::test::Fail;
use test_scripts::{add_line, replies_of};

// A hello, and lines that are calls or faults.
static LINES: &str = r#"{"kind":"hello","from":"R100"}
{"kind":"plan","from":"R100","no":1,"consignment":"C-1","load":"loaded","commit":"2025-03-01T15:30Z","wagons":["218124712173"],"legs":[{"ru":"R101","origin":"DE00001","target":"AT00002","minutes":300},{"ru":"R102","origin":"AT00002","target":"IT00003","minutes":240}]}
{"from":"R100","kind":"ask","wagon":"218124712173"}

{"at":"2025-03-01T05:30Z","from":"R100","kind":"release","no":2,"wagon":"218124712173"}
[]
{"at":"2025-03-01T06:00Z","from":"R101","kind":"depart","no":1,"wagon":"218124712173"}
{"kind":"ask","from":"r100"}
{"from":"R100","kind":"fetch","limit":10}"#;

// How many of the lines are calls of the session's railway: a plan, an ask, a release and a fetch.
const JOBS: usize = 4;

static ASK: &str = r#"{"kind":"ask","from":"R100","wagon":"318066552148"}"#;

// A call that is not read without memory.
static OFFER: &str =
    r#"{"at":"2025-03-01T10:50Z","from":"R100","kind":"offer","no":4,"place":"AT00002","to":"R102","train":"T-77","wagons":["218124712173"]}"#;

static NO_MEMORY: &[u8] = b"{\"fault\":\"no_memory\"}";

// So many bytes as no step needs.
const AMPLE: usize = 1 << 20;

// A session, the hub that takes its jobs, and how much memory is left for each of its steps.
#[derive(Drop)]
struct Scarce {
    alloc: Global,
    session: Box<Session>,
    hub: Box<Hub>,
    memory_limit: MemoryLimit,
    left: usize,
    /// What it said to lines.
    said: Vec<u8>,
    /// How many lines were refused memory.
    lines: usize,
    /// How many answers were refused it.
    answers: usize,
}

// What a session said to lines, and the replies in its tally.
#[derive(Drop, PartialEq)]
struct Told {
    said: Vec<u8>,
    tally: Vec<u8>,
}

// Whether the step says that memory was refused.
fn is_refused(step: &Step) -> bool {
    match step {
        Step::Say(line) => line.bytes() == NO_MEMORY,
        _ => false,
    }
}

// The line of an answer.
fn line_of(alloc: Global, done: &Done) -> Result<Vec<u8>, Fail> {
    let mut line = Buffer::new(Vec::new(alloc));
    match &done.answer {
        Ok((_, reply)) => append_reply(alloc, &mut line, reply)?,
        Err(_) => return Err(Fail::new("a fault of the hub")),
    }
    Ok(line.into_vec())
}

impl Scarce {
    fn new(alloc: Global) -> Result<Scarce, Fail> {
        let session = Box::new(alloc, Session::new(alloc, ID))?;
        let hub = Box::new(alloc, Hub::new(alloc)?)?;
        let memory_limit = MemoryLimit::new(alloc)?;
        Ok(Scarce {
            alloc,
            session,
            hub,
            memory_limit,
            left: 0,
            said: Vec::new(alloc),
            lines: 0,
            answers: 0,
        })
    }

    // The step at a line, where so many bytes are left.
    fn step(&mut self, line: &str, left: usize) -> Result<Step, Fail> {
        if self.session.busy() || self.session.job_count() > 1000 {
            return Err(Fail::new("busy"));
        }
        self.memory_limit.limit_to(left)?;
        let step = self.session.on_line(line.as_bytes());
        self.memory_limit.release();
        Ok(step)
    }

    // The step at a line, which is given again where memory is refused. Fails unless the refusal gave out no job.
    fn step_again(&mut self, line: &str) -> Result<Step, Fail> {
        let job_count = self.session.job_count();
        let step = self.step(line, self.left)?;
        if !is_refused(&step) {
            return Ok(step);
        }
        if self.session.job_count() != job_count || !self.session.is_idle() {
            return Err(Fail::new("half done"));
        }
        self.lines = self.lines.saturating_add(1);
        self.step(line, AMPLE)
    }

    // What the session says to an answer.
    fn take_done(&mut self, done: Done) -> Result<Line, Fail> {
        if !self.session.has_job_in_front() {
            return Err(Fail::new("no job"));
        }
        self.memory_limit.limit_to(self.left)?;
        let line = self.session.on_done(done);
        self.memory_limit.release();
        Ok(line)
    }

    // The hub answers a job, and the session says the answer or that memory is refused.
    fn answer(&mut self, job: Job) -> Result<(), Fail> {
        let done = Done {
            session: job.session,
            index: job.index,
            answer: self.hub.apply(job.call),
        };
        let wanted = line_of(self.alloc, &done)?;
        let line = self.take_done(done)?;
        if line.bytes() == wanted.as_slice() {
            return Ok(());
        }
        if line.bytes() != NO_MEMORY {
            return Err(Fail::new("another line"));
        }
        self.answers = self.answers.saturating_add(1);
        Ok(())
    }

    // A line and, where it gives a job out, the answer to that.
    fn read_line(&mut self, line: &str) -> Result<(), Fail> {
        match self.step_again(line)? {
            Step::Ask(job) => self.answer(job),
            Step::Say(line) => Ok(add_line(&mut self.said, line.bytes())?),
            _ => Ok(()),
        }
    }

    // Reads the lines.
    fn read_lines(&mut self) -> Result<(), Fail> {
        for line in LINES.lines() {
            self.read_line(line)?;
        }
        Ok(())
    }

    // What comes of the lines, where so many bytes are left for each step.
    fn run(&mut self, left: usize) -> Result<Told, Fail> {
        self.left = left;
        self.lines = 0;
        self.answers = 0;
        self.read_lines()?;
        let session = begin_anew(self.alloc, &mut *self.session, &mut *self.hub)?;
        let tally = replies_of(self.alloc, &session.on_end())?;
        let said = replace(&mut self.said, Vec::new(self.alloc));
        Ok(Told { said, tally })
    }

    // Has a job given out. Fails where it isn't.
    fn give_out(&mut self, line: &str) -> Result<Job, Fail> {
        match self.step(line, AMPLE)? {
            Step::Ask(job) => Ok(job),
            _ => Err(Fail::new("no job")),
        }
    }

    // Whether a line that is refused memory is held.
    fn is_held(&mut self, line: &str) -> Result<bool, Fail> {
        Ok(matches!(self.step(line, 0)?, Step::Held))
    }

    // Whether the held line in front says that memory was refused.
    fn says_refusal(&mut self) -> bool {
        match self.session.next_held() {
            Some(line) => line.bytes() == NO_MEMORY,
            None => false,
        }
    }

    // Whether a call that is refused memory behind a job is held as no_memory, said behind the job's answer, and a job
    // where it is made again.
    fn holds_refusal(&mut self) -> Result<bool, Fail> {
        self.left = AMPLE;
        self.read_line(HELLO)?;
        let job = self.give_out(ASK)?;
        let is_held = self.is_held(OFFER)?;
        self.answer(job)?;
        let is_said = self.says_refusal();
        let again = self.give_out(OFFER)?;
        Ok(is_held && is_said && again.index == 1)
    }
}

// How many budgets aren't enough for the steps, each of sixteen bytes more than the one before. Fails unless the session
// says the same to lines and is told the same with each.
fn count_budgets(scarce: &mut Scarce, ample: &Told) -> Result<usize, Fail> {
    for step in 0..100_000usize {
        if scarce.run(step * 16)? != *ample {
            return Err(Fail::new("another end"));
        }
        if scarce.lines == 0 && scarce.answers == 0 {
            return Ok(step);
        }
    }
    Err(Fail::new("always refused"))
}

// The same, beside what comes of the lines with ample memory. Fails where that is refused, or an answer isn't with none.
fn refused_budgets(scarce: &mut Scarce) -> Result<usize, Fail> {
    let ample = scarce.run(AMPLE)?;
    if (scarce.lines, scarce.answers) != (0, 0) {
        return Err(Fail::new("refused"));
    }
    let none = scarce.run(0)?;
    if none != ample || scarce.answers != JOBS {
        return Err(Fail::new("not refused"));
    }
    count_budgets(scarce, &ample)
}

#[test]
fn each_growth_is_refused_in_turn(rt: HostRuntime) -> Result<(), Fail> {
    let mut scarce = Scarce::new(rt.alloc())?;
    assert!(rt; refused_budgets(&mut scarce)? > 20);
    Ok(())
}

#[test]
fn a_refusal_is_held_behind_a_job(rt: HostRuntime) -> Result<(), Fail> {
    let mut scarce = Scarce::new(rt.alloc())?;
    assert!(rt; scarce.holds_refusal()?);
    Ok(())
}
