//! A session of a schedule.
use crate::answer::Answer;
use crate::draws::Draws;
use crate::fault::ScheduleFault;
use crate::lane::Lane;
use crate::lines::SessionLines;
use crate::scarcity::Scarcity;
use hub_shared::Tally;
use inbox::Job;
use session_lines::{Done, Session, Step};
use std::alloc::Global;
use std::collections::VecDeque;
use std::mem;
use taf_codes::Memory;

/// What came of a line that a session read.
#[derive(Clone, Copy, Debug, PartialEq, Eq)]
pub(crate) enum Came {
    /// Nothing is said to it.
    Nothing,
    /// A line was said, or held.
    Line,
    /// A job of this index was given out.
    Job(u64),
}

/// A line that a session read.
#[derive(Clone, Copy)]
pub(crate) struct Reading {
    pub(crate) line: &'static str,
    pub(crate) came: Came,
    /// Whether memory was scarce.
    pub(crate) is_scarce: bool,
}

/// How far a session goes on.
#[derive(Clone, Copy, Debug, PartialEq, Eq)]
pub(crate) enum SessionState {
    /// It reads its lines and takes its answers.
    Open,
    /// Its connection broke: it reads no line, and takes the answers to its jobs that are out.
    BrokenOff,
    /// Its port failed: it takes no answer any more, and reads no line.
    Broken,
    /// A stranger's answer came.
    Failed,
}

/// A session with its lines, its queue of answers, and what came of them. It lies on the heap, since what owns one itself takes
/// the prover long.
#[derive(Drop)]
pub(crate) struct ScheduledSession {
    pub(crate) id: u32,
    pub(crate) session: Box<Session>,
    lines: SessionLines,
    pub(crate) readings: Vec<Reading>,
    pub(crate) state: SessionState,
    /// The job that waits for a place in the lane.
    waiting: Option<Job>,
    /// The answers that it has not taken yet.
    arrived: VecDeque<Done>,
    pub(crate) answers: Vec<Answer>,
    /// How many of its calls the hub answered.
    replied: usize,
    /// How many of these answers it took as its own.
    pub(crate) taken: usize,
    /// The lines that it said, each with a newline.
    pub(crate) said: Vec<u8>,
    /// How many these are.
    said_lines: usize,
}

impl ScheduledSession {
    /// A session of the handler of this number, behind those that were told what the tally has.
    pub(crate) fn new(
        alloc: Global,
        id: u32,
        lines: SessionLines,
        tally: Tally,
    ) -> Result<ScheduledSession, Memory> {
        let session = Box::new(alloc, Session::with_tally(alloc, id, tally))?;
        Ok(ScheduledSession {
            id,
            session,
            lines,
            readings: Vec::new(alloc),
            state: SessionState::Open,
            waiting: None,
            arrived: VecDeque::new(alloc),
            answers: Vec::new(alloc),
            replied: 0,
            taken: 0,
            said: Vec::new(alloc),
            said_lines: 0,
        })
    }

    // Whether each of its jobs has its answer, and none waits.
    fn is_idle(&self) -> bool {
        self.waiting.is_none() && self.session.is_idle()
    }

    /// Whether it has read all its lines and has all answers, so that its handler goes on with another session.
    pub(crate) fn is_over(&self) -> bool {
        match self.state {
            SessionState::Open => self.readings.len() == self.lines.count() && self.is_idle(),
            SessionState::BrokenOff => self.is_idle(),
            SessionState::Broken | SessionState::Failed => false,
        }
    }

    // Whether it takes no answer any more. Its handler serves no other session then, to which answers might still come.
    fn is_last(&self) -> bool {
        matches!(self.state, SessionState::Broken | SessionState::Failed)
    }

    /// Whether it does nothing any more.
    pub(crate) fn has_ended(&self) -> bool {
        self.is_over() || (self.is_last() && self.waiting.is_none())
    }

    /// Whether it took each answer of the hub.
    pub(crate) fn is_told(&self) -> bool {
        self.taken == self.replied
    }

    // Notes a line that it says.
    fn say(&mut self, line: &[u8]) -> Result<(), Memory> {
        self.said.extend_from_slice(line)?;
        self.said.push(b'\n')?;
        self.said_lines = self.said_lines.saturating_add(1);
        Ok(())
    }

    // Notes what came of a line.
    fn note(&mut self, reading: Reading, step: Step) -> Result<(), Memory> {
        let came = match step {
            Step::Nothing | Step::Ended => Came::Nothing,
            Step::Held => Came::Line,
            Step::Say(line) => {
                self.say(line.bytes())?;
                Came::Line
            }
            Step::Ask(job) => {
                let index = job.index;
                self.waiting = Some(job);
                Came::Job(index)
            }
        };
        self.readings.push(Reading { came, ..reading })?;
        Ok(())
    }

    /// Reads the next line, where it can. Whether it did.
    pub(crate) fn read(
        &mut self,
        draws: &mut Draws,
        scarcity: &mut Scarcity<'_>,
    ) -> Result<bool, Memory> {
        if self.state != SessionState::Open
            || self.session.busy()
            || self.session.job_count() > 1_000
        {
            return Ok(false);
        }
        let Some(line) = self.lines.get(self.readings.len()) else {
            return Ok(false);
        };
        let is_scarce = scarcity.begin(draws);
        let step = self.session.on_line(line.as_bytes());
        scarcity.end();
        let reading = Reading {
            line,
            came: Came::Nothing,
            is_scarce,
        };
        self.note(reading, step)?;
        Ok(true)
    }

    /// Takes its next answer, where it can. Whether it did.
    pub(crate) fn take(
        &mut self,
        draws: &mut Draws,
        scarcity: &mut Scarcity<'_>,
    ) -> Result<bool, Memory> {
        if self.is_last() || !self.session.has_job_in_front() {
            return Ok(false);
        }
        let Some(done) = self.arrived.pop_front() else {
            return Ok(false);
        };
        let mut answer = Answer::of(&done)?;
        self.taken = self.taken.saturating_add(usize::from(done.answer.is_ok()));
        answer.is_scarce = scarcity.begin(draws);
        let line = self.session.on_done(done);
        scarcity.end();
        self.answers.push(answer)?;
        self.say(line.bytes())?;
        Ok(true)
    }

    /// Takes a stranger's answer, where it can: that of a later job, or of another session. Whether it did.
    pub(crate) fn take_stranger(&mut self, is_later: bool) -> Result<bool, Memory> {
        if self.is_last() || !self.session.has_job_in_front() {
            return Ok(false);
        }
        let Some(mut done) = self.arrived.pop_front() else {
            return Ok(false);
        };
        if is_later {
            done.index = done.index.wrapping_add(1);
        } else {
            done.session = done.session.wrapping_add(1);
        }
        let line = self.session.on_done(done);
        self.state = SessionState::Failed;
        self.say(line.bytes())?;
        Ok(true)
    }

    /// Says the line that it holds in front, if there is one. Whether there is.
    pub(crate) fn say_held(&mut self) -> Result<bool, Memory> {
        match self.session.next_held() {
            Some(line) => {
                self.say(line.bytes())?;
                Ok(true)
            }
            None => Ok(false),
        }
    }

    // How many lines it read before the one with the answer at this index.
    fn read_before(&self, answer: usize) -> usize {
        let mut answers: usize = 0;
        let mut before: usize = 0;
        for reading in &self.readings {
            answers = answers.saturating_add(usize::from(reading.came != Came::Nothing));
            if answers > answer {
                break;
            }
            before = before.saturating_add(1);
        }
        before
    }

    /// Its connection breaks: it reads no line any more. Gives what its railway sends again, which misses the last answers, or
    /// None where its connection is not open.
    pub(crate) fn break_off(
        &mut self,
        alloc: Global,
        draws: &mut Draws,
    ) -> Result<Option<SessionLines>, Memory> {
        if self.state != SessionState::Open {
            return Ok(None);
        }
        self.state = SessionState::BrokenOff;
        let heard = draws.below(self.said_lines.saturating_add(1));
        let again = self.lines.again(alloc, self.read_before(heard))?;
        Ok(Some(again))
    }

    /// Its port fails: it reads no line and takes no answer any more. Whether it did.
    pub(crate) fn fail_port(&mut self) -> bool {
        let is_failing = !self.is_last();
        if is_failing {
            self.state = SessionState::Broken;
        }
        is_failing
    }

    /// Gives its tally, for the next session of its handler, and is done.
    pub(crate) fn take_tally(&mut self, alloc: Global) -> Result<Tally, Memory> {
        let none = Box::new(alloc, Session::new(alloc, self.id))?;
        let session = mem::replace(&mut self.session, none);
        Ok(Box::into_inner(session).on_end())
    }

    /// Whether a job of it waits for a place.
    pub(crate) fn is_waiting(&self) -> bool {
        self.waiting.is_some()
    }

    /// Puts the job that waits into the lane. Whether there was a place for it.
    pub(crate) fn put(&mut self, lane: &mut Lane) -> Result<bool, Memory> {
        let Some(job) = self.waiting.take() else {
            return Ok(false);
        };
        self.waiting = lane.put(job)?;
        Ok(self.waiting.is_none())
    }

    /// An answer comes for it.
    pub(crate) fn arrive(&mut self, done: Done) -> Result<(), Memory> {
        if done.answer.is_ok() {
            self.replied = self.replied.saturating_add(1);
        }
        self.arrived.push_back(done)?;
        Ok(())
    }
}
