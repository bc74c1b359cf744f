//! The same lines in lock step: each answer comes directly after its job.

use crate::fault::ScheduleFault;
use crate::scheduled_session::{Came, Reading, ScheduledSession, SessionState};
use hub_shared::Tally;
use session_lines::{Line, Session, Step};
use std::alloc::Global;
use taf_codes::Memory;

const NO_MEMORY: &[u8] = b"{\"fault\":\"no_memory\"}";

const STRANGER: &[u8] = b"{\"fault\":\"stranger\"}";

// A session in lock step beside the one of the schedule.
#[derive(Drop)]
struct LockStepSession<'p> {
    scheduled: &'p ScheduledSession,
    session: Box<Session>,
    /// How many bytes of what was said are compared.
    compared: usize,
    /// How many answers were given again.
    answered: usize,
    /// How many lines said that memory was refused.
    refusals: usize,
}

impl<'p> LockStepSession<'p> {
    // The next line that was said.
    fn next_said(&mut self) -> Option<&'p [u8]> {
        let rest = self.scheduled.said.get(self.compared..)?;
        let size = rest.iter().position(|byte| *byte == b'\n')?;
        self.compared = self.compared.saturating_add(size).saturating_add(1);
        rest.get(..size)
    }

    // Whether this was said next, or that memory was refused where that may be.
    fn is_said(&mut self, line: &Line, is_scarce: bool) -> bool {
        let Some(said) = self.next_said() else {
            return false;
        };
        if said == line.bytes() {
            return true;
        }
        let is_refused = is_scarce && said == NO_MEMORY;
        self.refusals = self.refusals.saturating_add(usize::from(is_refused));
        is_refused
    }

    // What the session in lock step does at a line.
    fn step(&mut self, line: &str) -> Step {
        if self.session.busy() || self.session.job_count() > 1_000 {
            return Step::Ended;
        }
        self.session.on_line(line.as_bytes())
    }

    // Whether a line to which a line was said is said the same. A line that was refused memory is left out.
    fn is_same_line(&mut self, reading: Reading) -> bool {
        let before = self.compared;
        if reading.is_scarce && self.next_said() == Some(NO_MEMORY) {
            self.refusals = self.refusals.saturating_add(1);
            return true;
        }
        self.compared = before;
        match self.step(reading.line) {
            Step::Say(line) => self.is_said(&line, false),
            _ => false,
        }
    }

    // Whether a line that gave a job out does so, and is said the answer. None where the job was not answered.
    fn is_same_job(&mut self, line: &str, index: u64) -> Result<Option<bool>, ScheduleFault> {
        let Step::Ask(job) = self.step(line) else {
            return Ok(Some(false));
        };
        if job.index != index || index != self.answered as u64 {
            return Ok(Some(false));
        }
        let Some(answer) = self.scheduled.answers.get(self.answered) else {
            return Ok(None);
        };
        self.answered = self.answered.saturating_add(1);
        let done = answer.done(job.session, job.index)?;
        if !self.session.has_job_in_front() {
            return Ok(Some(false));
        }
        let line = self.session.on_done(done);
        Ok(Some(self.is_said(&line, answer.is_scarce)))
    }

    // Whether a line means the same. None where it gave out a job that was not answered.
    fn is_same(&mut self, reading: Reading) -> Result<Option<bool>, ScheduleFault> {
        match reading.came {
            Came::Nothing => Ok(Some(matches!(self.step(reading.line), Step::Nothing))),
            Came::Line => Ok(Some(self.is_same_line(reading))),
            Came::Job(index) => self.is_same_job(reading.line, index),
        }
    }

    // Whether all lines mean the same up to the first job that was not answered. Whether there is such a job.
    fn is_cut(&mut self) -> Result<bool, ScheduleFault> {
        for reading in &self.scheduled.readings {
            match self.is_same(*reading)? {
                Some(true) => {}
                Some(false) => return Err(ScheduleFault::Line(self.scheduled.id)),
                None => return Ok(true),
            }
        }
        Ok(false)
    }

    // Fails unless what is left of what was said is the line of a stranger where one came, and else nothing.
    fn check_rest(&mut self, is_cut: bool) -> Result<(), ScheduleFault> {
        let is_right = match self.scheduled.state {
            SessionState::Open | SessionState::BrokenOff => !is_cut && self.next_said().is_none(),
            SessionState::Broken => self.next_said().is_none(),
            SessionState::Failed => is_cut
                && self.next_said() == Some(STRANGER)
                && self.next_said().is_none(),
        };
        if is_right {
            Ok(())
        } else {
            Err(ScheduleFault::Line(self.scheduled.id))
        }
    }
}

/// What came of the same lines in lock step.
#[derive(Drop)]
pub(crate) struct LockStep {
    pub(crate) tally: Tally,
    /// How many lines say that memory was refused.
    pub(crate) refusals: usize,
}

/// Gives the lines of a scheduled session to one in lock step. Fails unless it says the same.
pub(crate) fn lock_step(
    alloc: Global,
    scheduled: &ScheduledSession,
) -> Result<LockStep, ScheduleFault> {
    let mut lock_step_session = LockStepSession {
        scheduled,
        session: Box::new(alloc, Session::new(alloc, scheduled.id)).map_err(Memory::from)?,
        compared: 0,
        answered: 0,
        refusals: 0,
    };
    let is_cut = lock_step_session.is_cut()?;
    lock_step_session.check_rest(is_cut)?;
    let LockStepSession {
        session,
        refusals,
        ..
    } = lock_step_session;
    let tally = Box::into_inner(session).on_end();
    Ok(LockStep { tally, refusals })
}
