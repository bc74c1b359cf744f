//! How much was tried.

use crate::scheduled_session::ScheduledSession;
use std::fmt::{self, Display, Formatter, Write};

/// How much of each came in schedules.
#[derive(Clone, Copy, Debug, Default, PartialEq, Eq)]
pub struct Counts {
    /// Connection handlers, each of which served one session or more.
    pub handlers: u64,
    pub sessions: u64,
    /// Lines that were read.
    pub lines: u64,
    /// Calls that were answered.
    pub calls: u64,
    /// How often a job found no place in its lane.
    pub full_lanes: u64,
    /// How often memory was refused, to a session or to the hub.
    pub refusals: u64,
    /// Answers of strangers.
    pub strangers: u64,
    /// Sessions that took no answer any more.
    pub broken: u64,
    /// Sessions whose connection broke: they read no more, and their jobs were answered.
    pub broken_off: u64,
    /// Sessions of railways that came back after their connection broke, and sent again what they had no answer to.
    pub returned: u64,
}

impl Counts {
    /// Counts a session, its lines, and those of them that said that memory was refused.
    pub(crate) fn add_session(&mut self, scheduled: &ScheduledSession, refusals: usize) {
        self.sessions = self.sessions.saturating_add(1);
        self.lines = self.lines.saturating_add(scheduled.readings.len() as u64);
        self.refusals = self.refusals.saturating_add(refusals as u64);
    }

    /// Adds those of another schedule.
    pub(crate) fn add(&mut self, other: Counts) {
        self.handlers = self.handlers.saturating_add(other.handlers);
        self.sessions = self.sessions.saturating_add(other.sessions);
        self.lines = self.lines.saturating_add(other.lines);
        self.calls = self.calls.saturating_add(other.calls);
        self.full_lanes = self.full_lanes.saturating_add(other.full_lanes);
        self.refusals = self.refusals.saturating_add(other.refusals);
        self.strangers = self.strangers.saturating_add(other.strangers);
        self.broken = self.broken.saturating_add(other.broken);
        self.broken_off = self.broken_off.saturating_add(other.broken_off);
        self.returned = self.returned.saturating_add(other.returned);
    }
}

impl Display for Counts {
    fn fmt<W: Write>(&self, f: &mut Formatter<W>) -> fmt::Result {
        let Counts {
            handlers,
            sessions,
            lines,
            calls,
            full_lanes,
            refusals,
            strangers,
            broken,
            broken_off,
            returned,
        } = self;
        write!(
            f,
            "{handlers} handlers, {sessions} sessions, {lines} lines, {calls} calls; "
        )?;
        write!(
            f,
            "{full_lanes} full lanes, {refusals} refusals of memory, "
        )?;
        write!(
            f,
            "{strangers} strangers, {broken} that took no answer any more, "
        )?;
        write!(f, "{broken_off} broken off, {returned} that came back")
    }
}
