//! A connection handler of a schedule.

use crate::counts::Counts;
use crate::draws::Draws;
use crate::fault::ScheduleFault;
use crate::first_replies::FirstReplies;
use crate::lines::SessionLines;
use crate::lock_step::lock_step;
use crate::scheduled_session::ScheduledSession;
use hub_shared::Tally;
use std::alloc::Global;
use std::mem;
use taf_codes::Memory;

// How many sessions a handler serves at most.
const MOST_SESSIONS: usize = 4;

/// A handler, which serves one session after another with one tally.
#[derive(Drop)]
pub(crate) struct ScheduledHandler {
    pub(crate) session: ScheduledSession,
    /// The sessions that it served before, without their tallies.
    ended: Vec<ScheduledSession>,
    /// How many sessions it serves after this one.
    left: usize,
}

impl ScheduledHandler {
    /// Draws a handler's first session, and how many follow.
    pub(crate) fn draw(
        alloc: Global,
        id: u32,
        draws: &mut Draws,
    ) -> Result<ScheduledHandler, Memory> {
        let lines = SessionLines::draw(alloc, draws)?;
        Ok(ScheduledHandler {
            session: ScheduledSession::new(alloc, id, lines, Tally::new(alloc))?,
            ended: Vec::new(alloc),
            left: draws.below(MOST_SESSIONS),
        })
    }

    /// Whether it takes another connection now.
    pub(crate) fn is_free(&self) -> bool {
        self.left > 0 && self.session.is_over()
    }

    /// Whether it serves no more.
    pub(crate) fn has_ended(&self) -> bool {
        self.session.has_ended() && !self.is_free()
    }

    /// Goes on with a session of these lines, with the tally of those before.
    pub(crate) fn go_on(&mut self, alloc: Global, lines: SessionLines) -> Result<(), Memory> {
        let tally = self.session.take_tally(alloc)?;
        let next = ScheduledSession::new(alloc, self.session.id, lines, tally)?;
        self.ended.push(mem::replace(&mut self.session, next))?;
        self.left = self.left.saturating_sub(1);
        Ok(())
    }

    /// Whether each answer of the hub to its sessions was told.
    pub(crate) fn is_told(&self) -> bool {
        let is_told = self.session.is_told();
        self.ended
            .iter()
            .fold(is_told, |is_told, session| is_told && session.is_told())
    }

    /// Gives its tally. Fails unless each of its sessions, by itself, said what it says in lock step, the tally is what they were
    /// told, one after another, and each message got its first reply again.
    pub(crate) fn check(
        self,
        alloc: Global,
        counts: &mut Counts,
        replies: &mut FirstReplies,
    ) -> Result<Tally, ScheduleFault> {
        let ScheduledHandler { session, ended, .. } = self;
        let mut last = session;
        let mut sessions = ended;
        let tally = last.take_tally(alloc)?;
        let fault = ScheduleFault::Tally(last.id);
        sessions.push(last).map_err(Memory::from)?;
        let mut rest = tally.entries();
        for scheduled in &sessions {
            let beside = lock_step(alloc, scheduled)?;
            counts.add_session(scheduled, beside.refusals);
            replies.check(scheduled)?;
            let own = beside.tally.entries();
            if own.len() != scheduled.taken || rest.get(..own.len()) != Some(own) {
                return Err(fault);
            }
            rest = rest.get(own.len()..).unwrap_or(&[]);
        }
        if rest.is_empty() {
            Ok(tally)
        } else {
            Err(fault)
        }
    }
}
