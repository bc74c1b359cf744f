//! Messages that are sent again: each gets the first reply again.

use crate::fault::ScheduleFault;
use crate::scheduled_session::{Came, ScheduledSession};
use std::alloc::Global;
use taf_codes::Memory;
use taf_messages::{Reply, copy_reply};

/// The replies to messages, by their lines.
#[derive(Drop)]
pub(crate) struct FirstReplies {
    replies: Vec<(&'static str, Reply)>,
}

// Whether it is the reply to a message: a question may get another one later.
fn is_of_message(reply: &Reply) -> bool {
    match reply {
        Reply::Accepted { .. } => true,
        Reply::Refused(refusal) => refusal.get().no.is_some(),
        _ => false,
    }
}

impl FirstReplies {
    pub(crate) fn new(alloc: Global) -> FirstReplies {
        FirstReplies {
            replies: Vec::new(alloc),
        }
    }

    // The reply that the line got before.
    fn find(&self, line: &str) -> Option<&Reply> {
        for (known, reply) in &self.replies {
            if *known == line {
                return Some(reply);
            }
        }
        None
    }

    // Whether the line got no other reply before. It is noted where it is the first.
    fn is_same(&mut self, line: &'static str, reply: &Reply) -> Result<bool, Memory> {
        if let Some(first) = self.find(line) {
            return Ok(first == reply);
        }
        self.replies.push((line, copy_reply(reply)?))?;
        Ok(true)
    }

    /// Fails where a message of a session got another reply than in the sessions that were checked before.
    pub(crate) fn check(&mut self, scheduled: &ScheduledSession) -> Result<(), ScheduleFault> {
        let mut answers = scheduled.answers.iter();
        for reading in &scheduled.readings {
            if !matches!(reading.came, Came::Job(_)) {
                continue;
            }
            let Some(answer) = answers.next() else {
                break;
            };
            let Some(reply) = answer.reply() else {
                continue;
            };
            if is_of_message(reply) && !self.is_same(reading.line, reply)? {
                return Err(ScheduleFault::Reply(scheduled.id));
            }
        }
        Ok(())
    }
}
