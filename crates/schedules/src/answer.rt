//! The answers that a session took.

use hub_core::HubFault;
use session_lines::Done;
use taf_codes::Memory;
use taf_messages::{Reply, copy_reply};

/// An answer that a session took as its own.
#[derive(Drop)]
pub(crate) struct Answer {
    /// The position of the call and the reply. None where the hub was refused memory.
    reply: Option<(u64, Reply)>,
    /// Whether memory was scarce when the session took it.
    pub(crate) is_scarce: bool,
}

impl Answer {
    /// A copy of what is answered.
    pub(crate) fn of(done: &Done) -> Result<Answer, Memory> {
        let reply = match &done.answer {
            Ok((position, reply)) => Some((*position, copy_reply(reply)?)),
            Err(_) => None,
        };
        Ok(Answer {
            reply,
            is_scarce: false,
        })
    }

    /// The reply. None where the hub was refused memory.
    pub(crate) fn reply(&self) -> Option<&Reply> {
        match &self.reply {
            Some((_, reply)) => Some(reply),
            None => None,
        }
    }

    /// The same, as the answer to a job.
    pub(crate) fn done(&self, session: u32, index: u64) -> Result<Done, Memory> {
        let answer = match &self.reply {
            Some((position, reply)) => Ok((*position, copy_reply(reply)?)),
            None => Err(HubFault::Memory),
        };
        Ok(Done {
            session,
            index,
            answer,
        })
    }
}
