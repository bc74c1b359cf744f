//! What is found wrong.

use taf_codes::Memory;
use thiserror::Error;

/// What is wrong in a schedule.
#[derive(Clone, Copy, Debug, PartialEq, Eq, Error)]
pub enum ScheduleFault {
    /// Memory was refused where it was not scarce. Nothing is known of the schedule.
    #[error("memory was refused")]
    Memory,
    /// A session of this handler said another line than in lock step.
    #[error("a session of handler {0} says another line than in lock step")]
    Line(u32),
    /// This handler has another tally than its sessions in lock step, one after another.
    #[error("handler {0} has another tally than its sessions in lock step")]
    Tally(u32),
    /// A message in a session of this handler was sent before, and got another reply.
    #[error("a message to handler {0} gets another reply than before")]
    Reply(u32),
    /// Lines or jobs are left, and nothing goes on.
    #[error("nothing goes on")]
    Stuck,
    /// Each answer was told, and the tallies don't settle; or some were not told, and another fault is found than that.
    #[error("the tallies do not settle as they are to")]
    Settling,
}

/// The seed of a schedule in which something is wrong.
#[derive(Clone, Copy, Debug, PartialEq, Eq, Error)]
#[error("seed {seed}: {fault}")]
pub struct SeedFault {
    pub seed: u64,
    pub fault: ScheduleFault,
}

impl From<Memory> for ScheduleFault {
    fn from(_: Memory) -> ScheduleFault {
        ScheduleFault::Memory
    }
}
