//! Why threads did not run.
ghost use Rattle.std.specs.Prelude.{◌≡◌};
ghost use Rattle.hub_threads.specs.declared.fault.ThreadFault.TheVariants as faults;

use taf_codes::Memory;
use thiserror::Error;

/// Why the threads of sessions and workers did not run.
#[derive(Clone, Copy, Debug, PartialEq, Eq, Error)]
pub enum ThreadFault {
    #[error("a thread could not be started")]
    Thread,
    #[error("memory was refused")]
    Memory,
}

impl From<Memory> for ThreadFault {
    ghost from_gives = { λ _ fault. fault ≡ faults.Memory };

    fn from(_: Memory) -> ThreadFault {
        ThreadFault::Memory
    }
}
