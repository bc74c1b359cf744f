ghost use Rattle.std.specs.Prelude.{◌≡◌};
ghost use Rattle.hub_replay.specs.declared.fault.RunFault.TheVariants as ends;

use std::alloc::{AllocError, AllocFailed};
use taf_codes::Memory;
use thiserror::Error;

/// Why a run ended before its reader did.
#[derive(Clone, Copy, Debug, PartialEq, Eq, Error)]
pub enum RunFault {
    #[error("the reader failed")]
    Read,
    #[error("the writer failed")]
    Write,
    /// 2^40 bytes were read, and no end.
    #[error("no end after 2^40 bytes")]
    NoEnd,
    #[error("memory was refused")]
    Memory,
}

impl From<Memory> for RunFault {
    ghost from_gives = { λ _ fault. fault ≡ ends.Memory };

    fn from(_refused: Memory) -> RunFault {
        RunFault::Memory
    }
}

impl From<AllocError> for RunFault {
    ghost from_gives = { λ _ fault. fault ≡ ends.Memory };

    fn from(_refused: AllocError) -> RunFault {
        RunFault::Memory
    }
}

impl<T: Drop> From<AllocFailed<T>> for RunFault {
    ghost from_gives = { λ _ fault. fault ≡ ends.Memory };

    fn from(_refused: AllocFailed<T>) -> RunFault {
        RunFault::Memory
    }
}
