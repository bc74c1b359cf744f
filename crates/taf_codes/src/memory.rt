//! The one error for want of memory.

use std::alloc::{AllocError, AllocFailed};
use thiserror::Error;

/// Memory was refused. All crates answer this where a call needs memory and gets none.
#[derive(Clone, Copy, Debug, PartialEq, Eq, Error)]
#[error("memory was refused")]
pub struct Memory;

impl From<AllocError> for Memory {
    ghost use Rattle.std.specs.Prelude.{◌≡◌};

    ghost from_gives = { λ _ memory. memory ≡ record {} };

    fn from(_: AllocError) -> Memory {
        Memory
    }
}

impl<T: Drop> From<AllocFailed<T>> for Memory {
    ghost use Rattle.std.specs.Prelude.{◌≡◌};

    ghost from_gives = { λ _ memory. memory ≡ record {} };

    fn from(_: AllocFailed<T>) -> Memory {
        Memory
    }
}
