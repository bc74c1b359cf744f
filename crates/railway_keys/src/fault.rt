//! Why a keys file is not taken.
ghost use Rattle.std.specs.Prelude.{◌≡◌};
ghost use Rattle.railway_keys.specs.declared.fault.KeyFileFault.TheVariants as faults;

use taf_codes::Memory;
use thiserror::Error;

/// What is wrong with a line of a keys file. None of it says what stands there: it might be a key.
#[derive(Clone, Copy, Debug, PartialEq, Eq, Error)]
pub enum KeyLineFault {
    /// It has no blank.
    #[error("it is no railway and digest with a blank between them")]
    NoForm,
    /// What stands before the first blank is no code of a railway.
    #[error("it begins with no code of a railway")]
    NoRailway,
    /// What stands behind the first blank is not just 64 hexadecimal digits.
    #[error("it ends in no digest of 64 hexadecimal digits")]
    NoDigest,
    /// A line before is of the same railway.
    #[error("its railway has a line before")]
    Twice,
    /// The lines before are of as many railways as a file may have.
    #[error("it is one railway more than 1000")]
    TooMany,
}

/// Why a keys file is not taken.
#[derive(Clone, Copy, Debug, PartialEq, Eq, Error)]
pub enum KeyFileFault {
    /// A line of it, counted from 1, and what is wrong with it.
    #[error("line {0} of the keys: {1}")]
    Line(usize, KeyLineFault),
    /// Memory was refused.
    #[error("memory was refused")]
    Memory,
}

impl From<Memory> for KeyFileFault {
    ghost from_gives = { λ _ fault. fault ≡ faults.Memory };

    fn from(_refused: Memory) -> KeyFileFault {
        KeyFileFault::Memory
    }
}
