//! Why a hub is not carried over.
use taf_codes::Memory;
use thiserror::Error;

/// Why a hub is not carried over.
#[derive(Clone, Copy, Debug, PartialEq, Eq, Error)]
pub enum CarryFault {
    /// Memory was refused.
    #[error("memory was refused")]
    Memory,
    /// What stays, with an acknowledgement of each railway, is more than a hub takes.
    #[error("what stays is more than a hub takes")]
    Full,
    /// A call of the new journal's file failed.
    #[error("a call of the journal's file failed")]
    Failed,
    /// The names are not those of closed trips.
    #[error("the trips that would be left behind are not closed")]
    NotClosed,
    /// A railway would not have the same unacknowledged items.
    #[error("a railway would have other items")]
    OtherItems,
}

impl From<Memory> for CarryFault {
    fn from(_refused: Memory) -> CarryFault {
        CarryFault::Memory
    }
}
