//! Why a line is not taken.
use thiserror::Error;

/// Why a line is not taken.
#[derive(Clone, Copy, Debug, PartialEq, Eq, Error)]
pub enum LineFault {
    /// Memory was refused.
    #[error("memory was refused")]
    Memory,
    /// It is not just the text of a call with a sum in front.
    #[error("it is not the line of a call")]
    NoCall,
    /// It is the line of a call, and its sum is not the one that the text and the line before give.
    #[error("its sum is another one")]
    OtherSum,
}
