//! Why a journal gives no hub.
use hub_replay::RunFault;
use thiserror::Error;

/// Why a journal gives no hub. Lines are counted from 1, without blank ones.
#[derive(Clone, Copy, Debug, PartialEq, Eq, Error)]
pub enum OpenFault {
    /// Memory was refused.
    #[error("memory was refused")]
    Memory,
    /// A call of the file failed.
    #[error("a call of the file failed")]
    Failed,
    /// Behind this index, in bytes, the file has what no crash leaves.
    #[error("the journal is damaged behind byte {0}")]
    Damaged(usize),
    /// This line is not just the text of a call with a sum in front.
    #[error("line {0} of the journal, blank ones not counted, is not the line of a call")]
    NoCall(usize),
    /// This line has another sum than its text and the line before it give.
    #[error("line {0} of the journal, blank ones not counted, has a wrong sum")]
    OtherSum(usize),
    /// The journal has more calls than a hub takes.
    #[error("the journal has more calls than a hub takes")]
    Full,
}

/// Why a run on a hub with a journal ended before its reader did.
#[derive(Clone, Copy, Debug, PartialEq, Eq, Error)]
pub enum JournaledRunFault {
    /// What a run meets without a journal, too.
    #[error("{0}")]
    Run(RunFault),
    /// A call of the journal's file failed.
    #[error("a call of the journal's file failed")]
    Journal,
}
