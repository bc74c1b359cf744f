use thiserror::Error;

/// Why a session ended before its reader did.
#[derive(Clone, Copy, Debug, PartialEq, Eq, Error)]
pub enum SessionFault {
    #[error("the reader failed")]
    Read,
    #[error("the writer failed")]
    Write,
    /// 2^40 bytes were read, and no end.
    #[error("no end after 2^40 bytes")]
    NoEnd,
    #[error("the port failed")]
    Port,
    /// Before anything was read.
    #[error("memory was refused")]
    Memory,
}
