//! Why a file was not opened.
use thiserror::Error;

/// Why a file was not opened.
#[derive(Clone, Copy, Debug, PartialEq, Eq, Error)]
pub enum OpenFault {
    /// It could not be opened, made, locked or synced.
    #[error("the file could not be opened")]
    File,
    /// It is open already, here or in another process.
    #[error("another process has the file")]
    Busy,
    /// It is a folder, a device or another thing that is no regular file.
    #[error("it is no regular file")]
    NotRegular,
}
