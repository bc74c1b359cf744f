//! A file to which is appended, with a model of what a crash may leave of it.
//!
//! A file is read from its start on, piece by piece ([`FileReader`]), and then appended to ([`LogFile`]). A [`LogFile`] remembers, for
//! contracts alone, what was read of it (`Content`) and each call since (`Past`). From these `specs/Crashes.antt` defines what a read
//! would return, and what a crash at any moment may leave. So whoever appends, cuts and syncs can promise what a crash leaves of
//! his file.
//!
//! | part | what it has |
//! |---|---|
//! | `reader` | the file while it is read |
//! | `content` | what was read of it |
//! | `file` | the file: append, cut, sync |
//! | `past` | what was done with it |
//! | `raw` | what makes the calls: a file of the system, or one of a test |
//! | `specs/Crashes.antt` | the model: what each call may leave when a crash cuts it short |
//!
//! Promised is that each call of a [`LogFile`] is noted as it was asked for, and a failure as a failure, and that a file is appended to
//! only after a read that asked for bytes and got none. Nothing is promised of a [`RawFile`]. That a file does what it is asked for,
//! and that a crash leaves what the model says, is trusted.
#![tactic(auto)]

mod content;
mod file;
mod past;
mod raw;
mod reader;

pub use content::Content;
pub use file::LogFile;
pub use past::Past;
pub use raw::{Failed, RawFile};
pub use reader::{FileReader, ReadFault};
