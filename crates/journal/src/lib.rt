//! A journal: lines in a file, in batches, each batch on the disk before it is acknowledged.
//!
//! A batch is lines that are not empty, each ended by a newline, and then an empty line. A line has no byte 0 and no newline.
//! A batch counts once it is whole. What a crash left of one behind the last whole batch is the torn end. What bytes stand for is
//! defined in `specs/Lines.antt`.
//!
//! | part | what it has |
//! |---|---|
//! | `batch` | the lines that are to be on the disk together |
//! | `found` | where the whole batches of a file's bytes end |
//! | `lines` | the lines of a text, one after another |
//! | `reader` | the file while it is read, whole batches at a time |
//! | `journal` | opening a journal, and committing batches |
//!
//! Promised of [`Journal::commit`]: at Ok the file stands for the lines from before and then those of the batch, and all of it is
//! on the disk; a crash at any moment of the call leaves a file that stands for the lines from before, with all of the batch or
//! none; after an Err no batch is taken. Of [`JournalReader::next_batches`]: the texts that it gives have, one after another, the lines
//! that the file stands for, which [`next_line`] gives; the end is told only where a read of the file gave none; and a file that a crash
//! may leave is never refused as damaged. Of [`Journal::open`]: the file stands for these lines, and so does what a crash leaves at any moment of it. What a crash leaves of a
//! file is the model of `log_file`, which is trusted. A line that turned into another one is not found out: a journal has no sums.
//!
//! Memory is taken for the text of a batch, and where a journal is read for what is read at once and the batch that has begun.
//! Bytes are searched by `memchr`.
#![tactic(auto)]

mod batch;
mod found;
mod journal;
mod lines;
mod reader;

pub use batch::{Batch, is_line};
pub use journal::Journal;
pub use lines::{Line, next_line};
pub use log_file::{Failed, LogFile, RawFile};
pub use reader::{JournalFault, JournalReader};
