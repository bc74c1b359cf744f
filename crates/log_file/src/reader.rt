//! A file that is read.
ghost use Rattle.std.specs.Prelude.{◌≡◌, ◌≤◌, ◌==◌, ◌++◌, [], vec_len, length, IfOk, OnErr};
ghost use Rattle.log_file.specs.Files.{past_of, read_of, content_read, after_open, IsReadToEnd};
ghost use Rattle.log_file.specs.Crashes.{bytes_of, has_ended};

use crate::content::Content;
use crate::file::LogFile;
use crate::raw::{Failed, RawFile};
use std::alloc::{AllocError, Global};
use std::snapshot::Snapshot;

/// Why a piece of a file was not read.
#[derive(Clone, Copy, Debug, PartialEq, Eq)]
pub enum ReadFault {
    /// Memory was refused for it.
    Memory,
    /// The call failed.
    Failed,
}

impl From<AllocError> for ReadFault {
    fn from(_: AllocError) -> ReadFault {
        ReadFault::Memory
    }
}

/// A file that was opened and synced, and is read from its start on. [`FileReader::into_file`] ends the reading.
#[derive(Drop)]
pub struct FileReader<F> {
    raw: F,
    content: Content,
}

impl<F: RawFile> FileReader<F> {
    /// The file, of which nothing was read.
    pub fn new(raw: F) -> FileReader<F>
        ensures { read_of result ≡ [] }
    {
        FileReader {
            raw,
            content: Content::Nothing,
        }
    }

    /// The next piece of the file, of at most so many bytes. It is empty only at the end of the file.
    pub fn read(&mut self, alloc: Global, most: usize) -> Result<Vec<u8>, ReadFault>
        requires some { 1 ≤ most }
        ensures piece { IfOk result (λ piece. read_of self.new ≡ read_of self.old ++ piece.items) }
        ensures len { IfOk result (λ piece. vec_len piece ≤ most) }
        ensures end { IfOk result (λ piece. vec_len piece ≡ 0 → IsReadToEnd self.new) }
        ensures err { OnErr result (content_read self.new ≡ content_read self.old) }
    {
        let mut piece = Vec::from_elem(alloc, 0, most)?;
        let Ok(count) = self.raw.read(piece.as_mut_slice()) else {
            return Err(ReadFault::Failed);
        };
        piece.truncate(count);
        note_read(&mut self.content, &piece);
        Ok(piece)
    }

    /// The file to which is appended: it has what was read of it, since it was read to its end.
    pub fn into_file(self) -> LogFile<F>
        requires { IsReadToEnd self }
        ensures { past_of result ≡ after_open (content_read self) }
    {
        let FileReader { raw, content } = self;
        LogFile::new(raw, &content)
    }
}

// Notes that this piece was read.
fn note_read(content: &mut Content, piece: &Vec<u8>)
    ensures bytes { bytes_of content.new ≡ bytes_of content.old ++ piece.now.items }
    ensures end { has_ended content.new ≡ (vec_len piece.now == 0) }
{
    let before = Snapshot::of(content);
    *content = Content::Piece(before, Snapshot::of(piece));
}
