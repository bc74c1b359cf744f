//! A file over memory, and what the tests do with a journal.
ghost use Rattle.std.specs.Prelude.{◌≡◌, None, IfOk};
ghost use Rattle.journal.specs.Journals.{journal_past, has_failed, IsWholeOnDisk, IsReading, IsAtEnd};

use journal::{
    Batch, Failed, Journal, JournalFault, JournalReader, Line, RawFile, is_line, next_line,
};
use std::alloc::Global;
use std::test::Fail;

/// Which calls of a file fail, counted from 1.
#[derive(Clone, Copy)]
pub(crate) enum Failing {
    Never,
    Once(u32),
    From(u32),
}

/// The bytes of a file, and how many calls were made.
#[derive(Drop)]
pub(crate) struct Memory {
    pub(crate) bytes: Vec<u8>,
    pub(crate) calls: u32,
}

impl Memory {
    pub(crate) fn of(alloc: Global, bytes: &[u8]) -> Result<Memory, Fail> {
        let bytes = Vec::from_slice(alloc, bytes)?;
        Ok(Memory { bytes, calls: 0 })
    }
}

/// A file over memory, whose first half is read by itself. An append that fails leaves half of the bytes, another call that fails does
/// nothing.
#[derive(Drop)]
pub(crate) struct MemoryFile<'a> {
    memory: &'a mut Memory,
    failing: Failing,
    // How many bytes were read.
    position: usize,
}

impl<'a> MemoryFile<'a> {
    pub(crate) fn new(memory: &'a mut Memory, failing: Failing) -> MemoryFile<'a> {
        MemoryFile {
            memory,
            failing,
            position: 0,
        }
    }

    // Counts a call, and tells whether it fails.
    fn fails(&mut self) -> bool {
        self.memory.calls = self.memory.calls.saturating_add(1);
        match self.failing {
            Failing::Never => false,
            Failing::Once(call) => self.memory.calls == call,
            Failing::From(call) => self.memory.calls >= call,
        }
    }
}

impl RawFile for MemoryFile<'_> {
    fn read(&mut self, buffer: &mut [u8]) -> Result<usize, Failed> {
        let bytes = self.memory.bytes.as_slice();
        let rest = &bytes[self.position.min(bytes.len())..];
        let next = match self.position {
            0 => rest.len().div_ceil(2),
            _ => rest.len(),
        };
        let count = next.min(buffer.len());
        buffer[..count].copy_from_slice(&rest[..count]);
        self.position = self.position.saturating_add(count);
        Ok(count)
    }

    fn append(&mut self, bytes: &[u8]) -> Result<(), Failed> {
        let fails = self.fails();
        let count = if fails { bytes.len() / 2 } else { bytes.len() };
        let taken = self.memory.bytes.extend_from_slice(&bytes[..count]);
        if fails || taken.is_err() {
            return Err(Failed);
        }
        Ok(())
    }

    fn cut(&mut self, len: usize) -> Result<(), Failed> {
        if self.fails() {
            return Err(Failed);
        }
        self.memory.bytes.truncate(len);
        Ok(())
    }

    fn sync(&mut self) -> Result<(), Failed> {
        if self.fails() {
            return Err(Failed);
        }
        Ok(())
    }
}

/// A journal that was opened, and the text of the batches that its file had.
#[derive(Drop)]
pub(crate) struct OpenedJournal<F> {
    pub(crate) journal: Journal<F>,
    pub(crate) text: Vec<u8>,
}

/// Opens the journal of a file.
pub(crate) fn open_journal<F: RawFile + Drop>(
    alloc: Global,
    file: F,
) -> Result<OpenedJournal<F>, Fail>
    ensures { IfOk result (λ o. IsWholeOnDisk (journal_past o.journal) (has_failed o.journal)) }
{
    let mut reader = JournalReader::new(alloc, file);
    let mut text = Vec::new(alloc);
    match read_batches(&mut reader, &mut text)? {
        None => {}
        Some(_) => return Err(Fail::new("the journal is not read to its end")),
    }
    match Journal::open(reader) {
        Ok(journal) => Ok(OpenedJournal { journal, text }),
        Err(_) => Err(Fail::new("the journal is not opened")),
    }
}

// Appends the batches of a file to a text, up to its end, or to a fault.
fn read_batches<F: RawFile>(
    reader: &mut JournalReader<F>,
    text: &mut Vec<u8>,
) -> Result<Option<JournalFault>, Fail>
    requires { IsReading reader.old }
    ensures { IfOk result (λ fault. fault ≡ None → IsReading reader.new × IsAtEnd reader.new) }
{
    'batches: for _ in 0..1000 {
        match reader.next_batches() {
            Ok(Some(batches)) => text.extend_from_slice(batches.as_slice())?,
            Ok(None) => return Ok(None),
            Err(fault) => return Ok(Some(fault)),
        }
    }
    Err(Fail::new("the journal has no end"))
}

// Why the journal of a file is not opened, if so.
fn fault_of<F: RawFile + Drop>(alloc: Global, file: F) -> Result<Option<JournalFault>, Fail> {
    let mut reader = JournalReader::new(alloc, file);
    match read_batches(&mut reader, &mut Vec::new(alloc))? {
        None => {}
        fault => return Ok(fault),
    }
    match Journal::open(reader) {
        Ok(_) => Ok(None),
        Err(_) => Ok(Some(JournalFault::Failed)),
    }
}

/// Why the journal in this memory is not opened, if so, where these calls of its file fail.
pub(crate) fn fault_in(
    alloc: Global,
    memory: &mut Memory,
    failing: Failing,
) -> Result<Option<JournalFault>, Fail> {
    fault_of(alloc, MemoryFile::new(memory, failing))
}

/// Whether these are the lines of a text, and no others.
pub(crate) fn has_lines(text: &[u8], lines: &[&[u8]]) -> bool {
    let mut rest = text;
    for wanted in lines {
        match next_line(rest, 0) {
            Some(Line { line, next }) if line == *wanted => rest = &rest[next..],
            _ => return false,
        }
    }
    next_line(rest, 0).is_none()
}

/// Commits a batch of one line. Tells whether it was acknowledged.
pub(crate) fn commit_line<F: RawFile>(
    alloc: Global,
    journal: &mut Journal<F>,
    line: &[u8],
) -> Result<bool, Fail>
    requires { IsWholeOnDisk (journal_past journal.old) (has_failed journal.old) }
    ensures { IsWholeOnDisk (journal_past journal.new) (has_failed journal.new) }
{
    if !is_line(line) {
        return Err(Fail::new("this is no line"));
    }
    let mut batch = Batch::new(alloc);
    batch.push(line)?;
    Ok(journal.commit(batch).is_ok())
}
