//! The journal.
ghost use Rattle.std.specs.Prelude.{◌≡◌, ◌⊎◌, ◌≤◌, ◌++◌, true, false, length, take, IfOk, IfErr, OnOk, OnErr};
ghost use Rattle.log_file.specs.Crashes.{content_of, IsSynced, LeavesOnly};
ghost use Rattle.log_file.specs.Files.{past_of, after_append, after_cut, after_sync, after_failure};
ghost use Rattle.journal.specs.Lines.{recovered_lines, text_lines, AreWhole, HasWholeBatches, StandsFor};
ghost use Rattle.journal.specs.Journals.{lines_of, journal_past, has_failed, bytes_read, past_read, IsReading, IsAtEnd, IsWholeOnDisk};

use crate::batch::Batch;
use crate::reader::JournalReader;
use log_file::{Failed, LogFile, RawFile};

/// Lines in a file, in batches. Opened by [`Journal::open`] of what was read by a `JournalReader`.
#[derive(Drop)]
pub struct Journal<F> {
    file: LogFile<F>,
    has_failed: bool,
}

impl<F: RawFile> Journal<F> {
    /// Opens the journal of a file that was read to its end. A torn end is cut off, and the file synced. `Err` hands the file back,
    /// where the cut or its sync failed. Takes no memory.
    pub fn open(reader: JournalReader<F>) -> Result<Journal<F>, LogFile<F>>
        requires reading { IsReading reader }
        requires at_end { IsAtEnd reader }
        ensures same { IfOk result (λ j. lines_of j ≡ recovered_lines (bytes_read reader)) }
        ensures on_disk { IfOk result (λ j. IsWholeOnDisk (journal_past j) (has_failed j)) }
        ensures sound { IfOk result (λ j. has_failed j ≡ false) }
        // A crash at any moment of the call leaves a file that stands for the same lines.
        ensures any_moment { IfOk result (λ j. LeavesOnly (past_read reader) (journal_past j)
            (λ c. StandsFor c (recovered_lines (bytes_read reader)))) }
        ensures any_moment_err { IfErr result (λ f. LeavesOnly (past_read reader) (past_of f)
            (λ c. StandsFor c (recovered_lines (bytes_read reader)))) }
    {
        let JournalReader {
            file,
            rest,
            whole,
            ..
        } = reader;
        let mut file = file.into_file();
        match repair(&mut file, whole, whole + rest.len()) {
            Ok(()) => Ok(Journal {
                file,
                has_failed: false,
            }),
            Err(Failed) => Err(file),
        }
    }

    /// The file of a journal that is given up.
    pub fn into_file(self) -> LogFile<F>
        ensures { past_of result ≡ journal_past self }
    {
        let Journal { file, .. } = self;
        file
    }

    /// Whether a call of the file failed.
    pub fn has_failed(&self) -> bool
        ensures { result ≡ has_failed self.now }
    {
        self.has_failed
    }

    /// Appends the lines of a batch, and syncs once. At Ok they are on the disk. An `Err` tells that a call of the file failed, now
    /// or before: the journal takes no batch any more, and has to be opened again. Then all of the batch is there, or none of it.
    /// Takes no memory.
    pub fn commit(&mut self, batch: Batch) -> Result<(), Failed>
        requires { IsWholeOnDisk (journal_past self.old) (has_failed self.old) }
        ensures on_disk { IsWholeOnDisk (journal_past self.new) (has_failed self.new) }
        ensures durable { OnOk result (lines_of self.new ≡ lines_of self.old ++ batch) }
        ensures sound { OnOk result (has_failed self.new ≡ false) }
        // A crash at any moment of the call leaves the lines from before, with all of the batch or none.
        ensures any_moment { has_failed self.old ≡ false
            → LeavesOnly (journal_past self.old) (journal_past self.new)
            (λ c. StandsFor c (lines_of self.old) ⊎ StandsFor c (lines_of self.old ++ batch)) }
        ensures ready { OnOk result (has_failed self.old ≡ false) }
        ensures failed { OnErr result (has_failed self.new ≡ true) }
        ensures refused { has_failed self.old ≡ true → OnErr result (self.new ≡ self.old) }
    {
        if self.has_failed {
            return Err(Failed);
        }
        if batch.is_empty() {
            return Ok(());
        }
        let text = batch.into_text();
        match append_and_sync(&mut self.file, &text) {
            Ok(()) => Ok(()),
            Err(Failed) => {
                self.has_failed = true;
                Err(Failed)
            }
        }
    }
}

// Appends a text, and syncs.
fn append_and_sync<F: RawFile>(file: &mut LogFile<F>, text: &Vec<u8>) -> Result<(), Failed>
    requires { IsSynced (past_of file.old) }
    ensures ok { OnOk result (past_of file.new
        ≡ after_sync (after_append (past_of file.old) text.now)) }
    ensures err { OnErr result (past_of file.new
        ≡ after_failure (after_append (past_of file.old) text.now)) }
{
    match file.append(text) {
        // Only then is the batch acknowledged.
        Ok(()) => file.sync(),
        Err(Failed) => Err(Failed),
    }
}

// Cuts the torn end off, where there is one.
fn repair<F: RawFile>(file: &mut LogFile<F>, whole: usize, len: usize) -> Result<(), Failed>
    requires synced { IsSynced (past_of file.old) }
    requires found { HasWholeBatches (content_of (past_of file.old))
        (recovered_lines (content_of (past_of file.old))) whole true }
    requires len { len ≡ length (content_of (past_of file.old)) }
    ensures synced { OnOk result (IsSynced (past_of file.new)) }
    ensures whole { OnOk result (AreWhole (content_of (past_of file.new))
        (recovered_lines (content_of (past_of file.old)))) }
    ensures any_moment { LeavesOnly (past_of file.old) (past_of file.new)
        (λ c. StandsFor c (recovered_lines (content_of (past_of file.old)))) }
{
    if whole == len {
        return Ok(());
    }
    match cut_and_sync(file, whole) {
        Ok(()) => Ok(()),
        Err(Failed) => Err(Failed),
    }
}

// Cuts, and syncs.
fn cut_and_sync<F: RawFile>(file: &mut LogFile<F>, len: usize) -> Result<(), Failed>
    requires synced { IsSynced (past_of file.old) }
    requires within { len ≤ length (content_of (past_of file.old)) }
    ensures ok { OnOk result (past_of file.new ≡ after_sync (after_cut (past_of file.old) len)) }
    ensures err { OnErr result (past_of file.new
        ≡ after_failure (after_cut (past_of file.old) len)) }
{
    match file.cut(len) {
        // Before that, what was cut off may come back behind the next batch.
        Ok(()) => file.sync(),
        Err(Failed) => Err(Failed),
    }
}
