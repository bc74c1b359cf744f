//! The file.
ghost use Rattle.std.specs.Prelude.{◌≡◌, ◌≤◌, length, OnOk, OnErr};
ghost use Rattle.log_file.specs.Crashes.{content_of, IsSynced, IsUsable};
ghost use Rattle.log_file.specs.Files.{past_of, after_open, after_append, after_cut, after_sync, after_failure};

use crate::content::Content;
use crate::past::Past;
use crate::raw::{Failed, RawFile};
use std::snapshot::Snapshot;

/// A file to which is appended.
#[derive(Drop)]
pub struct LogFile<F> {
    raw: F,
    past: Past,
}

impl<F: RawFile> LogFile<F> {
    // A file that was opened and synced, and has what was read of it.
    pub(crate) fn new(raw: F, content: &Content) -> LogFile<F>
        ensures { past_of result ≡ after_open content.now }
    {
        LogFile {
            raw,
            past: Past::Opened(Snapshot::of(content)),
        }
    }

    /// Appends these bytes. Until a sync, a crash may leave a front of them, of which any byte may read as zero.
    /// `Err` where the call failed: some of the bytes may be there.
    pub fn append(&mut self, bytes: &Vec<u8>) -> Result<(), Failed>
        requires { IsSynced (past_of self.old) }
        ensures ok { OnOk result (past_of self.new ≡ after_append (past_of self.old) bytes.now) }
        ensures err { OnErr result (past_of self.new
            ≡ after_failure (after_append (past_of self.old) bytes.now)) }
    {
        let done = self.raw.append(bytes.as_slice());
        note_appended(&mut self.past, bytes);
        note_failed(&mut self.past, done)
    }

    /// Drops what is behind `len` bytes. Until a sync, a crash may leave any length from this one up to the old one.
    /// `Err` where the call failed: the file may have either length.
    pub fn cut(&mut self, len: usize) -> Result<(), Failed>
        requires synced { IsSynced (past_of self.old) }
        requires within { len ≤ length (content_of (past_of self.old)) }
        ensures ok { OnOk result (past_of self.new ≡ after_cut (past_of self.old) len) }
        ensures err { OnErr result (past_of self.new
            ≡ after_failure (after_cut (past_of self.old) len)) }
    {
        let done = self.raw.cut(len);
        note_cut(&mut self.past, len);
        note_failed(&mut self.past, done)
    }

    /// Syncs the file: at Ok, a crash leaves what a read returns. `Err` where the call failed: it leaves what it could before.
    /// After an `Err` of any call no further one may be made.
    pub fn sync(&mut self) -> Result<(), Failed>
        requires { IsUsable (past_of self.old) }
        ensures ok { OnOk result (past_of self.new ≡ after_sync (past_of self.old)) }
        ensures err { OnErr result (past_of self.new ≡ after_failure (past_of self.old)) }
    {
        match self.raw.sync() {
            Ok(()) => {
                let before = Snapshot::of(&self.past);
                self.past = Past::Synced(before);
                Ok(())
            }
            Err(Failed) => note_failed(&mut self.past, Err(Failed)),
        }
    }
}

// Notes that these bytes were appended.
fn note_appended(past: &mut Past, bytes: &Vec<u8>)
    ensures { past.new ≡ after_append past.old bytes.now }
{
    let before = Snapshot::of(past);
    *past = Past::Appended(before, Snapshot::of(bytes));
}

// Notes that the file was cut to this length.
fn note_cut(past: &mut Past, len: usize)
    ensures { past.new ≡ after_cut past.old len }
{
    let before = Snapshot::of(past);
    *past = Past::Cut(before, Snapshot::of(&len));
}

// Notes that a call failed, where it did.
fn note_failed(past: &mut Past, done: Result<(), Failed>) -> Result<(), Failed>
    ensures same { result ≡ done }
    ensures ok { OnOk result (past.new ≡ past.old) }
    ensures err { OnErr result (past.new ≡ after_failure past.old) }
{
    if done.is_err() {
        let before = Snapshot::of(past);
        *past = Past::Broken(before);
    }
    done
}
