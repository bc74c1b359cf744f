//! A journal that is read.
ghost use Rattle.std.specs.Prelude.{◌≡◌, ◌++◌, ◌+◌, ◌<◌, ◌≤◌, [], false, length, take, IfOk, IfErr, IfSome, IfNone, OnOk, OnErr};
ghost use Rattle.log_file.specs.Files.{IsReadToEnd};
ghost use Rattle.journal.specs.Lines.{recovered_lines, text_lines, AreWhole, HasWholeBatches, IsNeverLeft};
ghost use Rattle.journal.specs.Journals.{bytes_read, whole_len, torn_bytes, given_lines, IsReading, IsAtEnd, IsDamage, fault_of_read};

use crate::found::find_batches;
use log_file::{FileReader, RawFile, ReadFault};
use std::alloc::{AllocError, Global};
use std::mem::replace;

// How many bytes are read at once at least.
const FIRST_PIECE: usize = 16_384;

// How many bytes are read at once at most, unless a batch has more.
const LAST_PIECE: usize = 1_048_576;

// How many bytes of a file are read at most.
const MAX_BYTES: usize = 1_099_511_627_776;

/// Why a journal is not read on.
#[derive(Clone, Copy, Debug, PartialEq, Eq)]
pub enum JournalFault {
    /// Memory was refused.
    Memory,
    /// A call of the file failed, or it has more than 2^40 bytes.
    Failed,
    /// The whole batches end at this index, in bytes, and behind it a batch ends and more follows: the journal is damaged.
    Damaged(usize),
}

/// The file of a journal that is read from its start on, whole batches at a time. It has no more in memory than what was read at
/// once, and the batch that has begun.
#[derive(Drop)]
pub struct JournalReader<F> {
    pub(crate) file: FileReader<F>,
    // What was read behind the batches that were given.
    pub(crate) rest: Vec<u8>,
    // How many bytes these batches have.
    pub(crate) whole: usize,
    alloc: Global,
}

impl<F: RawFile> JournalReader<F> {
    /// The file of a journal, opened and synced, of which nothing was read. Takes no memory.
    pub fn new(alloc: Global, raw: F) -> JournalReader<F>
        ensures reading { IsReading result }
        ensures none { given_lines result ≡ [] }
    {
        JournalReader {
            file: FileReader::new(raw),
            rest: Vec::new(alloc),
            whole: 0,
            alloc,
        }
    }

    /// What takes memory.
    pub fn alloc(&self) -> Global {
        self.alloc
    }

    /// How many bytes the batches that were given have.
    pub fn whole_len(&self) -> usize
        ensures { result ≡ whole_len self.now }
    {
        self.whole
    }

    /// How many bytes were read behind the batches that were given: at the end of the file, those of the torn end.
    pub fn torn_len(&self) -> usize
        ensures { result ≡ length (torn_bytes self.now) }
    {
        self.rest.len()
    }

    /// The next whole batches of the file, as one text: those of what was read at once. None at the end of the file, where what is
    /// behind all whole batches may be a torn end.
    ///
    /// `Damaged` where it is none: it is what no crash leaves. `Failed` where a call of the file failed, or the file has more than 2^40
    /// bytes. `Memory` where memory was refused.
    pub fn next_batches(&mut self) -> Result<Option<Vec<u8>>, JournalFault>
        requires { IsReading self.old }
        ensures reading { IsReading self.new }
        ensures lines { IfOk result (λ o. IfSome o (λ text.
            given_lines self.new ≡ given_lines self.old ++ text_lines text.items)) }
        ensures order { whole_len self.old ≤ whole_len self.new }
        ensures longer { IfOk result (λ o. IfSome o (λ text.
            whole_len self.old < whole_len self.new)) }
        ensures last { IfOk result (λ o. IfNone o (given_lines self.new ≡ given_lines self.old)) }
        ensures at_end { IfOk result (λ o. IfNone o (IsAtEnd self.new)) }
        ensures err { OnErr result (given_lines self.new ≡ given_lines self.old) }
        ensures damage { IfErr result (λ f. IsDamage f (bytes_read self.new)) }
    {
        let mut found = find_batches(self.rest.as_slice());
        'pieces: while found.whole == 0 {
            if self.read_more()? == 0 {
                self.check_end(found.torn)?;
                return Ok(None);
            }
            found = find_batches(self.rest.as_slice());
        }
        match self.give(found.whole) {
            Ok(text) => Ok(Some(text)),
            Err(AllocError) => Err(JournalFault::Memory),
        }
    }

    // Reads a piece more, and gives how many bytes it has: none at the end of the file. It is asked for as many bytes as were read
    // already, within limits, and not for fewer than the batch that has begun has, so that no batch is looked through often.
    fn read_more(&mut self) -> Result<usize, JournalFault>
        requires { IsReading self.old }
        ensures reading { IsReading self.new }
        ensures given { given_lines self.new ≡ given_lines self.old }
        ensures whole { whole_len self.new ≡ whole_len self.old }
        ensures len { IfOk result (λ n. length (bytes_read self.new)
            ≡ length (bytes_read self.old) + n) }
        ensures none { IfOk result (λ n. n ≡ 0 → torn_bytes self.new ≡ torn_bytes self.old) }
        ensures end { IfOk result (λ n. n ≡ 0 → IsReadToEnd self.new.file) }
        ensures damage { IfErr result (λ f. IsDamage f (bytes_read self.new)) }
    {
        let len = self.rest.len();
        let read = self.whole + len;
        let size = read.clamp(FIRST_PIECE, LAST_PIECE);
        let most = size.max(len).min(MAX_BYTES - read);
        if most == 0 {
            return Err(JournalFault::Failed);
        }
        let Ok(()) = self.rest.reserve(most) else {
            return Err(JournalFault::Memory);
        };
        let piece = match self.file.read(self.alloc, most) {
            Ok(piece) => piece,
            Err(fault) => return Err(fault_of_read(fault)),
        };
        let Ok(()) = self.rest.extend_from_slice(piece.as_slice()) else {
            unreachable!()
        };
        Ok(piece.len())
    }

    // Refuses what is behind the batches that were given, at the end of the file, unless it may be a torn end.
    fn check_end(&self, torn: bool) -> Result<(), JournalFault>
        requires reading { IsReading self.now }
        requires ended { IsReadToEnd self.now.file }
        requires found { HasWholeBatches (torn_bytes self.now)
            (recovered_lines (torn_bytes self.now)) 0 torn }
        requires damaged { torn ≡ false → IsNeverLeft (torn_bytes self.now) }
        ensures at_end { OnOk result (IsAtEnd self.now) }
        ensures damage { IfErr result (λ f. IsDamage f (bytes_read self.now)) }
    {
        if torn {
            Ok(())
        } else {
            Err(JournalFault::Damaged(self.whole))
        }
    }

    // Gives the whole batches of so many bytes.
    fn give(&mut self, len: usize) -> Result<Vec<u8>, AllocError>
        requires reading { IsReading self.old }
        requires within { len ≤ length (torn_bytes self.old) }
        requires batches { AreWhole (take len (torn_bytes self.old))
            (recovered_lines (torn_bytes self.old)) }
        ensures reading { IsReading self.new }
        ensures lines { IfOk result (λ text.
            given_lines self.new ≡ given_lines self.old ++ text_lines text.items) }
        ensures len { OnOk result (whole_len self.new ≡ whole_len self.old + len) }
        ensures order { whole_len self.old ≤ whole_len self.new }
        ensures err { OnErr result (given_lines self.new ≡ given_lines self.old) }
    {
        let rest = Vec::from_slice(self.alloc, &self.rest.as_slice()[len..])?;
        let mut text = replace(&mut self.rest, rest);
        text.truncate(len);
        self.whole += len;
        Ok(text)
    }
}

// The fault of a journal of whose file a piece was not read.
fn fault_of_read(fault: ReadFault) -> JournalFault
    ensures { result ≡ fault_of_read fault }
{
    match fault {
        ReadFault::Memory => JournalFault::Memory,
        ReadFault::Failed => JournalFault::Failed,
    }
}
