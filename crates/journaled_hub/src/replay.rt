//! A run over all the bytes of a reader, whose calls are on the disk before their replies are written.
ghost use Rattle.std.specs.Prelude.{◌≡◌, ℕ, ◌+◌, ◌<◌, ◌≤◌, List, [], true, false, length, take, drop, ◌++◌, IfErr, OnOk, OnErr};
ghost use Rattle.std.specs.Io.KnownBytes.{Appends, Consumes, IsAtEnd};
ghost use Rattle.hub_model.specs.declared.entry.Entry.{Entry};
ghost use Rattle.call_lines.specs.Lines.{has_no_newline};
ghost use Rattle.hub_replay.specs.Lines.{parsed_lines, IsTaken};
ghost use Rattle.journaled_hub.specs.Answering.{LeadsTo, IsStoppedOnDisk, MayBeWritten};
ghost use Rattle.journaled_hub.specs.Crashes.{HasGoneOn};
ghost use Rattle.journaled_hub.specs.HistoryLines.{lines_of_history};
ghost use Rattle.journaled_hub.specs.JournaledHubs.{history_of, durable_lines, has_failed, IsOnDisk};
ghost use Rattle.journaled_hub.specs.RunFaults.{IsFaultOfTurn, ExplainsJournaledFault};

use crate::fault::JournaledRunFault;
use crate::journaled::JournaledHub;
use call_lines::LONGEST;
use hub_replay::{MAX_BYTES, RunFault, move_to_front, read_chunk, write_all};
use journal::RawFile;
use memchr::memrchr;
use std::thread::Threads;
use taf_codes::{Failed, Memory, Sink, Source};

// How many bytes of a line are kept whose end was not read yet: so many tell that it is too long.
const KEPT: usize = LONGEST + 1;

// A chunk, and what is kept before it.
const BUFFER: usize = 2_162_689;

/// Gives the calls of the reader's lines to the hub and answers them, as [`hub_replay::run`] does: the calls of the lines that were
/// read at once are put on the disk by one sync, and then the answers to these lines are written, and the writer is flushed.
///
/// The first call that fails ends it, and is told as what it is: [`JournaledRunFault::Journal`] exactly where a call of the journal's
/// file failed, and else the fault of a run without a journal. What was written until then are answers to lines whose calls are all
/// on the disk. After [`JournaledRunFault::Journal`] no answer is written any more, and the journal has to be opened again.
pub fn run_journaled<R: Source, W: Sink, F: RawFile>(
    rt: &impl Threads,
    reader: &mut R,
    writer: &mut W,
    hub: &mut JournaledHub<F>,
) -> Result<(), JournaledRunFault>
    requires { IsOnDisk hub.old }
    // All bytes were read, just the answers to their lines were written, and all calls are on the disk.
    ensures ok { OnOk result ((read written : List ℕ)
        × Consumes (R.remaining reader.old) (R.remaining reader.new) read
        × IsAtEnd (R.remaining reader.new)
        × Appends (W.contents writer.old) (W.contents writer.new) written
        × LeadsTo (history_of hub.old) (parsed_lines read) (history_of hub.new) written) }
    ensures on_disk { OnOk result (IsOnDisk hub.new) }
    // No read, write or flush failed.
    ensures kept { OnOk result ((R.failures reader.new ≡ R.failures reader.old)
        × (W.failures writer.new ≡ W.failures writer.old)) }
    // Some bytes were read, and a front of the answers to lines was written whose calls are on the disk.
    ensures err { IfErr result (λ fault. (read written : List ℕ) × (durable : List Entry)
        × Consumes (R.remaining reader.old) (R.remaining reader.new) read
        × Appends (W.contents writer.old) (W.contents writer.new) written
        × IsStoppedOnDisk (history_of hub.old) (parsed_lines read) written durable
        × (has_failed hub.new ≡ false → durable_lines hub.new ≡ lines_of_history durable)
        × ExplainsJournaledFault fault (has_failed hub.new) (R.failures reader.old)
        (R.failures reader.new) (W.failures writer.old) (W.failures writer.new) (length read)) }
    // A crash at any moment of the call leaves a front of the history that has all that was there before.
    ensures crash { HasGoneOn hub.old hub.new }
{
    let Ok(mut buffer) = vec![in hub.alloc; 0u8; BUFFER] else {
        return Err(JournaledRunFault::Run(RunFault::Memory));
    };
    let buffer = buffer.as_mut_slice();
    let mut kept_len: usize = 0;
    let mut total: u64 = 0;
    'chunks: while total < MAX_BYTES {
        let count = match read_chunk(reader, buffer, kept_len, MAX_BYTES - total) {
            Ok(count) => count,
            Err(fault) => return Err(JournaledRunFault::Run(fault)),
        };
        if count == 0 {
            let line = &buffer[..kept_len];
            match answer_turn(rt, writer, hub, line) {
                Ok(()) => return Ok(()),
                Err(fault) => return Err(fault),
            }
        }
        total += count as u64;
        let end = kept_len + count;
        let chunk = &buffer[..end];
        let whole = whole_len(chunk);
        let lines = &chunk[..whole];
        match answer_turn(rt, writer, hub, lines) {
            Ok(()) => {}
            Err(fault) => return Err(fault),
        }
        move_to_front(buffer, whole, end);
        kept_len = (end - whole).min(KEPT);
    }
    Err(JournaledRunFault::Run(RunFault::NoEnd))
}

// How many of the bytes are whole lines: up to the last newline.
fn whole_len(bytes: &[u8]) -> usize
    ensures within { result ≤ length bytes.now }
    ensures rest { has_no_newline (drop result bytes.now) ≡ true }
    ensures whole { IsTaken bytes.now (parsed_lines (take result bytes.now))
        (drop result bytes.now) }
{
    match memrchr(b'\n', bytes) {
        Some(at) => at + 1,
        None => 0,
    }
}

// Answers lines: has their calls put on the disk, and then writes what there is to write.
fn answer_turn<W: Sink, F: RawFile>(
    rt: &impl Threads,
    writer: &mut W,
    hub: &mut JournaledHub<F>,
    lines: &[u8],
) -> Result<(), JournaledRunFault>
    requires { IsOnDisk hub.old }
    ensures ok { OnOk result ((written : List ℕ)
        × Appends (W.contents writer.old) (W.contents writer.new) written
        × LeadsTo (history_of hub.old) (parsed_lines lines.now) (history_of hub.new) written) }
    ensures on_disk { OnOk result (IsOnDisk hub.new) }
    ensures kept { OnOk result (W.failures writer.new ≡ W.failures writer.old) }
    ensures err { IfErr result (λ fault. (written : List ℕ) × (durable : List Entry)
        × Appends (W.contents writer.old) (W.contents writer.new) written
        × IsStoppedOnDisk (history_of hub.old) (parsed_lines lines.now) written durable
        × (has_failed hub.new ≡ false → durable_lines hub.new ≡ lines_of_history durable)) }
    ensures fault { IfErr result (λ fault. IsFaultOfTurn fault (has_failed hub.new)
        (W.failures writer.old) (W.failures writer.new)) }
    ensures crash { HasGoneOn hub.old hub.new }
{
    let replies = match hub.answer_lines(rt, lines) {
        Ok(replies) => replies,
        Err(Memory) => return Err(JournaledRunFault::Run(RunFault::Memory)),
    };
    let Ok(()) = hub.sync() else {
        return Err(JournaledRunFault::Journal);
    };
    match hub.write_replies(writer, replies.as_slice()) {
        Ok(()) => Ok(()),
        Err(Failed) => Err(JournaledRunFault::Run(RunFault::Write)),
    }
}

impl<F: RawFile> JournaledHub<F> {
    /// Writes replies of the hub, and has the writer send them on: they are answers to lines whose calls are all on the disk. Where it
    /// fails, the writer took a front of them.
    pub fn write_replies<W: Sink>(&self, writer: &mut W, replies: &[u8]) -> Result<(), Failed>
        requires { MayBeWritten self.now replies.now }
        ensures ok { OnOk result (Appends (W.contents writer.old) (W.contents writer.new)
            replies.now) }
        ensures err { OnErr result ((front rest : List ℕ) × (replies.now ≡ front ++ rest)
            × Appends (W.contents writer.old) (W.contents writer.new) front) }
        ensures failed { OnErr result (W.failures writer.new ≡ W.failures writer.old + 1) }
        ensures kept { OnOk result (W.failures writer.new ≡ W.failures writer.old) }
    {
        match write_all(writer, replies) {
            Ok(()) => writer.flush(),
            Err(Failed) => Err(Failed),
        }
    }
}
