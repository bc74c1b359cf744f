//! A run over all the bytes of a reader.
ghost use Rattle.std.specs.Prelude.{◌≡◌, ℕ, ◌+◌, ◌*◌, ◌-◌, ◌<◌, ◌≤◌, ◌^◌, ◌++◌, [], List, length, take, slice_range, OnOk, OnErr, IfOk, IfErr};
ghost use Rattle.std.specs.List.{count_by};
ghost use Rattle.std.specs.Io.KnownBytes.{Appends, Consumes, IsAtEnd};
ghost use Rattle.hub_replay.specs.Lines.{parsed_lines};
ghost use Rattle.hub_replay.specs.Outcomes.{Answers, IsStopped, is_answered, start_of};
ghost use Rattle.hub_replay.specs.Running.{ExplainsFault};

use crate::answer_line::flush;
use crate::chunks::{Chunk, answer_chunk, finish};
use crate::counts::Counts;
use crate::fault::RunFault;
use crate::line_parser::LineParser;
use crate::output::Output;
use hub_core::Hub;
use std::alloc::Global;
use std::thread::Threads;
use taf_codes::{Sink, Source};

// How many bytes are asked for at once.
const CHUNK: usize = 2_097_152;

// The longest beginning of a line that is kept, and a chunk.
const BUFFER: usize = 2_162_688;

/// How many bytes of a reader are read at most.
pub const MAX_BYTES: u64 = 1 << 40;

/// Gives the calls of the reader's lines to the hub, and writes a line for each line that is not blank.
///
/// A line ends with a newline; a last one without newline counts if it has a byte. It is answered by the hub's reply
/// to its call, by `line_too_long` if it has more than 65,536 bytes, else by its fault if it is no call, or by
/// `hub_full` where the history has 1,000,000 entries. No call enters the history by a fault line.
///
/// Where many lines were read at once, a thread of its own parses the next ones while some are answered; the reader,
/// the writer and the hub are called by this thread alone. Each reply is pushed before the next call is given to
/// the hub. The writer is flushed before each pull and at the end; a flush that fails is [`RunFault::Write`]. The
/// reader is read for at most 2^40 bytes, and where they have no end, [`RunFault::NoEnd`] is the answer. After a
/// fault the hub has the entries of the calls so far, and of these only the last may lack its whole line.
pub fn run<R: Source, W: Sink>(
    rt: &impl Threads,
    alloc: Global,
    reader: &mut R,
    writer: &mut W,
    hub: &mut Hub,
) -> Result<Counts, RunFault>
    // All bytes were read, and just the answers to their lines were written.
    ensures ok { IfOk result (λ counts. (read written : List ℕ)
        × Consumes (R.remaining reader.old) (R.remaining reader.new) read
        × IsAtEnd (R.remaining reader.new)
        × Appends (W.contents writer.old) (W.contents writer.new) written
        × Answers hub.old read hub.new written counts) }
    // Lines that aren't blank were counted, each as a call that is in the history now or as a fault.
    ensures lines { IfOk result (λ counts. (read : List ℕ)
        × Consumes (R.remaining reader.old) (R.remaining reader.new) read
        × (counts.lines ≡ count_by is_answered (parsed_lines read))) }
    ensures calls { IfOk result (λ counts. length hub.new ≡ length hub.old + counts.calls) }
    ensures faults { IfOk result (λ counts. counts.lines ≡ counts.calls + counts.faults) }

    // No read, write or flush failed.
    ensures kept { OnOk result ((R.failures reader.new ≡ R.failures reader.old)
        × (W.failures writer.new ≡ W.failures writer.old)) }

    // Some bytes were read, and the answers to their lines were written up to some place.
    ensures err { IfErr result (λ fault. (read written : List ℕ)
        × Consumes (R.remaining reader.old) (R.remaining reader.new) read
        × Appends (W.contents writer.old) (W.contents writer.new) written
        × IsStopped (start_of hub.old) (parsed_lines read) written hub.new
        × ExplainsFault fault (R.failures reader.old) (R.failures reader.new)
        (W.failures writer.old) (W.failures writer.new) (length read)) }
{
    let mut output = Output::new(alloc);
    let mut line_parser = LineParser::new(rt, alloc);
    let Ok(mut buffer) = vec![in alloc; 0u8; BUFFER] else {
        return Err(RunFault::Memory);
    };
    let buffer = buffer.as_mut_slice();
    let mut kept_len: usize = 0;
    let mut skipping = false;
    let mut total: u64 = 0;
    'chunks: while total < MAX_BYTES {
        if let Err(fault) = flush(writer, &mut output) {
            return Err(fault);
        }
        let count = match read_chunk(reader, buffer, kept_len, MAX_BYTES - total) {
            Ok(count) => count,
            Err(fault) => return Err(fault),
        };
        if count == 0 {
            let counts = match finish(writer, hub, &mut output, &buffer[..kept_len]) {
                Ok(counts) => counts,
                Err(fault) => return Err(fault),
            };
            return Ok(counts);
        }
        total += count as u64;
        let end = kept_len + count;
        let chunk = Chunk {
            chunk: &buffer[..end],
            scanned: kept_len,
            skipping,
        };
        let rest = match answer_chunk(&mut line_parser, writer, hub, &mut output, chunk) {
            Ok(rest) => rest,
            Err(fault) => return Err(fault),
        };
        move_to_front(buffer, rest.start, end);
        kept_len = end - rest.start;
        skipping = rest.skipping;
    }
    Err(RunFault::NoEnd)
}

/// Reads some bytes behind the first ones, no more than 2,097,152 and no more than so many. None is the end.
pub fn read_chunk<R: Source>(
    reader: &mut R,
    buffer: &mut [u8],
    kept_len: usize,
    most: u64,
) -> Result<usize, RunFault>
    requires space { kept_len + 2097152 ≤ length buffer.old }
    requires some { 0 < most }
    ensures bounds { IfOk result (λ n. (n ≤ 2097152) × (n ≤ most)) }
    ensures bytes { IfOk result (λ n. Consumes (R.remaining reader.old) (R.remaining reader.new)
        (slice_range buffer.new kept_len (kept_len + n))) }
    ensures end { IfOk result (λ n. n ≡ 0 → IsAtEnd (R.remaining reader.new)) }
    ensures kept { take kept_len buffer.new ≡ take kept_len buffer.old }
    ensures nothing { OnErr result (Consumes (R.remaining reader.old) (R.remaining reader.new) []) }
    ensures fault { IfErr result (λ f. (f ≡ RunFault.Read)
        × (R.failures reader.new ≡ R.failures reader.old + 1)) }
    ensures same { OnOk result (R.failures reader.new ≡ R.failures reader.old) }
{
    let size = most.min(CHUNK as u64) as usize;
    match reader.pull(&mut buffer[kept_len..kept_len + size]) {
        Ok(count) => Ok(count),
        Err(_) => Err(RunFault::Read),
    }
}

/// Moves what is left to the front.
pub fn move_to_front(buffer: &mut [u8], start: usize, end: usize)
    requires { (start ≤ end) × (end ≤ length buffer.old) }
    ensures { take (end - start) buffer.new ≡ slice_range buffer.old start end }
{
    if start > 0 {
        buffer.copy_within(start..end, 0);
    }
}
