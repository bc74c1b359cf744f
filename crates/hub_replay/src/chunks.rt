//! The lines of a chunk of the input.
ghost use Rattle.std.specs.Prelude.{◌≡◌, ◌+◌, ◌*◌, ◌-◌, ◌<◌, ◌≤◌, ◌^◌, ◌++◌, [], ℕ, List, true, false, length, drop, slice_range, OnOk, OnErr, IfOk, MatchOption};
ghost use Rattle.call_lines.specs.declared.parsed.ParsedLine.{ParsedLine};
ghost use Rattle.call_lines.specs.Lines.{has_no_newline};
ghost use Rattle.hub_replay.specs.Lines.{IsCut, IsTaken, parsed_lines, after_skipping};
ghost use Rattle.hub_replay.specs.Batches.{IsScanned};
ghost use Rattle.hub_replay.specs.Running.{Advances, AnswersLines, Blames, StopsWithin, line_total, run_state};

use crate::answer_line::{answer_line, flush};
use crate::answering::answer_and_parse_next;
use crate::counts::Counts;
use crate::fault::RunFault;
use crate::line_parser::LineParser;
use crate::output::Output;
use call_lines::{LONGEST, ParsedLine, next_newline, parse_line};
use call_reader::{CallReader, FlatRecord};
use hub_core::Hub;
use std::mem::replace;
use std::thread::Threads;
use taf_codes::Sink;

// How many bytes of lines are parsed before the first is answered.
const FIRST_BATCH: usize = 65_536;

// How many bytes of lines are parsed at once at most.
const MAX_BATCH: usize = 1_048_576;

/// A chunk of the input, and whether the rest of its first line is skipped. No newline comes before `scanned`.
#[derive(Clone, Copy)]
pub(crate) struct Chunk<'a> {
    pub(crate) chunk: &'a [u8],
    pub(crate) scanned: usize,
    pub(crate) skipping: bool,
}

/// The lines of a chunk from a place on. From there to `scanned` no newline comes.
#[derive(Clone, Copy)]
pub(crate) struct ChunkPart<'a> {
    pub(crate) chunk: &'a [u8],
    pub(crate) start: usize,
    pub(crate) scanned: usize,
}

/// What is left of a chunk: where it begins, and whether the rest of its line is skipped.
#[derive(Clone, Copy)]
pub(crate) struct Rest {
    pub(crate) start: usize,
    pub(crate) skipping: bool,
}

/// Where the first line of a chunk begins. None where the chunk is skipped as a whole.
pub(crate) fn first_start(chunk: &[u8], skipping: bool) -> Option<usize>
    ensures { MatchOption result
        ((skipping ≡ true) × (has_no_newline chunk.now ≡ true))
        (λ start. (start ≤ length chunk.now) × (skipping ≡ false → start ≡ 0)
        × ((more : List ℕ) → after_skipping skipping (chunk.now ++ more)
        ≡ drop start chunk.now ++ more)) }
{
    if !skipping {
        return Some(0);
    }
    match next_newline(chunk, 0) {
        None => None,
        Some(end) => Some(end + 1),
    }
}

/// Answers the whole lines of a chunk from a place on, and gives the place after them.
pub(crate) fn answer_lines<W: Sink>(
    line_parser: &mut LineParser<'_, impl Threads>,
    writer: &mut W,
    hub: &mut Hub,
    output: &mut Output,
    part: ChunkPart<'_>,
) -> Result<usize, RunFault>
    requires order { (part.start ≤ part.scanned) × (part.scanned ≤ length part.chunk.now) }
    requires scanned { has_no_newline (slice_range part.chunk.now part.start part.scanned) ≡ true }
    requires few { line_total output.old.counts + 2 * length part.chunk.now < 2 ^ 62 }
    ensures bounds { IfOk result (λ end. (part.entry.start ≤ end)
        × (end ≤ length part.entry.chunk.now)) }
    ensures whole { IfOk result (λ end. has_no_newline (drop end part.entry.chunk.now) ≡ true) }
    ensures ok { IfOk result (λ end. (lines : List ParsedLine)
        × IsTaken (drop part.entry.start part.entry.chunk.now) lines (drop end part.entry.chunk.now)
        × Advances (W.contents writer.old) (W.contents writer.new) hub.old output.old hub.new
        output.new lines) }
    ensures err { OnErr result (StopsWithin (W.contents writer.old) (W.contents writer.new) hub.old
        output.old hub.new (parsed_lines (drop part.entry.start part.entry.chunk.now))) }
    ensures blames { Blames result (W.failures writer.old) (W.failures writer.new) }
    ensures counted { IfOk result (λ end. line_total output.new.counts + 2 * part.entry.start
        ≤ line_total output.old.counts + 2 * end) }
{
    let ChunkPart {
        chunk,
        start,
        scanned,
    } = part;
    let mut size = FIRST_BATCH;
    let mut batch = line_parser.parse(&chunk[start..], scanned - start, size)?;
    let mut from = start;
    'batches: while batch.end > 0 {
        size = longer(size);
        let next = from + batch.end;
        let (answered, ahead) = answer_and_parse_next(
            line_parser,
            writer,
            hub,
            output,
            &mut batch.lines,
            &chunk[next..],
            size,
        );
        answered?;
        line_parser.put(replace(&mut batch, ahead?).lines);
        from = next;
    }
    line_parser.put(batch.lines);
    Ok(from)
}

// Half as many bytes more, up to the most that are parsed at once.
fn longer(size: usize) -> usize
    requires { (0 < size) × (size ≤ 1048576) }
    ensures { (0 < result) × (result ≤ 1048576) }
{
    (size + size / 2).min(MAX_BATCH)
}

/// Answers the lines of a chunk, and tells what is left of it.
pub(crate) fn answer_chunk<W: Sink>(
    line_parser: &mut LineParser<'_, impl Threads>,
    writer: &mut W,
    hub: &mut Hub,
    output: &mut Output,
    input: Chunk<'_>,
) -> Result<Rest, RunFault>
    requires scanned { IsScanned input.chunk.now input.scanned }
    requires bare { input.skipping ≡ true → input.scanned ≡ 0 }
    requires few { line_total output.old.counts + 2 * length input.chunk.now < 2 ^ 62 }
    ensures bounds { IfOk result (λ rest. (rest.start ≤ length input.entry.chunk.now)
        × (length input.entry.chunk.now ≤ rest.start + 65536)) }
    ensures ok { IfOk result (λ rest. (lines : List ParsedLine)
        × IsCut input.entry.chunk.now input.entry.skipping lines rest.skipping
        (drop rest.start input.entry.chunk.now)
        × Advances (W.contents writer.old) (W.contents writer.new) hub.old output.old hub.new
        output.new lines) }
    ensures err { OnErr result (StopsWithin (W.contents writer.old) (W.contents writer.new) hub.old
        output.old hub.new
        (parsed_lines (after_skipping input.entry.skipping input.entry.chunk.now))) }
    ensures blames { Blames result (W.failures writer.old) (W.failures writer.new) }
    ensures counted { IfOk result (λ rest. line_total output.new.counts
        ≤ line_total output.old.counts + 2 * rest.start) }
{
    let Chunk {
        chunk,
        scanned,
        skipping,
    } = input;
    let Some(start) = first_start(chunk, skipping) else {
        return Ok(Rest {
            start: chunk.len(),
            skipping: true,
        });
    };
    let scanned = if skipping { start } else { scanned };
    let part = ChunkPart {
        chunk,
        start,
        scanned,
    };
    let end = answer_lines(line_parser, writer, hub, output, part)?;
    if chunk.len() - end <= LONGEST {
        return Ok(Rest {
            start: end,
            skipping: false,
        });
    }
    answer_line(writer, hub, output, ParsedLine::TooLong)?;
    Ok(Rest {
        start: chunk.len(),
        skipping: true,
    })
}

/// Answers a last line that has no newline, if it has a byte, and writes all that is pending.
pub(crate) fn finish<W: Sink>(
    writer: &mut W,
    hub: &mut Hub,
    output: &mut Output,
    line: &[u8],
) -> Result<Counts, RunFault>
    requires whole { has_no_newline line.now ≡ true }
    requires few { line_total output.old.counts < 2 ^ 62 }
    ensures answers { AnswersLines result (run_state (W.contents writer.old) hub.old output.old)
        (run_state (W.contents writer.new) hub.new output.new) (parsed_lines line.now) }
    ensures counts { IfOk result (λ counts. counts ≡ output.new.counts) }
    ensures empty { OnOk result (output.new.pending.items ≡ []) }
    ensures blames { Blames result (W.failures writer.old) (W.failures writer.new) }
{
    last_line(writer, hub, output, line)?;
    flush(writer, output)?;
    Ok(output.counts)
}

fn last_line<W: Sink>(
    writer: &mut W,
    hub: &mut Hub,
    output: &mut Output,
    line: &[u8],
) -> Result<(), RunFault>
    requires whole { has_no_newline line.now ≡ true }
    requires few { line_total output.old.counts < 2 ^ 62 }
    ensures answers { AnswersLines result (run_state (W.contents writer.old) hub.old output.old)
        (run_state (W.contents writer.new) hub.new output.new) (parsed_lines line.now) }
    ensures blames { Blames result (W.failures writer.old) (W.failures writer.new) }
{
    if line.is_empty() {
        return Ok(());
    }
    let (mut reader, mut record) = (CallReader::new(output.alloc), FlatRecord::new(output.alloc));
    let parsed_line = parse_line(&mut reader, &mut record, line)?;
    answer_line(writer, hub, output, parsed_line)
}
