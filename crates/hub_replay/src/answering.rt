//! Lines are answered while the next ones are parsed.
ghost use Rattle.std.specs.Prelude.{◌≡◌, ◌+◌, ◌*◌, ◌<◌, ◌≤◌, ◌^◌, length, All, OnOk, OnErr, IfOk, IfErr};
ghost use Rattle.call_lines.specs.Lines.{IsNotMemory};
ghost use Rattle.hub_replay.specs.Running.{AnswersLines, Blames, line_total, run_state};
ghost use Rattle.hub_replay.specs.Batches.{IsBatch};

use crate::answer_line::{answer_line, write_past_threshold};
use crate::batch::{Batch, parse_batch};
use crate::fault::RunFault;
use crate::line_parser::LineParser;
use crate::output::Output;
use call_lines::ParsedLine;
use hub_core::Hub;
use std::collections::VecDeque;
use std::thread::{Threads, join_mut};
use taf_codes::{Memory, Sink};

// From so many bytes on the next lines are parsed in a thread of their own.
const MIN_PARALLEL: usize = 16_384;

// Answers what lines say, one after another.
fn answer_batch<W: Sink>(
    writer: &mut W,
    hub: &mut Hub,
    output: &mut Output,
    lines: &mut VecDeque<ParsedLine>,
) -> Result<(), RunFault>
    requires few { line_total output.old.counts + 2 * length lines.old.items < 2 ^ 62 }
    requires reportable { All IsNotMemory lines.old.items }
    ensures answers { AnswersLines result (run_state (W.contents writer.old) hub.old output.old)
        (run_state (W.contents writer.new) hub.new output.new) lines.old.items }
    ensures blames { Blames result (W.failures writer.old) (W.failures writer.new) }
    ensures counted { OnOk result (line_total output.new.counts
        ≤ line_total output.old.counts + 2 * length lines.old.items) }
{
    while let Some(line) = lines.pop_front() {
        answer_line(writer, hub, output, line)?;
        write_past_threshold(writer, output)?;
    }
    Ok(())
}

/// Answers what lines say, one after another, while another thread parses the next lines: those that begin among the first so many
/// bytes of `next`. Where these are few, they are parsed after it.
pub(crate) fn answer_and_parse_next<W: Sink>(
    line_parser: &mut LineParser<'_, impl Threads>,
    writer: &mut W,
    hub: &mut Hub,
    output: &mut Output,
    lines: &mut VecDeque<ParsedLine>,
    next: &[u8],
    most: usize,
) -> (Result<(), RunFault>, Result<Batch, Memory>)
    requires few { line_total output.old.counts + 2 * length lines.old.items < 2 ^ 62 }
    requires some { 0 < most }
    requires reportable { All IsNotMemory lines.old.items }
    ensures answers { AnswersLines result.0 (run_state (W.contents writer.old) hub.old output.old)
        (run_state (W.contents writer.new) hub.new output.new) lines.old.items }
    ensures blames { Blames result.0 (W.failures writer.old) (W.failures writer.new) }
    ensures counted { OnOk result.0 (line_total output.new.counts
        ≤ line_total output.old.counts + 2 * length lines.old.items) }
    ensures next { IfOk result.1 (λ batch. IsBatch next.now batch) }
{
    if next.len() < MIN_PARALLEL {
        let answered = answer_batch(writer, hub, output, lines);
        return (answered, line_parser.parse(next, 0, most));
    }
    let alloc = output.alloc;
    let mut list = line_parser.take();
    let (ahead, answered) = join_mut(
        line_parser.rt,
        &mut || parse_batch(alloc, &mut list, next, 0, most),
        &mut || answer_batch(writer, hub, output, lines),
    );
    (answered, ahead)
}
