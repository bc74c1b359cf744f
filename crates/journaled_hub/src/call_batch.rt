//! The calls of the next lines of a journal.
ghost use Rattle.std.specs.Prelude.{◌≡◌, [], None};
ghost use Rattle.journal.specs.Lines.{text_lines};
ghost use Rattle.journaled_hub.specs.CallBatches.{IsCallBatch};

use journal::next_line;
use journal_lines::{LineFault, LineReader};
use std::alloc::Global;
use std::collections::VecDeque;
use std::mem::replace;
use taf_messages::Call;

/// The calls of lines in a row.
#[derive(Drop)]
pub(crate) struct CallBatch {
    pub(crate) calls: VecDeque<Call>,
    /// The sum of the last line.
    pub(crate) sum: u64,
    /// Why the line behind them is not taken, if it is not.
    pub(crate) fault: Option<LineFault>,
}

impl CallBatch {
    /// No calls, behind a line of this sum. Takes no memory.
    pub(crate) fn none(alloc: Global, before: u64) -> CallBatch
        ensures calls { result.calls.items ≡ [] }
        ensures sum { result.sum ≡ before }
        ensures fault { result.fault ≡ None }
    {
        batch_of(VecDeque::new(alloc), before, None)
    }
}

/// The calls of the lines of a text, in this list, behind a line of the sum `before`, up to the first line that is not taken.
pub(crate) fn read_calls(
    alloc: Global,
    list: &mut VecDeque<Call>,
    text: &[u8],
    before: u64,
) -> CallBatch
    ensures { IsCallBatch (text_lines text.now) before result }
{
    let mut reader = LineReader::new(alloc);
    let mut calls = replace(list, VecDeque::new(alloc));
    calls.clear();
    let mut from = 0;
    let mut sum = before;
    'lines: while let Some(found) = next_line(text, from) {
        let (call, own) = match reader.read(sum, found.line) {
            Ok(read) => read,
            Err(fault) => return batch_of(calls, sum, Some(fault)),
        };
        let Ok(()) = calls.push_back(call) else {
            return batch_of(calls, sum, Some(LineFault::Memory));
        };
        from = found.next;
        sum = own;
    }
    batch_of(calls, sum, None)
}

fn batch_of(calls: VecDeque<Call>, sum: u64, fault: Option<LineFault>) -> CallBatch
    ensures { result ≡ record { calls = calls; sum = sum; fault = fault } }
{
    CallBatch { calls, sum, fault }
}
