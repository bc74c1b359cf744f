//! What lines in a row say.
ghost use Rattle.std.specs.Prelude.{◌<◌, IfOk};
ghost use Rattle.hub_replay.specs.Batches.{IsBatch, IsScanned};

use call_lines::{ParsedLine, next_newline, parse_line};
use call_reader::{CallReader, FlatRecord};
use memory_ahead::ask_ahead;
use std::alloc::Global;
use std::collections::VecDeque;
use std::mem::replace;
use taf_codes::Memory;

// After so many lines the allocator is asked ahead for what the next ones take.
const LINES_ASKED_FOR: usize = 8192;

/// What lines in a row say, and where the last of them ends.
#[derive(Drop)]
pub(crate) struct Batch {
    pub(crate) lines: VecDeque<ParsedLine>,
    /// In bytes, with the newline.
    pub(crate) end: usize,
}

/// What the first lines of the bytes say, in this list: those that begin among the first so many bytes. No newline
/// comes before `scanned`.
pub(crate) fn parse_batch(
    alloc: Global,
    list: &mut VecDeque<ParsedLine>,
    bytes: &[u8],
    scanned: usize,
    most: usize,
) -> Result<Batch, Memory>
    requires some { 0 < most }
    requires scanned { IsScanned bytes.now scanned }
    ensures { IfOk result (λ batch. IsBatch bytes.now batch) }
{
    let mut reader = CallReader::new(alloc);
    let mut record = FlatRecord::new(alloc);
    let mut lines = replace(list, VecDeque::new(alloc));
    lines.clear();
    let mut from = 0;
    let mut place = scanned;
    'lines: while from < most {
        let Some(end) = next_newline(bytes, place) else {
            return Ok(Batch { lines, end: from });
        };
        if lines.len() % LINES_ASKED_FOR == 0 {
            ask_ahead(alloc);
        }
        lines.push_back(parse_line(&mut reader, &mut record, &bytes[from..end])?)?;
        from = end + 1;
        place = from;
    }
    Ok(Batch { lines, end: from })
}
