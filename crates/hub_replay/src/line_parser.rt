//! Lines parsed, with the memory of earlier lists.
ghost use Rattle.std.specs.Prelude.{◌<◌, IfOk};
ghost use Rattle.hub_replay.specs.Batches.{IsBatch, IsScanned};

use crate::batch::{Batch, parse_batch};
use call_lines::ParsedLine;
use std::alloc::Global;
use std::collections::VecDeque;
use std::mem::replace;
use taf_codes::Memory;

/// Parses lines, and keeps the lists of what earlier ones said for their memory. What these hold counts for nothing.
#[derive(Drop)]
pub(crate) struct LineParser<'a, T> {
    pub(crate) rt: &'a T,
    alloc: Global,
    first: VecDeque<ParsedLine>,
    second: VecDeque<ParsedLine>,
}

impl<'a, T> LineParser<'a, T> {
    /// Lists without memory.
    pub(crate) fn new(rt: &'a T, alloc: Global) -> LineParser<'a, T> {
        LineParser {
            rt,
            alloc,
            first: VecDeque::new(alloc),
            second: VecDeque::new(alloc),
        }
    }

    /// The list that was put last, or one without memory.
    pub(crate) fn take(&mut self) -> VecDeque<ParsedLine> {
        let second = replace(&mut self.second, VecDeque::new(self.alloc));
        replace(&mut self.first, second)
    }

    /// Keeps a list, which is the next one that is taken.
    pub(crate) fn put(&mut self, list: VecDeque<ParsedLine>) {
        let first = replace(&mut self.first, list);
        self.second = first;
    }

    /// What the lines say that begin among the first so many bytes. No newline comes before `scanned`.
    pub(crate) fn parse(
        &mut self,
        bytes: &[u8],
        scanned: usize,
        most: usize,
    ) -> Result<Batch, Memory>
        requires some { 0 < most }
        requires scanned { IsScanned bytes.now scanned }
        ensures { IfOk result (λ batch. IsBatch bytes.now batch) }
    {
        let mut list = self.take();
        parse_batch(self.alloc, &mut list, bytes, scanned, most)
    }
}
