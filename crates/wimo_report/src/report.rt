//! The lines of a view.
ghost use Rattle.std.specs.Prelude.{◌≡◌, ◌∷◌, flat_map, map, IfOk, string_bytes};
ghost use Rattle.std.specs.List.{AllZip};
ghost use Rattle.hub_model.specs.Histories.{state_of};
ghost use Rattle.hub_model.specs.Replies.{view};
ghost use Rattle.wimo_report.specs.Report.{first_line, line_of, report_of};
ghost use Rattle.wimo_report.specs.Parts.{AreStarts, IsPart};

use crate::line::line;
use hub_core::{Hub, View};
use itoa::Buffer;
use rayon::prelude::*;
use std::alloc::{AllocError, Global};
use std::thread::Threads;
use taf_codes::Memory;
use taf_messages::Record;

// How many wagons of a hub a thread takes at once.
const PART: usize = 256;

/// The report of the view of the hub, as [`lines`] gives it. The records are made by the threads that make their lines, and dropped
/// part by part, so that they do not take memory all at once.
pub fn hub_lines(
    rt: &(impl Threads + Sync),
    alloc: Global,
    hub: &Hub,
) -> Result<Vec<String>, Memory>
    ensures { IfOk result (λ lines. map string_bytes lines.items
        ≡ report_of (view (state_of hub.now))) }
{
    let count = hub.wagon_count();
    let starts = starts_of(alloc, count)?;
    let parts = parallel_parts(rt, alloc, hub, starts.as_slice())?;
    let lines = joined(alloc, count.saturating_add(1), parts)?;
    let wagons = lines.len();
    let report = with_first_line(alloc, wagons, lines)?;
    Ok(report)
}

// The places of the fleet at which its parts begin.
fn starts_of(alloc: Global, count: usize) -> Result<Vec<usize>, AllocError>
    ensures { IfOk result (λ starts. AreStarts 0 count starts.items) }
{
    let mut starts = Vec::new(alloc);
    let mut from = 0;
    'starts: while from < count {
        starts.push(from)?;
        if count - from <= PART {
            return Ok(starts);
        }
        from += PART;
    }
    Ok(starts)
}

// The lines of the parts that begin at these places, by several threads.
fn parallel_parts(
    rt: &(impl Threads + Sync),
    alloc: Global,
    hub: &Hub,
    starts: &[usize],
) -> Result<Vec<Vec<String>>, Memory>
    ensures { IfOk result (λ parts. AllZip (λ from part. IsPart (state_of hub.now) from
        (map string_bytes part.items)) starts.now parts.items) }
{
    let parts: Result<Vec<Vec<String>>, Memory> = starts
        .par_iter()
        .with_min_len(1)
        .map(
            |from: &usize| -> Result<Vec<String>, Memory>
                ensures { IfOk result (λ part. IsPart (state_of hub.entry.now) from.now
                    (map string_bytes part.items)) }
            { part_lines(alloc, hub, *from) },
        )
        .collect(rt, alloc)?;
    parts
}

// The lines of the part of the fleet that begins at a place.
fn part_lines(alloc: Global, hub: &Hub, from: usize) -> Result<Vec<String>, Memory>
    ensures { IfOk result (λ part. IsPart (state_of hub.now) from (map string_bytes part.items)) }
{
    let part = hub.view_part(from, PART)?;
    let lines = lines_of(alloc, part.records())?;
    Ok(lines)
}

/// The report of the view, its lines made by as many threads as there are processors.
pub fn lines(rt: &(impl Threads + Sync), alloc: Global, view: &View) -> Result<Vec<String>, Memory>
    ensures { IfOk result (λ lines. map string_bytes lines.items ≡ report_of view.now) }
{
    let records = view.records();
    let lines = parallel_lines(rt, alloc, records)?;
    with_first_line(alloc, records.len(), lines)
}

/// The report of the view, its lines made one after another.
pub fn plain_lines(alloc: Global, view: &View) -> Result<Vec<String>, Memory>
    ensures { IfOk result (λ lines. map string_bytes lines.items ≡ report_of view.now) }
{
    let records = view.records();
    let lines = lines_of(alloc, records)?;
    with_first_line(alloc, records.len(), lines)
}

// The lines of the records, one after another.
fn lines_of(alloc: Global, records: &[Record]) -> Result<Vec<String>, AllocError>
    ensures { IfOk result (λ lines. map string_bytes lines.items ≡ map line_of records.now) }
{
    let mut lines = Vec::with_capacity(alloc, records.len())?;
    for shown in records {
        lines.push(line(alloc, shown)?)?;
    }
    Ok(lines)
}

// The lines of the records, by several threads.
fn parallel_lines(
    rt: &(impl Threads + Sync),
    alloc: Global,
    records: &[Record],
) -> Result<Vec<String>, AllocError>
    ensures { IfOk result (λ lines. map string_bytes lines.items ≡ map line_of records.now) }
{
    let lines: Result<Vec<String>, AllocError> = records
        .par_iter()
        .map(
            |shown: &Record| -> Result<String, AllocError>
                ensures { IfOk result (λ text. string_bytes text ≡ line_of shown.now) }
            { line(alloc, shown) },
        )
        .collect(rt, alloc)?;
    lines
}

// The lines of the parts, one after another, in a list with room for so many.
fn joined(alloc: Global, room: usize, parts: Vec<Vec<String>>) -> Result<Vec<String>, AllocError>
    ensures { IfOk result (λ lines. lines.items ≡ flat_map (λ part. part.items) parts.items) }
{
    let mut lines = Vec::with_capacity(alloc, room)?;
    for mut part in parts {
        lines.append(&mut part)?;
    }
    Ok(lines)
}

// The lines after the one that counts the wagons.
fn with_first_line(
    alloc: Global,
    wagons: usize,
    mut lines: Vec<String>,
) -> Result<Vec<String>, Memory>
    ensures { IfOk result (λ all. map string_bytes all.items
        ≡ first_line wagons ∷ map string_bytes lines.items) }
{
    let mut digits = Buffer::new();
    let mut first = String::new(alloc);
    first.push_str("wagons ")?;
    first.push_str(digits.format(wagons))?;
    lines.insert(0, first)?;
    Ok(lines)
}
