//! The report of the operational database.
ghost use Rattle.std.specs.Prelude.{◌≡◌, length, IfOk};

use crate::journeys::Run;
use crate::measured::Measured;
use crate::samples;
use anyhow::{Result, bail};
use hub_core::View;
use std::alloc::Global;
use std::thread::Threads;
use std::time::{Clock, Instant};
use wimo_report::{lines, plain_lines};

/// A view of so many records of a wagon on its way.
pub(crate) fn view(alloc: Global, count: u64) -> Result<View>
    ensures { IfOk result (λ view. length view ≡ count) }
{
    let shown = Run::departed(alloc, &samples::plan(alloc)?)?.shown(alloc)?;
    let mut records = Vec::new(alloc);
    for _ in 0..count {
        records.push(shown.clone()?)?;
    }
    Ok(View::from_vec(records))
}

/// The lines of the view, made one after another.
pub(crate) fn plain(
    clock: &impl Clock,
    alloc: Global,
    view: &View,
    count: u64,
) -> Result<Measured> {
    let start = Instant::now(clock)?;
    let lines = plain_lines(alloc, view)?;
    let measured = Measured::since(clock, start, count)?;
    if lines.is_empty() {
        bail!("no lines");
    }
    Ok(measured)
}

/// The lines of the view, made by several threads.
pub(crate) fn parallel(
    rt: &(impl Threads + Clock + Sync),
    alloc: Global,
    view: &View,
    count: u64,
) -> Result<Measured> {
    let start = Instant::now(rt)?;
    let lines = lines(rt, alloc, view)?;
    let measured = Measured::since(rt, start, count)?;
    if lines.is_empty() {
        bail!("no lines");
    }
    Ok(measured)
}
