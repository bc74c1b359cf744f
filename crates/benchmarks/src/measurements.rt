use crate::bench::{ALL, Bench};
use crate::measured::Measured;
use crate::words::Asked;
use crate::{codec, copies, journeys, lanes, report, shifts, trips};
use anyhow::Result;
use schedules::run_seeds;
use std::alloc::Global;
use std::io::Write;
use std::random::RandomSource;
use std::sync::Wait;
use std::thread::Threads;
use std::time::{Clock, Instant};

/// Does what the words ask for.
pub fn perform<W: Write>(
    rt: &(impl Threads + Wait + Clock + RandomSource + Sync),
    alloc: Global,
    output: &mut W,
    asked: Asked,
) -> Result<()> {
    match asked {
        Asked::Names => print_names(output),
        Asked::Run { bench, count } => measure(rt, alloc, output, bench, count),
        Asked::Schedules { count, first } => run_schedules(rt, alloc, output, count, first),
    }
}

fn print_names<W: Write>(output: &mut W) -> Result<()> {
    for bench in ALL {
        let (name, thing, count) = (bench.name(), bench.thing(), bench.usual_count());
        output.write_fmt(format_args!("{name}: {count} {thing}\n"))?;
    }
    Ok(())
}

fn measure<W: Write>(
    rt: &(impl Threads + Wait + Clock + RandomSource + Sync),
    alloc: Global,
    output: &mut W,
    bench: Bench,
    count: u64,
) -> Result<()> {
    let measured = match bench {
        Bench::Parse => codec::parse(rt, alloc, count)?,
        Bench::Read => codec::read(rt, alloc, count)?,
        Bench::Replies => codec::replies(rt, alloc, count)?,
        Bench::Record => codec::shown(rt, alloc, count)?,
        Bench::Items => codec::items(rt, alloc, count)?,
        Bench::Copies => return measure_copies(rt, alloc, output, count),
        Bench::Journey => return measure_journeys(rt, alloc, output, count),
        Bench::Hub => return measure_hubs(rt, alloc, output, count),
        Bench::Report => return measure_report(rt, alloc, output, count),
        Bench::Lane => return measure_lanes(rt, alloc, output, count),
        Bench::Shift => shifts::calls(rt, alloc, count)?,
    };
    output.write_fmt(format_args!("{}: {measured}\n", bench.name()))?;
    Ok(())
}

fn run_schedules<W: Write>(
    clock: &impl Clock,
    alloc: Global,
    output: &mut W,
    count: u64,
    first: u64,
) -> Result<()> {
    let start = Instant::now(clock)?;
    let counts = run_seeds(alloc, first, count)?;
    let measured = Measured::since(clock, start, count)?;
    output.write_fmt(format_args!("schedules: {measured}; {counts}\n"))?;
    Ok(())
}

fn measure_copies<W: Write>(
    clock: &impl Clock,
    alloc: Global,
    output: &mut W,
    count: u64,
) -> Result<()> {
    let shared = copies::shared(clock, alloc, count)?;
    output.write_fmt(format_args!("copies: {shared}\n"))?;
    let made = copies::made(clock, alloc, count)?;
    output.write_fmt(format_args!("copies made again: {made}\n"))?;
    Ok(())
}

fn measure_journeys<W: Write>(
    clock: &impl Clock,
    alloc: Global,
    output: &mut W,
    count: u64,
) -> Result<()> {
    for length in [10u32, 100, 1_000, 10_000] {
        let measured = journeys::events(clock, alloc, length, count)?;
        output.write_fmt(format_args!("journey of {length}: {measured}\n"))?;
    }
    Ok(())
}

// Hubs that take an eighteenth of the calls, a quarter and all: of 50,000, 225,000 and 900,000 calls where no count is given.
fn measure_hubs<W: Write>(
    clock: &impl Clock,
    alloc: Global,
    output: &mut W,
    count: u64,
) -> Result<()> {
    for length in [count / 18, count / 4, count] {
        let measured = trips::taken(clock, alloc, length)?;
        output.write_fmt(format_args!("hub of {length}: {measured}\n"))?;
    }
    Ok(())
}

fn measure_report<W: Write>(
    rt: &(impl Threads + Clock + Sync),
    alloc: Global,
    output: &mut W,
    count: u64,
) -> Result<()> {
    let view = report::view(alloc, count)?;
    let plain = report::plain(rt, alloc, &view, count)?;
    output.write_fmt(format_args!("report plain: {plain}\n"))?;
    let parallel = report::parallel(rt, alloc, &view, count)?;
    output.write_fmt(format_args!("report: {parallel}\n"))?;
    Ok(())
}

fn measure_lanes<W: Write>(
    rt: &(impl Threads + Wait + Clock + RandomSource + Sync),
    alloc: Global,
    output: &mut W,
    count: u64,
) -> Result<()> {
    let inbox = lanes::through_inbox(rt, alloc, count)?;
    output.write_fmt(format_args!("lane: {inbox}\n"))?;
    let plain = lanes::through_plain_queue(rt, alloc, count)?;
    output.write_fmt(format_args!("lane of a plain queue: {plain}\n"))?;
    Ok(())
}
