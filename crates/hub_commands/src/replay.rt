use crate::print::{gathering, print};
use hub_core::Hub;
use hub_faults::Fault;
use hub_replay::run;
use seeded_state::SeededState;
use std::alloc::Global;
use std::io::{Read, Write};
use std::mem::forget;
use std::random::RandomSource;
use std::thread::Threads;
use taf_codes::{Sink, Source, Std};
use wimo_report::hub_lines;

/// Answers the lines of the input on the output, on a new hub, and then prints the report of all
/// wagons.
pub fn perform<R: Read + Drop, W: Write + Drop>(
    rt: &(impl Threads + Sync + RandomSource),
    alloc: Global,
    input: R,
    output: W,
) -> Result<u8, Fault> {
    let mut writer = Std::new(gathering(alloc, output)?);
    let report = answer(rt, alloc, &mut Std::new(input), &mut writer)?;
    print(&mut writer.into_inner(), &report)?;
    Ok(0)
}

// Answers the lines on a new hub, and gives the lines of the report.
fn answer(
    rt: &(impl Threads + Sync + RandomSource),
    alloc: Global,
    reader: &mut impl Source,
    writer: &mut impl Sink,
) -> Result<Vec<String>, Fault> {
    let mut hub = Hub::with_hasher(alloc, SeededState::drawn(rt))?;
    let report = report_of(rt, alloc, reader, writer, &mut hub);
    // The program ends here. To give back the memory of each call would take as long as many calls.
    forget(hub);
    report
}

// Answers the lines on this hub, and gives the lines of its report.
fn report_of(
    rt: &(impl Threads + Sync),
    alloc: Global,
    reader: &mut impl Source,
    writer: &mut impl Sink,
    hub: &mut Hub,
) -> Result<Vec<String>, Fault> {
    run(rt, alloc, reader, writer, hub)?;
    Ok(hub_lines(rt, alloc, hub)?)
}
