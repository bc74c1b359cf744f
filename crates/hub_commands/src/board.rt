//! `board`: the board of a finished run, as a page with the wagons inside.
use board_file::board_file;
use hub_core::Hub;
use hub_faults::Fault;
use hub_replay::run;
use seeded_state::SeededState;
use std::alloc::Global;
use std::io::{Read, Write, sink};
use std::mem::forget;
use std::random::RandomSource;
use std::thread::Threads;
use taf_codes::{Railway, Source, Std};

/// Answers the lines of the input on a new hub, as `replay` does, and then writes the page of the hub's wagons: those that the railway
/// may see, or with no railway all. The answers are not written.
pub fn perform<R: Read + Drop, W: Write + Drop>(
    rt: &(impl Threads + Sync + RandomSource),
    alloc: Global,
    railway: Option<Railway>,
    input: R,
    output: W,
) -> Result<u8, Fault> {
    let mut hub = Hub::with_hasher(alloc, SeededState::drawn(rt))?;
    let page = page_of(rt, alloc, railway, &mut Std::new(input), &mut hub);
    // The program ends here. To give back the memory of each call would take as long as many calls.
    forget(hub);
    write_page(&page?, output)?;
    Ok(0)
}

// Answers the lines on this hub, and gives the page of its wagons.
fn page_of(
    rt: &(impl Threads + Sync),
    alloc: Global,
    railway: Option<Railway>,
    reader: &mut impl Source,
    hub: &mut Hub,
) -> Result<Vec<u8>, Fault> {
    run(rt, alloc, reader, &mut Std::new(sink()), hub)?;
    Ok(board_file(alloc, hub, railway)?)
}

// Writes the page, and sends it on.
fn write_page<W: Write + Drop>(page: &[u8], mut output: W) -> Result<(), Fault> {
    let Ok(()) = output.write_all(page) else {
        return Err(Fault::Write);
    };
    match output.flush() {
        Ok(()) => Ok(()),
        Err(_failed) => Err(Fault::Write),
    }
}
