//! `replay` with a journal.
ghost use Rattle.journaled_hub.specs.JournaledHubs.{IsOnDisk};

use crate::journal_file::report_file;
use crate::journal_open::open;
use crate::print::{gathering, print};
use hub_faults::Fault;
use hub_replay::RunFault;
use journal::RawFile;
use journaled_hub::{JournaledHub, JournaledRunFault, run_journaled};
use std::alloc::Global;
use std::fs::File;
use std::io::{Read, Write};
use std::mem::forget;
use std::random::RandomSource;
use std::rt::Files;
use std::thread::Threads;
use taf_codes::{Sink, Source, Std};
use wimo_report::hub_lines;

/// Answers the lines of the input on the output, on the hub of the calls that the journal has, and then prints the report of all
/// wagons. An answer is written once its call is in the journal, on the disk. What the journal had is a line among the errors.
pub fn perform<H, R, W, E>(
    rt: &H,
    path: &str,
    input: R,
    output: W,
    errors: &mut E,
) -> Result<u8, Fault>
where
    H: Files<File = File> + Threads + Sync + RandomSource + AllocGlobal,
    R: Read + Drop,
    W: Write + Drop,
    E: Write,
{
    let alloc = rt.alloc();
    let mut writer = Std::new(gathering(alloc, output)?);
    let mut hub = open(rt, alloc, path, errors)?;
    let report = report_of(rt, alloc, &mut Std::new(input), &mut writer, &mut hub);
    // The program ends here. To give back the memory of each call would take as long as many calls.
    forget(hub);
    match report {
        Ok(lines) => print(&mut writer.into_inner(), &lines)?,
        Err(fault) => return Err(explained(path, fault, errors)),
    }
    Ok(0)
}

// Answers the lines on this hub, and gives the lines of its report.
fn report_of<F: RawFile>(
    rt: &(impl Threads + Sync),
    alloc: Global,
    reader: &mut impl Source,
    writer: &mut impl Sink,
    hub: &mut JournaledHub<F>,
) -> Result<Vec<String>, JournaledRunFault>
    requires { IsOnDisk hub.old }
{
    match run_journaled(rt, reader, writer, hub) {
        Ok(()) => {}
        Err(fault) => return Err(fault),
    }
    match hub_lines(rt, alloc, hub.hub()) {
        Ok(lines) => Ok(lines),
        Err(_refused) => Err(JournaledRunFault::Run(RunFault::Memory)),
    }
}

// The fault of the command, once it is told of a call of the journal's file that failed.
fn explained<E: Write>(path: &str, fault: JournaledRunFault, errors: &mut E) -> Fault {
    if let JournaledRunFault::Journal = fault {
        report_file(path, &fault, errors);
    }
    Fault::from(fault)
}
