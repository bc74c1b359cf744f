//! The journal of a command, opened.
ghost use Rattle.std.specs.Prelude.{IfOk};
ghost use Rattle.journaled_hub.specs.JournaledHubs.{IsOnDisk};

use crate::journal_file::{may_be_journal, report_file, report_foreign};
use crate::serve::{Served, explained};
use disk_file::{DiskFile, keep_end};
use hub_faults::Fault;
use hub_server::ServerFault;
use journal::Failed;
use journaled_hub::{JournaledHub, OpenFault, RecoveredHub};
use seeded_state::SeededState;
use std::alloc::Global;
use std::fs::File;
use std::io::Write;
use std::random::RandomSource;
use std::rt::Files;
use std::thread::Threads;

/// Opens the journal or makes it, and prints what it had. Where it is not taken, the line before that of the fault says why, behind
/// the path.
pub(crate) fn open<H, E>(
    rt: &H,
    alloc: Global,
    path: &str,
    errors: &mut E,
) -> Result<JournaledHub<DiskFile>, Fault>
where
    H: Files<File = File> + Threads + RandomSource,
    E: Write,
    ensures { IfOk result (λ hub. IsOnDisk hub) }
{
    let file = match disk_file::open(rt, path) {
        Ok(file) => file,
        Err(fault) => {
            report_file(path, &fault, errors);
            return Err(Fault::from(fault));
        }
    };
    if !may_be_journal(&file) {
        return Err(report_foreign(path, errors));
    }
    let recovered = match RecoveredHub::read(rt, alloc, SeededState::drawn(rt), file) {
        Ok(recovered) => recovered,
        Err((fault, _reader)) => return Err(refused(path, fault, errors)),
    };
    // What is cut off is kept before.
    let torn = match keep_torn_end(rt, alloc, path, &recovered) {
        Ok(torn) => torn,
        Err(Failed) => return Err(refused(path, OpenFault::Failed, errors)),
    };
    match recovered.open() {
        Ok(hub) => {
            report_journal(path, hub.len(), &torn, errors);
            Ok(hub)
        }
        Err(_file) => Err(refused(path, OpenFault::Failed, errors)),
    }
}

// The fault of the command, once it is told why the journal gave no hub.
fn refused<E: Write>(path: &str, fault: OpenFault, errors: &mut E) -> Fault {
    report_file(path, &fault, errors);
    Fault::from(fault)
}

// A torn end: how many bytes it has, and the path of the file that keeps them.
#[derive(Drop)]
struct TornEnd {
    len: usize,
    copy: String,
}

// Copies the torn end of a journal into a file beside it, where it has one.
fn keep_torn_end<H: Files<File = File>>(
    rt: &H,
    alloc: Global,
    path: &str,
    recovered: &RecoveredHub<DiskFile>,
) -> Result<Option<TornEnd>, Failed> {
    let len = recovered.torn_len();
    if len == 0 {
        return Ok(None);
    }
    let copy = keep_end(rt, alloc, path, recovered.whole_len())?;
    Ok(Some(TornEnd { len, copy }))
}

// Prints how many calls the journal had, and what was cut off.
fn report_journal<E: Write>(path: &str, calls: usize, torn: &Option<TornEnd>, errors: &mut E) {
    // Where standard error fails, nobody is told; the lines are answered all the same.
    let _ = match torn {
        None => errors.write_fmt(format_args!("{path}: {calls} calls\n")),
        Some(TornEnd { len, copy }) => errors.write_fmt(format_args!(
            "{path}: {calls} calls; a torn end of {len} bytes was cut off, and is kept in {copy}\n"
        )),
    };
}

/// The fault of the command, once it is told of a call of the journal's file that failed, or in which respect a shift or a service did
/// not settle.
pub(crate) fn explained_with_journal<E: Write>(
    path: &str,
    fault: ServerFault,
    served: Served,
    errors: &mut E,
) -> Fault {
    if let ServerFault::Journal = fault {
        report_file(path, &fault, errors);
    }
    explained(fault, served, errors)
}
