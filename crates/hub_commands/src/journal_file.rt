//! The file of a journal, as the commands look at it.
use disk_file::{DiskFile, open_to_read};
use hub_faults::Fault;
use journaled_hub::RecoveredHub;
use seeded_state::SeededState;
use std::fmt::Display;
use std::fs::File;
use std::io::Write;
use std::random::RandomSource;
use std::rt::Files;
use std::thread::Threads;

// How a journal begins.
static BEGINNING: &[u8; 9] = b"{\"_sum\":\"";

/// The hub of the calls that a journal has. The file is not locked, and nothing is written to it.
pub(crate) fn read_journal<H, E>(
    rt: &H,
    path: &str,
    errors: &mut E,
) -> Result<RecoveredHub<DiskFile>, Fault>
where
    H: Files<File = File> + Threads + RandomSource + AllocGlobal,
    E: Write,
{
    let file = match open_to_read(rt, path) {
        Ok(file) => file,
        Err(fault) => {
            report_file(path, &fault, errors);
            return Err(Fault::from(fault));
        }
    };
    if !may_be_journal(&file) {
        return Err(report_foreign(path, errors));
    }
    match RecoveredHub::read(rt, rt.alloc(), SeededState::drawn(rt), file) {
        Ok(recovered) => Ok(recovered),
        Err((fault, _reader)) => {
            report_file(path, &fault, errors);
            Err(Fault::from(fault))
        }
    }
}

/// Whether a file may be a journal of this program, by its beginning. Of its first batch a crash may have left a part, of which any
/// byte may read as zero. Where the beginning can't be read, the file can't be read either.
pub(crate) fn may_be_journal(file: &DiskFile) -> bool {
    let mut first = [0; 9];
    match file.first_bytes(&mut first) {
        Ok(count) => begins_as_journal(&first[..count.min(first.len())]),
        Err(_failed) => true,
    }
}

// Whether a journal may begin with these bytes.
fn begins_as_journal(bytes: &[u8]) -> bool {
    bytes
        .iter()
        .zip(BEGINNING)
        .all(|(byte, own)| *byte == *own || *byte == 0)
}

/// Prints that the file of this path is no journal, and gives the fault of the command.
pub(crate) fn report_foreign<E: Write>(path: &str, errors: &mut E) -> Fault {
    report_file(path, &"the file is no journal of this program", errors);
    Fault::JournalRefused
}

/// Prints why the file of this path is not taken.
pub(crate) fn report_file<T: Display, E: Write>(path: &str, why: &T, errors: &mut E) {
    // Where standard error fails too, the status alone tells of the fault.
    let _ = errors.write_fmt(format_args!("{path}: {why}\n"));
}
