//! `carry`: the trips of a journal that are not closed go on in a new one.
use crate::journal_file::{read_journal, report_file};
use crate::journal_open::open;
use carried_hub::carry_over;
use closed_trips::find_closed_names;
use hub_core::Hub;
use hub_faults::Fault;
use seeded_state::SeededState;
use std::fs::File;
use std::io::Write;
use std::mem::forget;
use std::random::RandomSource;
use std::rt::Files;
use std::thread::Threads;

/// The files of the old journal and of the new one.
#[derive(Clone, Copy)]
pub(crate) struct Journals<'a> {
    pub journal: &'a str,
    pub next: &'a str,
}

/// Writes a new journal, which leaves closed trips behind, and prints how many calls both have. The old one is read as `check` reads
/// it, and nothing is written to it.
pub fn perform<H, W, E>(
    rt: &H,
    journals: Journals<'_>,
    mut output: W,
    errors: &mut E,
) -> Result<u8, Fault>
where
    H: Files<File = File> + Threads + RandomSource + AllocGlobal,
    W: Write + Drop,
    E: Write,
{
    let old = read_journal(rt, journals.journal, errors)?;
    let carried = carry(rt, old.hub(), journals.next, errors);
    let calls = old.len();
    // The program ends here. To give back the memory of each call would take as long as many calls.
    forget(old);
    let carried = carried?;
    match output.write_fmt(format_args!("calls {calls}\ncarried {carried}\n")) {
        Ok(()) => Ok(0),
        Err(_failed) => Err(Fault::Write),
    }
}

// Carries a hub over into a new journal, and gives how many calls that has.
fn carry<H, E>(rt: &H, old: &Hub, path: &str, errors: &mut E) -> Result<usize, Fault>
where
    H: Files<File = File> + Threads + RandomSource + AllocGlobal,
    E: Write,
{
    let alloc = rt.alloc();
    let names = find_closed_names(alloc, SeededState::drawn(rt), old)?;
    let mut next = open(rt, alloc, path, errors)?;
    if !next.hub().is_empty() {
        report_file(path, &"the file has calls already", errors);
        return Err(Fault::JournalRefused);
    }
    let carried = carry_over(old, &names, &mut next);
    let len = next.len();
    forget(next);
    match carried {
        Ok(()) => Ok(len),
        Err(fault) => {
            report_file(path, &fault, errors);
            Err(Fault::from(fault))
        }
    }
}
