//! `check`: a journal is read, and nothing is written to it.
use crate::journal_file::read_journal;
use hub_faults::Fault;
use std::fs::File;
use std::io::Write;
use std::mem::forget;
use std::random::RandomSource;
use std::rt::Files;
use std::thread::Threads;

/// Prints how many calls the journal has, and how many bytes its torn end. It is read as `replay` reads it, and refused for the
/// same faults; it is not locked, and nothing is written to it.
pub fn perform<H, W, E>(rt: &H, path: &str, mut output: W, errors: &mut E) -> Result<u8, Fault>
where
    H: Files<File = File> + Threads + RandomSource + AllocGlobal,
    W: Write + Drop,
    E: Write,
{
    let recovered = read_journal(rt, path, errors)?;
    let (calls, torn) = (recovered.len(), recovered.torn_len());
    // The program ends here. To give back the memory of each call would take as long as many calls.
    forget(recovered);
    match output.write_fmt(format_args!("calls {calls}\ntorn bytes {torn}\n")) {
        Ok(()) => Ok(0),
        Err(_failed) => Err(Fault::Write),
    }
}
