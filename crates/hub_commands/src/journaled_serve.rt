//! `serve` with a journal.
use crate::journal_open::{explained_with_journal, open};
use crate::serve::{Served, listen, print_shift};
use crate::served_board::{bind_board, keeper_of};
use hub_faults::Fault;
use hub_server::{SettledJournaledShift, serve_journaled_connections};
use hub_tasks::ShiftOptions;
use std::fs::File;
use std::io::Write;
use std::net::Net;
use std::random::RandomSource;
use std::rt::{Clock, Files};
use std::sync::Wait;
use std::thread::Threads;

/// What the arguments name: how the shift is run, and the file of the journal.
#[derive(Clone, Copy)]
pub struct JournaledServe<'a> {
    pub shift: ShiftOptions,
    pub path: &'a str,
}

/// Opens the journal or makes it, and prints what it had. Then it listens on the port of this machine alone, serves one shift there
/// on the hub of the journal, and prints what it comes to as `serve` without a journal does. Where a call of the journal's file failed,
/// a line among the errors says so, and nothing else is printed.
pub fn perform<R, W, E>(
    rt: &R,
    serve: JournaledServe<'_>,
    output: W,
    errors: &mut E,
) -> Result<u8, Fault>
where
    R: Files<File = File> + Net + Threads + Wait + Clock + Sync + RandomSource + AllocGlobal,
    R::Stream: Send,
    R::Listener: Send,
    W: Write + Drop,
    E: Write,
{
    let JournaledServe { shift, path } = serve;
    let ShiftOptions { port, size, board } = shift;
    let hub = open(rt, rt.alloc(), path, errors)?;
    let listener = listen(rt, port, size, errors)?;
    let board = bind_board(rt, board, errors)?;
    let keeper = keeper_of(rt, board.as_ref());
    // An answer is written once its call is in the journal, on the disk.
    match serve_journaled_connections(rt, &keeper, listener, size, hub) {
        Ok(SettledJournaledShift { settled, journal }) => {
            // Another process may go on with it from here.
            drop(journal);
            print_shift(rt, settled, output, errors)
        }
        Err(fault) => Err(explained_with_journal(path, fault, Served::Shift, errors)),
    }
}
