ghost use Rattle.std.specs.Prelude.{◌≡◌};
ghost use Rattle.hub_faults.specs.Statuses.{status_of};

use crate::carry::Journals;
use crate::journaled_open::JournaledOpen;
use crate::journaled_serve::JournaledServe;
use crate::open::KeyedOpen;
use crate::{
    board, carry, check, journaled_open, journaled_replay, journaled_serve, number, open, replay,
    serve,
};
use clap::Error;
use clap::error::ErrorKind;
use hub_faults::Fault;
use hub_tasks::{Task, task_of};
use shift_size::ShiftSize;
use std::fs::File;
use std::io::{Read, Write};
use std::net::{Net, OpenListener, OpenStream, TcpListener, TcpStream};
use std::random::RandomSource;
use std::rt::{Clock, Files};
use std::sync::Wait;
use std::thread::Threads;

/// Does what the arguments name, the program's name first, and gives the status.
pub fn perform<H, R, W, E>(rt: &H, arguments: &[String], input: R, output: W, errors: &mut E) -> u8
where
    H: Files<File = File>
        + Net<Listener = TcpListener, Stream = TcpStream>
        + Threads
        + Wait
        + Clock
        + Sync
        + RandomSource
        + AllocGlobal,
    R: Read + Send + Drop,
    W: Write + Drop,
    E: Write,
{
    let done = match task_of(rt.alloc(), arguments) {
        Ok(task) => perform_task(rt, &task, input, output, errors),
        Err(error) => explain(&error, output, errors),
    };
    match done {
        Ok(status) => status,
        Err(fault) => report_fault(fault, errors),
    }
}

// Does what a task is, and gives the status.
fn perform_task<H, R, W, E>(
    rt: &H,
    task: &Task<'_>,
    input: R,
    output: W,
    errors: &mut E,
) -> Result<u8, Fault>
where
    H: Files<File = File>
        + Net<Listener = TcpListener, Stream = TcpStream>
        + Threads
        + Wait
        + Clock
        + Sync
        + RandomSource
        + AllocGlobal,
    R: Read + Send + Drop,
    W: Write + Drop,
    E: Write,
{
    match *task {
        Task::Replay { journal: None } => replay::perform(rt, rt.alloc(), input, output),
        Task::Replay {
            journal: Some(path),
        } => journaled_replay::perform(rt, path, input, output, errors),
        Task::Board { railway } => board::perform(rt, rt.alloc(), railway, input, output),
        Task::Check(path) => check::perform(rt, path, output, errors),
        Task::Carry { journal, next } => {
            carry::perform(rt, Journals { journal, next }, output, errors)
        }
        Task::Number(text) => number::perform(output, text),
        Task::Serve {
            shift,
            journal: None,
        } => serve::perform(rt, shift, output, errors),
        Task::Serve {
            shift,
            journal: Some(path),
        } => journaled_serve::perform(rt, JournaledServe { shift, path }, output, errors),
        Task::Open {
            service,
            journal: None,
            keys,
        } => open::perform(rt, KeyedOpen { service, keys }, input, output, errors),
        Task::Open {
            service,
            journal: Some(path),
            keys,
        } => {
            let journaled = JournaledOpen {
                service,
                path,
                keys,
            };
            journaled_open::perform(rt, journaled, input, output, errors)
        }
    }
}

/// Serves one shift over the connections of a listener, as the command `serve` does on its port, and gives the status. It listens
/// until each session of the shift has its connection.
pub fn serve_on<L, H, W, E>(rt: &H, listener: L, size: ShiftSize, output: W, errors: &mut E) -> u8
where
    L: OpenListener + Send + Drop,
    L::Stream: Read + Write + OpenStream + Send + Drop,
    H: Threads + Wait + Sync + RandomSource + AllocGlobal,
    W: Write + Drop,
    E: Write,
{
    match serve::serve(rt, listener, size, output, errors) {
        Ok(status) => status,
        Err(fault) => report_fault(fault, errors),
    }
}

/// Prints the line of a fault, and gives its status.
pub fn report_fault<E: Write>(fault: Fault, errors: &mut E) -> u8
    ensures { result ≡ status_of fault }
{
    // Where standard error fails too, the status alone tells of the fault.
    let _ = errors.write_fmt(format_args!("{fault}\n"));
    fault.status()
}

// Prints clap's text, and gives the status: 0 for help that was asked for, 2 for arguments that are no command.
fn explain<W: Write + Drop, E: Write>(
    error: &Error,
    mut output: W,
    errors: &mut E,
) -> Result<u8, Fault> {
    if matches!(error.kind(), ErrorKind::OutOfMemory) {
        return Err(Fault::Memory);
    }
    if error.use_stderr() {
        let _ = errors.write_fmt(format_args!("{error}"));
        return Ok(2);
    }
    match output.write_fmt(format_args!("{error}")) {
        Ok(()) => Ok(0),
        Err(_failed) => Err(Fault::Write),
    }
}
