//! `open`: a service for as long as standard input lasts.
ghost use Rattle.std.specs.Prelude.{◌≡◌, IfOk};

use crate::keys::read_keys;
use crate::print::print_settled;
use crate::serve::{Served, bind, explained};
use crate::served_board::bind_board;
use accept_queue::{AcceptQueue, Limits, control_of};
use hub_faults::Fault;
use hub_tasks::ServiceOptions;
use open_server::{Listening, SettledService, serve_open};
use railway_keys::KeyTable;
use std::fs::File;
use std::io::{Read, Write};
use std::mem::forget;
use std::net::{Net, TcpListener, TcpStream};
use std::random::RandomSource;
use std::rt::{Clock, Files};
use std::sync::Wait;
use std::thread::Threads;
use wimo_report::hub_lines;

/// What the arguments name: how the service is run, and the file of the keys, if one is named.
#[derive(Clone, Copy)]
pub struct KeyedOpen<'a> {
    pub service: ServiceOptions,
    pub keys: Option<&'a str>,
}

/// Reads the keys of railways, where a file of them is named. Then it listens on the port of this machine alone, serves whoever connects,
/// with keys only those with theirs, until the input ends, and prints what it comes to: `settled C`, with the number of calls, and the
/// report of all wagons. Where the keys are not taken, or the service does not settle, a line among the errors says why.
pub fn perform<R, I, W, E>(
    rt: &R,
    keyed: KeyedOpen<'_>,
    input: I,
    output: W,
    errors: &mut E,
) -> Result<u8, Fault>
where
    R: Files<File = File>
        + Net<Listener = TcpListener, Stream = TcpStream>
        + Threads
        + Wait
        + Clock
        + Sync
        + RandomSource
        + AllocGlobal,
    I: Read + Send + Drop,
    W: Write + Drop,
    E: Write,
{
    let KeyedOpen { service, keys } = keyed;
    let keys = read_keys(rt, keys, errors)?;
    let listening = listen(rt, service, keys, errors)?;
    match serve_open(rt, rt.alloc(), &listening, input, service.workers) {
        Ok(settled) => print_service(rt, settled, output),
        Err(fault) => Err(explained(fault, Served::Service, errors)),
    }
}

/// Listens on the port of this machine alone, with a queue for its connections and the keys that they are asked for, and for the board
/// on its own, and reports among the errors where that is.
pub(crate) fn listen<R, E>(
    rt: &R,
    service: ServiceOptions,
    keys: Option<KeyTable>,
    errors: &mut E,
) -> Result<Listening, Fault>
where
    R: Files<File = File>
        + Net<Listener = TcpListener, Stream = TcpStream>
        + Clock
        + RandomSource
        + AllocGlobal,
    E: Write,
    ensures { IfOk result (λ l. l.queue.limits ≡ service.limits) }
{
    let ServiceOptions {
        port,
        limits,
        board,
        ..
    } = service;
    let listener = bind(rt, port)?;
    let Ok(control) = control_of(&listener) else {
        return Err(Fault::Socket);
    };
    let queue = AcceptQueue::new(rt.alloc(), limits)?;
    report_listening(port, &limits, errors);
    let board = bind_board(rt, board, errors)?;
    Ok(Listening {
        listener,
        control,
        queue,
        keys,
        board,
    })
}

fn report_listening<E: Write>(port: u16, limits: &Limits, errors: &mut E) {
    let sessions = limits.handlers;
    // Where standard error fails, nobody is told where the service listens; it serves all the same.
    let _ = errors.write_fmt(format_args!(
        "listening on 127.0.0.1:{port}, up to {sessions} sessions at a time\n"
    ));
}

/// Prints what a service came to: `settled C` and the report.
pub(crate) fn print_service<R, W>(rt: &R, settled: SettledService, output: W) -> Result<u8, Fault>
where
    R: Threads + Sync + AllocGlobal,
    W: Write + Drop,
{
    let SettledService { service, calls } = settled;
    let lines = hub_lines(rt, rt.alloc(), &service.hub);
    // The program ends here. To give back the memory of each call would take as long as many calls.
    forget(service);
    print_settled(rt.alloc(), calls, &lines?, output)
}
