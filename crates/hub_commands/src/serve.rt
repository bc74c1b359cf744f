use crate::print::print_settled;
use crate::served_board::{bind_board, keeper_of};
use hub_faults::Fault;
use hub_server::{NoKeeper, ServerFault, SessionEnd, SettledShift, serve_connections};
use hub_tasks::ShiftOptions;
use shift_size::ShiftSize;
use std::fmt::{self, Display, Formatter};
use std::fs::File;
use std::io::{Read, Write};
use std::mem::forget;
use std::net::{Ipv4Addr, Net, OpenListener, OpenStream, TcpListener};
use std::random::RandomSource;
use std::rt::{Clock, Files};
use std::sync::Wait;
use std::thread::Threads;
use wimo_report::hub_lines;

/// What is served.
#[derive(Clone, Copy)]
pub(crate) enum Served {
    Shift,
    Service,
}

impl Display for Served {
    fn fmt<W: fmt::Write>(&self, f: &mut Formatter<W>) -> fmt::Result {
        match self {
            Served::Shift => f.write_str("shift"),
            Served::Service => f.write_str("service"),
        }
    }
}

/// Listens on the port of this machine alone, serves one shift there, with its board, if it has one, and prints what it comes to.
pub fn perform<R, W, E>(rt: &R, shift: ShiftOptions, output: W, errors: &mut E) -> Result<u8, Fault>
where
    R: Files<File = File> + Net + Threads + Wait + Clock + Sync + RandomSource + AllocGlobal,
    R::Stream: Send,
    R::Listener: Send,
    W: Write + Drop,
    E: Write,
{
    let ShiftOptions { port, size, board } = shift;
    let listener = listen(rt, port, size, errors)?;
    let board = bind_board(rt, board, errors)?;
    let keeper = keeper_of(rt, board.as_ref());
    let settled = serve_connections(rt, &keeper, listener, size);
    print_served(rt, settled, output, errors)
}

/// Listens on the port of this machine alone.
pub(crate) fn bind<R: Net>(rt: &R, port: u16) -> Result<R::Listener, Fault> {
    match TcpListener::bind(rt, (Ipv4Addr::LOCALHOST, port)) {
        Ok(listener) => Ok(listener),
        Err(_) => Err(Fault::Socket),
    }
}

/// Listens on the port of this machine alone, and reports among the errors where that is.
pub(crate) fn listen<R: Net, E: Write>(
    rt: &R,
    port: u16,
    size: ShiftSize,
    errors: &mut E,
) -> Result<R::Listener, Fault> {
    let listener = bind(rt, port)?;
    let sessions = size.sessions();
    // Where standard error fails, nobody is told where the shift listens; it is served all the same.
    let _ = errors.write_fmt(format_args!("listening on 127.0.0.1:{port}, {sessions} sessions\n"));
    Ok(listener)
}

/// Serves one shift over the connections of a listener: prints `settled C`, with the number of its calls, and the
/// report of all wagons. Each session that could not be served to its end is a line among the errors, and so is why a shift did
/// not settle.
pub(crate) fn serve<L, R, W, E>(
    rt: &R,
    listener: L,
    size: ShiftSize,
    output: W,
    errors: &mut E,
) -> Result<u8, Fault>
where
    L: OpenListener + Send + Drop,
    L::Stream: Read + Write + OpenStream + Send + Drop,
    R: Threads + Wait + Sync + RandomSource + AllocGlobal,
    W: Write + Drop,
    E: Write,
{
    let settled = serve_connections(rt, &NoKeeper, listener, size);
    print_served(rt, settled, output, errors)
}

// Prints what a shift came to, or why it did not settle.
fn print_served<R, W, E>(
    rt: &R,
    settled: Result<SettledShift, ServerFault>,
    output: W,
    errors: &mut E,
) -> Result<u8, Fault>
where
    R: Threads + Sync + AllocGlobal,
    W: Write + Drop,
    E: Write,
{
    match settled {
        Ok(settled) => print_shift(rt, settled, output, errors),
        Err(fault) => Err(explained(fault, Served::Shift, errors)),
    }
}

/// Prints what a shift came to: each session that could not be served to its end among the errors, and `settled C` and the report.
pub(crate) fn print_shift<R, W, E>(
    rt: &R,
    settled: SettledShift,
    output: W,
    errors: &mut E,
) -> Result<u8, Fault>
where
    R: Threads + Sync + AllocGlobal,
    W: Write + Drop,
    E: Write,
{
    let SettledShift { shift, calls } = settled;
    for (session, end) in shift.ends.iter().enumerate() {
        report_end(session, *end, errors);
    }
    let lines = hub_lines(rt, rt.alloc(), &shift.hub);
    // The program ends here. To give back the memory of each call would take as long as many calls.
    forget(shift);
    print_settled(rt.alloc(), calls, &lines?, output)
}

/// The fault of the command, once it is told in which respect what was served did not settle.
pub(crate) fn explained<E: Write>(fault: ServerFault, served: Served, errors: &mut E) -> Fault {
    if let ServerFault::NotSettled(why) = fault {
        let _ = errors.write_fmt(format_args!("the {served} did not settle: {why}\n"));
    }
    Fault::from(fault)
}

/// Prints how a session ended that could not be served to its end, as `session 3: the writer failed`. The sessions are counted
/// from 0. Of one that ended complete it prints nothing.
pub fn report_end<E: Write>(session: usize, end: SessionEnd, errors: &mut E) {
    // Where standard error fails, nobody is told; the shift is reported all the same.
    let _ = match end {
        SessionEnd::Complete => Ok(()),
        SessionEnd::Stranger => errors.write_fmt(format_args!(
            "session {session}: an answer came that was not to its oldest call\n"
        )),
        SessionEnd::Fault(fault) => errors.write_fmt(format_args!("session {session}: {fault}\n")),
    };
}
