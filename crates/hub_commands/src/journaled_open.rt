//! `open` with a journal.
use crate::journal_open::{explained_with_journal, open};
use crate::keys::read_keys;
use crate::open::{listen, print_service};
use crate::serve::Served;
use hub_faults::Fault;
use hub_tasks::ServiceOptions;
use open_server::{SettledJournaledService, serve_open_journaled};
use std::fs::File;
use std::io::{Read, Write};
use std::net::{Net, TcpListener, TcpStream};
use std::random::RandomSource;
use std::rt::{Clock, Files};
use std::sync::Wait;
use std::thread::Threads;

/// What the arguments name: how the service is run, the file of the journal, and that of the keys, if one is named.
#[derive(Clone, Copy)]
pub struct JournaledOpen<'a> {
    pub service: ServiceOptions,
    pub path: &'a str,
    pub keys: Option<&'a str>,
}

/// Reads the keys of railways, where a file of them is named, opens the journal or makes it, and prints what it had. Then it listens on
/// the port of this machine alone, serves whoever connects on the hub of the journal until the input ends, and prints what it comes to
/// as `open` without a journal does. Where a call of the journal's file failed, a line among the errors says so, and nothing else is
/// printed.
pub fn perform<R, I, W, E>(
    rt: &R,
    journaled: JournaledOpen<'_>,
    input: I,
    output: W,
    errors: &mut E,
) -> Result<u8, Fault>
where
    R: Files<File = File>
        + Net<Listener = TcpListener, Stream = TcpStream>
        + Threads
        + Wait
        + Clock
        + Sync
        + RandomSource
        + AllocGlobal,
    I: Read + Send + Drop,
    W: Write + Drop,
    E: Write,
{
    let JournaledOpen {
        service,
        path,
        keys,
    } = journaled;
    let keys = read_keys(rt, keys, errors)?;
    let hub = open(rt, rt.alloc(), path, errors)?;
    let listening = listen(rt, service, keys, errors)?;
    // An answer is written once its call is in the journal, on the disk.
    match serve_open_journaled(rt, rt.alloc(), &listening, input, hub) {
        Ok(SettledJournaledService { settled, journal }) => {
            // Another process may go on with it from here.
            drop(journal);
            print_service(rt, settled, output)
        }
        Err(fault) => Err(explained_with_journal(path, fault, Served::Service, errors)),
    }
}
