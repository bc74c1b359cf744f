//! What the clients of a service do, step by step.

use crate::service::Service;
use std::alloc::Global;
use std::io::{Read, Write};
use std::net::{Net, OpenStream, Shutdown, TcpStream};
use std::rt::{Clock, Files};
use std::sync::Wait;
use std::test::*;
use std::time::{Duration, Instant};
use std::{fs, io, thread};

/// A step of a script. A client is named by its place, of three.
#[derive(Clone, Copy)]
pub(crate) enum Step {
    /// The client connects.
    Connects(usize),
    /// The client is gone, with its connection.
    Leaves(usize),
    /// The client does this.
    Client(usize, Act),
    /// So many clients come and go, one after another, each is written its line back, and as many files are open then as before.
    ComeAndGo(u32),
    /// Nobody can connect.
    NobodyConnects,
    /// Nothing is done for a second.
    Rest,
    /// From now on time is taken.
    Begin,
    /// Since then it took so many milliseconds at least, and less than ten seconds.
    Took(u64),
    /// The service ends.
    End,
}

/// What a client does that is connected.
#[derive(Clone, Copy)]
pub(crate) enum Act {
    /// It sends this.
    Send(&'static str),
    /// It sends nothing any more.
    SendNoMore,
    /// It sends this line, is written it back, and is still connected.
    IsWrittenBack(&'static [u8; 2]),
    /// It is told this and nothing else, and its connection is closed.
    IsTold(&'static str),
    /// It is told nothing, and its connection is closed or broken.
    GetsNothing,
}

// The connections of the clients, and since when time is taken.
#[derive(Drop)]
struct Clients {
    streams: Vec<Option<TcpStream>>,
    began: Instant,
}

/// How many steps of a script went as they say, until one did not.
pub(crate) fn steps_done<R>(rt: &R, alloc: Global, service: &Service, script: &[Step]) -> usize
where
    R: Net<Stream = TcpStream> + Files + Wait + Clock + Alloc + Clone + Drop,
{
    let Ok(mut clients) = no_clients(rt, alloc) else {
        return 0;
    };
    for (done, step) in script.iter().enumerate() {
        match goes(rt, alloc, service, &mut clients, *step) {
            Ok(true) => {}
            _ => return done,
        }
    }
    script.len()
}

fn no_clients<R: Clock>(rt: &R, alloc: Global) -> io::Result<Clients> {
    let mut streams = Vec::with_capacity(alloc, 3)?;
    for _client in 0..3 {
        streams.push(None)?;
    }
    Ok(Clients {
        streams,
        began: Instant::now(rt)?,
    })
}

// Whether the step goes as it says.
fn goes<R>(
    rt: &R,
    alloc: Global,
    service: &Service,
    clients: &mut Clients,
    step: Step,
) -> io::Result<bool>
where
    R: Net<Stream = TcpStream> + Files + Wait + Clock + Alloc + Clone + Drop,
{
    match step {
        Step::Connects(client) => {
            let stream = TcpStream::connect(rt, service.address)?;
            Ok(clients.put(client, Some(stream)))
        }
        Step::Leaves(client) => Ok(clients.put(client, None)),
        Step::Client(client, act) => clients.act(alloc, client, act),
        Step::ComeAndGo(times) => come_and_go(rt, alloc, service, times),
        Step::NobodyConnects => Ok(TcpStream::connect(rt, service.address).is_err()),
        Step::Rest => {
            thread::sleep(rt, Duration::from_millis(1000));
            Ok(true)
        }
        Step::Begin => {
            clients.began = Instant::now(rt)?;
            Ok(true)
        }
        Step::Took(least) => clients.took(rt, least),
        Step::End => {
            service.end(rt);
            Ok(true)
        }
    }
}

impl Clients {
    // Puts the connection of a client, or that it has none. Whether there is a place for it.
    fn put(&mut self, client: usize, stream: Option<TcpStream>) -> bool {
        match self.streams.get_mut(client) {
            Some(place) => {
                *place = stream;
                true
            }
            None => false,
        }
    }

    // Whether what the client does goes as it says.
    fn act(&mut self, alloc: Global, client: usize, act: Act) -> io::Result<bool> {
        match self.streams.get_mut(client) {
            Some(Some(stream)) => acts(alloc, stream, act),
            _ => Ok(false),
        }
    }

    fn took<R: Clock>(&self, rt: &R, least: u64) -> io::Result<bool> {
        let took = self.began.elapsed(rt)?;
        Ok(took >= Duration::from_millis(least) && took < Duration::from_secs(10))
    }
}

fn acts<T: Read + Write + OpenStream>(alloc: Global, stream: &mut T, act: Act) -> io::Result<bool> {
    match act {
        Act::Send(text) => {
            stream.write_all(text.as_bytes())?;
            Ok(true)
        }
        Act::SendNoMore => {
            stream.shutdown(Shutdown::Write)?;
            Ok(true)
        }
        Act::IsWrittenBack(line) => Ok(is_written_back(stream, line)),
        Act::IsTold(text) => Ok(is_told(alloc, stream, text)),
        Act::GetsNothing => Ok(gets_nothing(alloc, stream)),
    }
}

fn is_written_back<T: Read + Write>(client: &mut T, line: &[u8; 2]) -> bool {
    let mut back = [0; 2];
    client.write_all(line).is_ok() && client.read_exact(&mut back).is_ok() && back == *line
}

fn is_told<T: Read>(alloc: Global, client: &mut T, told: &str) -> bool {
    let mut said = Vec::new(alloc);
    client.read_to_end(&mut said).is_ok() && said.as_slice() == told.as_bytes()
}

// The connection may be broken, since not all that was sent is read.
fn gets_nothing<T: Read>(alloc: Global, client: &mut T) -> bool {
    let mut said = Vec::new(alloc);
    let _ = client.read_to_end(&mut said);
    said.is_empty()
}

// How many files this process has open.
fn open_files<R: Files + Alloc + Clone + Drop>(rt: &R) -> io::Result<usize> {
    let mut files = 0usize;
    for file in fs::read_dir(rt, "/proc/self/fd")? {
        let _ = file?;
        files = files.saturating_add(1);
    }
    Ok(files)
}

// Whether each of so many clients that come one after another is served, and as many files are open then as before.
fn come_and_go<R>(rt: &R, alloc: Global, service: &Service, times: u32) -> io::Result<bool>
where
    R: Net + Files + Alloc + Clone + Drop,
{
    let before = open_files(rt)?;
    for _ in 0..times {
        let mut client = TcpStream::connect(rt, service.address)?;
        client.write_all(b"a\n")?;
        client.shutdown(Shutdown::Write)?;
        if !is_told(alloc, &mut client, "a\n") {
            return Ok(false);
        }
    }
    Ok(open_files(rt)? == before)
}
