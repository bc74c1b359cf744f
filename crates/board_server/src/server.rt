//! The board of a hub.
use crate::numbers::Numbers;
use crate::process::ProcessMemory;
use accept_queue::AcceptQueue;
use board_answers::{Access, Board, hosts_of};
use board_connections::{BoardListener, LimitedService, Limits, ServingEnd};
use hub_shared::HubLooks;
use railway_keys::KeyTable;
use std::alloc::{AllocGlobal, Global};
use std::fs::File;
use std::io;
use std::net::{Net, TcpStream};
use std::random::RandomSource;
use std::rt::Files;
use std::sync::{Mutex, Wait};
use std::time::{Clock, Instant, SystemTime};

/// A listener on a port of 127.0.0.1 that shows the wagons of a hub to browsers.
#[derive(Drop)]
pub struct BoardServer {
    alloc: Global,
    listener: Mutex<Option<BoardListener>>,
    end: ServingEnd,
    hosts: Vec<String>,
    memory: ProcessMemory,
    run: u64,
}

impl BoardServer {
    /// Listens on the port. Nobody is answered yet.
    pub fn bind<R>(rt: &R, port: u16) -> io::Result<BoardServer>
    where
        R: Files<File = File> + Net + Clock + RandomSource + AllocGlobal,
    {
        let alloc = rt.alloc();
        let (listener, end) = BoardListener::bind(rt, port, Limits::new())?;
        Ok(BoardServer {
            alloc,
            listener: Mutex::new(Some(listener)),
            end,
            hosts: hosts_of(alloc, port)?,
            memory: ProcessMemory::open(rt),
            run: run_number(rt)?,
        })
    }

    /// Answers requests by looks at the hub until it is told to end, or until the listener fails. With keys, a railway's wagons are
    /// shown only for its key. The sessions of a service are counted by its accept queue.
    pub fn serve<V: HubLooks, R: Wait + Clock>(
        &self,
        rt: &R,
        hub: &V,
        keys: Option<&KeyTable>,
        queue: Option<&AcceptQueue<TcpStream>>,
    ) {
        let Some(listener) = self.take_listener(rt) else {
            return;
        };
        let numbers = Numbers {
            rt,
            memory: &self.memory,
            queue,
            start: Instant::now(rt).ok(),
        };
        let access = Access {
            hosts: self.hosts.as_slice(),
            keys,
        };
        let board = Board::new(self.alloc, hub, &numbers, access, self.run);
        // Where the listener fails, the board is gone, and the hub is served all the same.
        let _ = listener.serve(rt, &mut LimitedService::new(board), &self.end);
    }

    fn take_listener<R: Wait>(&self, rt: &R) -> Option<BoardListener> {
        self.listener.lock(rt).take()
    }

    /// Has [`BoardServer::serve`] return.
    pub fn end(&self) {
        self.end.end();
    }
}

// A number that no other run of the hub has: the microseconds of its start.
fn run_number(rt: &impl Clock) -> io::Result<u64> {
    let now = SystemTime::now(rt)?;
    match now.duration_since(SystemTime::UNIX_EPOCH) {
        Ok(age) => Ok(age.as_micros().try_into().unwrap_or(0)),
        Err(_) => Ok(0),
    }
}
