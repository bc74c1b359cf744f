//! A session, and the reader, the writer and the port that it is served between.
ghost use Rattle.std.specs.Prelude.{◌≡◌, IfOk, Err};
ghost use Rattle.session_lines.specs.States.{new_state};

use crate::serving::streams::{Bytes, HubPort, Page, Reach};
use session_lines::Session;
use session_serving::{SessionFault, serve_session};
use std::alloc::Global;
use taf_codes::Memory;

// The number of the session.
const ID: u32 = 3;

/// A session, and the reader, the writer and the port that it is served between.
#[derive(Drop)]
pub(crate) struct Ends<'a> {
    session: Session,
    reader: Bytes<'a>,
    writer: Page,
    port: HubPort,
}

/// What came of a session.
#[derive(Drop)]
pub(crate) struct Served {
    pub(crate) end: Result<(), SessionFault>,
    pub(crate) output: Vec<u8>,
    /// How many entries its tally has.
    pub(crate) told: usize,
    /// How many jobs the port took.
    pub(crate) sent: usize,
    /// How many answers waited at once at most.
    pub(crate) most: usize,
    /// How many reads there were, one that found the end among them.
    pub(crate) reads: usize,
    /// How many writes there were.
    pub(crate) writes: usize,
    /// How many bytes the reader has not given.
    pub(crate) left: usize,
}

impl<'a> Ends<'a> {
    /// A new session that reads these bytes, and says what it says behind those.
    pub(crate) fn new(
        alloc: Global,
        input: &'a [u8],
        output: Vec<u8>,
        reach: Reach,
    ) -> Result<Ends<'a>, Memory>
        ensures session { IfOk result (λ ends. ends.session ≡ new_state 3) }
        ensures port { IfOk result (λ ends. ends.port.id ≡ 3) }
    {
        let port = HubPort::new(alloc, ID, reach)?;
        Ok(Ends {
            session: Session::new(alloc, ID),
            reader: Bytes::new(input, reach),
            writer: Page::new(output, reach),
            port,
        })
    }

    /// Serves the session. Where memory is refused before the first read, it may be served again.
    pub(crate) fn serve(&mut self, alloc: Global) -> Result<(), SessionFault>
        requires session { self.old.session ≡ new_state 3 }
        requires port { self.old.port.id ≡ 3 }
        ensures session { result ≡ Err SessionFault.Memory → self.new.session ≡ new_state 3 }
        ensures port { result ≡ Err SessionFault.Memory → self.new.port.id ≡ 3 }
    {
        serve_session(
            alloc,
            &mut self.reader,
            &mut self.writer,
            &mut self.port,
            &mut self.session,
        )
    }

    /// What came of the session, which ended so.
    pub(crate) fn ended(self, end: Result<(), SessionFault>) -> Served {
        let Ends {
            session,
            reader,
            writer,
            port,
        } = self;
        let writes = writer.writes();
        Served {
            end,
            output: writer.bytes,
            told: session.on_end().entries().len(),
            sent: port.sent.len(),
            most: port.most(),
            reads: reader.reads(),
            writes,
            left: reader.left(),
        }
    }

    /// Serves the session, and tells what came of it.
    pub(crate) fn serve_to_end(self, alloc: Global) -> Served
        requires session { self.session ≡ new_state 3 }
        requires port { self.port.id ≡ 3 }
    {
        let mut ends = self;
        let end = ends.serve(alloc);
        ends.ended(end)
    }
}
