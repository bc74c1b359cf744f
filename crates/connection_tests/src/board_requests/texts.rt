//! A service of a few texts, and its clients.
ghost use Rattle.std.specs.Prelude.{◌≡◌};

use board_connections::{BoardListener, LimitedService, Limits, ServingEnd};
use bytes::Bytes;
use http::{Request, StatusCode};
use http_server::{Response, Service};
use std::alloc::{AllocError, AllocGlobal, Global};
use std::io;
use std::io::{Read, Write};
use std::net::{Net, OpenStream, Shutdown, SocketAddr, TcpStream};
use std::random::RandomSource;
use std::test::*;

// The answer to a request for `/short`, on a connection that stays open.
pub(crate) const SHORT: &str = "HTTP/1.1 200 OK\r\ncontent-length: 6\r\n\r\nshort\n";

// The long text is so many pieces of so many bytes: more than what the system keeps of an answer that is not read.
const PIECES: usize = 48;

const PIECE_LEN: usize = 128 * 1024;

// A service of a short text and of a long one, which has no memory for a third.
#[derive(Drop)]
pub(crate) struct Texts {
    piece: Bytes,
}

impl Texts {
    pub(crate) fn new(alloc: Global) -> Result<Texts, AllocError> {
        let piece = Bytes::from_vec(vec![in alloc; b'x'; PIECE_LEN]?)?;
        Ok(Texts { piece })
    }

    // Puts the long text into the body.
    fn push_long(&self, response: &mut Response) -> Result<(), AllocError> {
        for _ in 0..PIECES {
            response.body.push(self.piece.clone()?)?;
        }
        Ok(())
    }
}

impl Service for Texts {
    ghost answers = { λ old _ _ new. new ≡ old };

    fn call(
        &mut self,
        request: &Request<Bytes>,
        response: &mut Response,
    ) -> Result<(), AllocError> {
        match request.uri().path() {
            "/short" => response
                .body
                .push(Bytes::from_static(b"short\n".as_slice())),
            "/long" => self.push_long(response),
            "/no_memory" => Err(AllocError),
            _ => {
                response.status = StatusCode::NOT_FOUND;
                Ok(())
            }
        }
    }
}

// A listener on a port of this machine, and the end of it.
#[derive(Drop)]
pub(crate) struct Board {
    pub(crate) listener: BoardListener,
    pub(crate) end: ServingEnd,
    pub(crate) address: SocketAddr,
    pub(crate) service: LimitedService<Texts>,
}

impl Board {
    pub(crate) fn new<R: Net + RandomSource + AllocGlobal>(
        rt: &R,
        limits: Limits,
    ) -> Result<Board, Fail> {
        let (listener, end) = BoardListener::bind(rt, 0, limits)?;
        let address = listener.local_addr()?;
        let service = LimitedService::new(Texts::new(rt.alloc())?);
        Ok(Board {
            listener,
            end,
            address,
            service,
        })
    }
}

// What is said to a client that sends these bytes and ends.
pub(crate) fn said_to<R: Net>(
    rt: &R,
    alloc: Global,
    address: SocketAddr,
    bytes: &[u8],
) -> io::Result<Vec<u8>> {
    let mut client = TcpStream::connect(rt, address)?;
    client.write_all(bytes)?;
    client.shutdown(Shutdown::Write)?;
    let mut said = Vec::new(alloc);
    client.read_to_end(&mut said)?;
    Ok(said)
}

// Whether a client that asks for the short text gets it, and is still connected.
pub(crate) fn is_answered<T: Read + Write>(client: &mut T) -> bool {
    let mut answer = [0; 44];
    client
        .write_all(b"GET /short HTTP/1.1\r\nhost: x\r\n\r\n")
        .is_ok()
        && client.read_exact(&mut answer).is_ok()
        && answer.as_slice() == SHORT.as_bytes()
}

// Whether the client gets nothing more, and its connection is closed.
pub(crate) fn is_closed<T: Read>(alloc: Global, client: &mut T) -> bool {
    let mut said = Vec::new(alloc);
    client.read_to_end(&mut said).is_ok() && said.is_empty()
}
