//! What a service listens by.
use accept_queue::AcceptQueue;
use board_server::BoardServer;
use railway_keys::KeyTable;
use std::net::{TcpListener, TcpStream};

/// A listener, the queue of its connections, the keys that they are asked for, and the board.
#[derive(Drop)]
pub struct Listening {
    pub listener: TcpListener,
    /// Another handle of the listener's socket, as `accept_queue::control_of` gives one. By it the listener is closed.
    pub control: TcpStream,
    pub queue: AcceptQueue<TcpStream>,
    /// The railways that may have sessions, with their keys. Where there is none, each may, and no key is asked for.
    pub keys: Option<KeyTable>,
    /// The board that shows the wagons to browsers, if there is one. With keys, a railway's wagons are shown only for its key.
    pub board: Option<BoardServer>,
}
