//! Keys of railways: a session begins only with the hello of a railway and its key.
//!
//! A keys file has a line for each railway: its code, a blank, and the SHA-256 of its key as 64 hexadecimal digits. Lines that are
//! empty or begin with `#` are passed over.
//!
//! ```text
//! # winter
//! R101 edc77e5b0841753cfaf348c4f1c08a3d8dd80d2a5e6cab9bb7201d1aae433dfa
//! ```
//!
//! [`KeyTable::read`] reads it, and reports a fault by the number of its line. A client then sends its key in its hello, as the field
//! `key`. A session passes over this field, as over each that it does not know.
//!
//! ```text
//! {"kind":"hello","from":"R101","key":"green-signal-101"}
//! ```
//!
//! [`KeyGuard::admit`] stands before a session. It reads a connection up to the end of its first line that is not blank. Where this is
//! the hello of a railway with its key, the session is given all bytes of the connection, unchanged and in order. Else the client is
//! told `{"fault":"wrong_key"}`, and the session is given nothing. [`KeyedConnections`] puts such a guard before each session of a
//! service.
//!
//! # What is promised
//!
//! `specs/Guards.antt` says what a session is given: nothing, or the bytes of its connection, and then these begin with a hello whose
//! railway has in the table the SHA-256 of the key in that hello. It speaks of the line as a session does (`specs/Meanings.antt` of
//! `session_lines`), so the railway whose key was checked is the one that the session takes, also where a field comes twice: the last
//! one stands, for both. `specs/KeyFiles.antt` says what a keys file is.
//!
//! The digest of a key is compared with each digest of the table, byte for byte to the end, whatever the railway is. That it takes the
//! same time is no promise: the compiler may do it in another way. No text that can be printed has a key or a digest.
//!
//! A session that is refused memory while it reads its hello has no railway, and would take one from a later hello of its connection,
//! with which no key is compared. So it is given a [`HelloWriter`], which fails at the flush behind the first answer where this is not
//! the one to a hello. The client is told `{"fault":"no_memory"}`, and the session, which reads only once a flush has succeeded, ends.
//!
//! [`KeyedConnections`] has the table that it was made with. With one, what a session may be given of a connection that it brings, where
//! this is known, is nothing or begins with a key of the table, and its writer awaits a hello. Whatever the reader, the guard admits a
//! connection only where the bytes that it has read of it begin so. Without a table it asks for no key: a session is given what comes, and
//! what it says is written, as if there were neither guard nor writer. The trait says nothing of this, since whoever serves connections
//! asks for no keys: so a contract that is to speak of them names [`KeyedConnections`] itself.
//!
//! | part | what it has |
//! |---|---|
//! | `digest` | the SHA-256 of a key |
//! | `table`, `fault` | the table of keys, and what is wrong with a file |
//! | `hello` | the railway of a hello with its key |
//! | `first_line`, `front` | the first line of a connection, and the bytes that are read before the session |
//! | `admission`, `told` | what comes of them, and what the client is told |
//! | `guard` | the guard before a session |
//! | `hello_writer` | the writer of a session that is to begin with a hello |
//! | `keyed` | the connections of a service, each with a guard |
#![tactic(auto)]

mod admission;
mod digest;
mod fault;
mod first_line;
mod front;
mod guard;
mod hello;
mod hello_writer;
mod keyed;
mod table;
mod told;

pub use admission::Admission;
pub use digest::KeyDigest;
pub use fault::{KeyFileFault, KeyLineFault};
pub use guard::KeyGuard;
pub use hello::railway_by_key;
pub use hello_writer::{FirstAnswer, HelloWriter};
pub use keyed::KeyedConnections;
pub use table::{KeyTable, MAX_RAILWAYS, RailwayKey};
