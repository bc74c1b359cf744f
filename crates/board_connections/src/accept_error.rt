//! What an error of `accept` means.
ghost use Rattle.std.specs.Prelude.{◌≡◌, ◌↔◌};
ghost use Rattle.std.specs.IoError.{raw_os_error};
ghost use Rattle.board_connections.specs.AcceptErrors.{IsWanting, IsNoListener};

use std::io;
use std::io::ErrorKind;

// The numbers of Linux for files and memory that are wanting.
const ENOMEM: i32 = 12;

const ENFILE: i32 = 23;

const EMFILE: i32 = 24;

const ENOBUFS: i32 = 105;

// And for a descriptor that is none, or no listener's.
const EBADF: i32 = 9;

const EINVAL: i32 = 22;

const ENOTSOCK: i32 = 88;

const EOPNOTSUPP: i32 = 95;

/// What is done after an error of `accept`.
#[derive(Clone, Copy, Debug, PartialEq, Eq)]
pub(crate) enum AfterError {
    /// Nothing waits to be accepted.
    Wait,
    /// The connection was lost before it was accepted: the next is.
    Next,
    /// Files or memory are wanting, or the network fails: later is soon enough.
    Later,
    /// There is no listener any more.
    End,
}

/// What is done after this error of `accept`.
pub(crate) fn after_accept_error(error: &io::Error) -> AfterError
    ensures later { IsWanting (raw_os_error error.now) → result ≡ AfterError.Later }
    ensures end { (result ≡ AfterError.End) ↔ IsNoListener (raw_os_error error.now) }
{
    match error.raw_os_error() {
        Some(ENOMEM | ENFILE | EMFILE | ENOBUFS) => AfterError::Later,
        Some(EBADF | EINVAL | ENOTSOCK | EOPNOTSUPP) => AfterError::End,
        _ => after_kind(error.kind()),
    }
}

// What is done after an error of this kind, where its number says no more.
fn after_kind(kind: ErrorKind) -> AfterError
    ensures wait { (result ≡ AfterError.Wait) ↔ (kind ≡ ErrorKind.WouldBlock) }
    ensures goes_on { result ≡ AfterError.End → ⊥ }
{
    match kind {
        ErrorKind::WouldBlock => AfterError::Wait,
        ErrorKind::ConnectionAborted | ErrorKind::Interrupted => AfterError::Next,
        _ => AfterError::Later,
    }
}
