//! What comes of the first line of a connection.
ghost use Rattle.std.specs.Prelude.{◌≡◌, ◌⊎◌, [], length, true, if◌then◌else◌};
ghost use Rattle.std.specs.Io.KnownBytes.{prepend_known};
ghost use Rattle.railway_keys.specs.Admissions.{admission_by, is_admitted, text_for};
ghost use Rattle.railway_keys.specs.FirstLines.{no_line, whole_line};
ghost use Rattle.railway_keys.specs.Guards.{BeginWithKey, IsBehindKey, IsDecided, IsGuarded, given_by};

use crate::front::{Front, Unread};
use crate::hello::railway_by_key;
use crate::table::KeyTable;
use std::alloc::Global;
use taf_codes::{Railway, Source};

/// What comes of the first line of a connection that is not blank.
#[derive(Clone, Copy, Debug, PartialEq, Eq)]
pub enum Admission {
    /// It is the hello of this railway, with its key.
    Admitted(Railway),
    /// It is not, or is too long.
    WrongKey,
    /// Memory was refused.
    NoMemory,
    /// There is none: the connection ended or failed before the end of it.
    NoLine,
    /// No key is asked for, so it was not read.
    NotAsked,
}

impl Admission {
    /// Reads the first bytes of a connection, and decides by them.
    pub(crate) fn decide<S: Source>(
        alloc: Global,
        keys: &KeyTable,
        source: &mut S,
        front: &mut Front,
    ) -> Admission
        requires held { front.old.held.items ≡ [] }
        requires line { front.old.line ≡ no_line }
        ensures guarded { IsGuarded keys.now (S.remaining source.old)
            (given_by result (prepend_known front.new.held.items (S.remaining source.new))) }
        ensures begun { is_admitted result ≡ true → BeginWithKey keys.now front.new.held.items }
        ensures behind { IsBehindKey keys.now
            (given_by result (prepend_known front.new.held.items (S.remaining source.new))) }
        ensures decided { IsDecided keys.now (S.remaining source.old) result
            (S.failures source.old) (S.failures source.new) }
    {
        match front.read(source) {
            Ok(()) => Admission::of(alloc, keys, front),
            Err(Unread::Failed) => Admission::NoLine,
            Err(Unread::Memory) => Admission::NoMemory,
        }
    }

    // What comes of the bytes that were read of a connection.
    fn of(alloc: Global, keys: &KeyTable, front: &Front) -> Admission
        ensures { (result ≡ admission_by keys.now
            (whole_line front.now.line) (length front.now.held.items))
            ⊎ (result ≡ Admission.NoMemory) }
    {
        let Some(line) = front.line.whole() else {
            return Admission::without_line(front.is_full());
        };
        match railway_by_key(alloc, keys, line) {
            Ok(Some(railway)) => Admission::Admitted(railway),
            Ok(None) => Admission::WrongKey,
            Err(_) => Admission::NoMemory,
        }
    }

    // What comes of a connection without a line, as many bytes as are read at most or fewer.
    fn without_line(is_full: bool) -> Admission
        ensures { result ≡ (if is_full then Admission.WrongKey else Admission.NoLine) }
    {
        if is_full {
            Admission::WrongKey
        } else {
            Admission::NoLine
        }
    }

    /// Whether the session is given what the client sends.
    pub fn is_admitted(self) -> bool
        ensures { result ≡ is_admitted self }
    {
        matches!(self, Admission::Admitted(_) | Admission::NotAsked)
    }

    /// What the client is told, with its newline.
    pub(crate) fn text(self) -> &'static [u8]
        ensures { result.now ≡ text_for self }
    {
        match self {
            Admission::Admitted(_) | Admission::NoLine | Admission::NotAsked => b"",
            Admission::WrongKey => b"{\"fault\":\"wrong_key\"}\n",
            Admission::NoMemory => b"{\"fault\":\"no_memory\"}\n",
        }
    }
}
