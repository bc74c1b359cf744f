//! The guard before a session.
ghost use Rattle.std.specs.Prelude.{◌≡◌, ◌<◌, ◌≤◌, length, take, vec_len};

use crate::admission::Admission;
use crate::front::Front;
use crate::table::KeyTable;
use crate::told::tell;
use std::alloc::Global;
use taf_codes::{Failed, Sink, Source};

/// Gives the bytes of a connection to its session, where they begin with the hello of a railway and its key, and else none. Without
/// keys it gives all of them.
///
/// The key is not taken out: a session passes over it. The first line comes in reads of its own, never with bytes behind it.
#[derive(Drop)]
pub struct KeyGuard<S> {
    source: S,
    // What was read before the session, and how many bytes of it were given.
    front: Front,
    given: usize,
    admission: Admission,
    ghost within: { given ≤ vec_len front.held },
}

impl<S: Source> KeyGuard<S> {
    ghost use Rattle.std.specs.Prelude.{[], true};
    ghost use Rattle.railway_keys.specs.Admissions.{is_admitted, text_for};
    ghost use Rattle.railway_keys.specs.FirstLines.{no_line};
    ghost use Rattle.railway_keys.specs.Guards.{let_through, BeginWithKey, IsBehindKey, IsDecided, IsGuarded, Tells};

    /// Reads a connection up to the end of its first line that is not blank, 65,537 bytes at most, and tells the client where this
    /// line is not the hello of a railway with its key.
    ///
    /// The client is told `{"fault":"wrong_key"}`, or `{"fault":"no_memory"}` where memory is refused, each with a newline, and
    /// nothing where the connection ends or fails before. Whatever the cause, the session is then given nothing. This waits where the
    /// reader or the writer does.
    pub fn admit<K: Sink>(alloc: Global, keys: &KeyTable, source: S, writer: &mut K) -> KeyGuard<S>
        ensures guarded { IsGuarded keys.now (S.remaining source)
            (let_through S.remaining result) }
        ensures begun { is_admitted result.admission ≡ true
            → BeginWithKey keys.now result.front.held.items }
        ensures behind { IsBehindKey keys.now (let_through S.remaining result) }
        ensures decided { IsDecided keys.now (S.remaining source) result.admission
            (S.failures source) (S.failures result.source) }
        ensures told { Tells (text_for result.admission) (K.contents writer.old)
            (K.contents writer.new) (K.failures writer.old) (K.failures writer.new) }
    {
        let mut guard = KeyGuard {
            source,
            front: Front::new(alloc),
            given: 0,
            admission: Admission::NoLine,
        };
        guard.decide(alloc, keys);
        tell(writer, guard.admission);
        guard
    }

    /// Gives a session whatever comes, as the reader itself does: no key is asked for. Takes no memory, and reads nothing.
    pub fn without_keys(alloc: Global, source: S) -> KeyGuard<S>
        ensures bytes { let_through S.remaining result ≡ S.remaining source }
        ensures failures { S.failures result.source ≡ S.failures source }
        ensures admission { result.admission ≡ Admission.NotAsked }
    {
        KeyGuard {
            source,
            front: Front::new(alloc),
            given: 0,
            admission: Admission::NotAsked,
        }
    }

    // Reads the first bytes of the connection, and decides by them.
    fn decide(&mut self, alloc: Global, keys: &KeyTable)
        requires held { self.old.front.held.items ≡ [] }
        requires line { self.old.front.line ≡ no_line }
        requires none { self.old.given ≡ 0 }
        ensures guarded { IsGuarded keys.now (S.remaining self.old.source)
            (let_through S.remaining self.new) }
        ensures begun { is_admitted self.new.admission ≡ true
            → BeginWithKey keys.now self.new.front.held.items }
        ensures behind { IsBehindKey keys.now (let_through S.remaining self.new) }
        ensures decided { IsDecided keys.now (S.remaining self.old.source) self.new.admission
            (S.failures self.old.source) (S.failures self.new.source) }
    {
        self.admission = Admission::decide(alloc, keys, &mut self.source, &mut self.front);
    }

    /// What came of the first line.
    pub fn admission(&self) -> Admission
        ensures { result ≡ self.now.admission }
    {
        self.admission
    }
}

impl<S: Source> Source for KeyGuard<S> {
    ghost use Rattle.railway_keys.specs.Guards.{let_through};

    ghost remaining = { λ guard. let_through S.remaining guard };

    ghost failures = { λ guard. S.failures guard.source };

    fn pull(&mut self, buf: &mut [u8]) -> Result<usize, Failed> {
        if !self.admission.is_admitted() {
            return Ok(0);
        }
        let rest = self.front.after(self.given);
        if rest.is_empty() {
            return self.source.pull(buf);
        }
        let count = copy_front(rest, buf);
        self.given += count;
        Ok(count)
    }
}

// Copies as many of the bytes as there is room for, and answers how many.
fn copy_front(bytes: &[u8], room: &mut [u8]) -> usize
    ensures bound { result ≤ length bytes.now }
    ensures fits { result ≤ length room.new }
    ensures copied { take result room.new ≡ take result bytes.now }
    ensures none { result ≡ 0 → 0 < length room.new → length bytes.now ≡ 0 }
{
    let count = bytes.len().min(room.len());
    room[..count].copy_from_slice(&bytes[..count]);
    count
}
