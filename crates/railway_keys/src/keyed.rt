//! The connections of a service, each with a guard before its session.
ghost use Rattle.std.specs.Prelude.{◌≡◌, is_some, true, if◌then◌else◌, option_map, IfSome};
ghost use Rattle.railway_keys.specs.Admissions.{is_admitted, text_for};
ghost use Rattle.railway_keys.specs.FirstAnswers.{failures_of};
ghost use Rattle.railway_keys.specs.Guards.{let_through, BeginWithKey, IsBehindKey, IsBehindKeyIf, IsDecided, IsGuarded, Tells};
ghost use Rattle.railway_keys.specs.declared.hello_writer.FirstAnswer.TheVariants as answers;

use crate::admission::Admission;
use crate::guard::KeyGuard;
use crate::hello_writer::HelloWriter;
use crate::table::KeyTable;
use connections::Connections;
use std::alloc::Global;
use taf_codes::{Sink, Source};

/// Brings the connections that another brings, each with a guard before its reader where there is a table of keys.
#[derive(Drop)]
pub struct KeyedConnections<'a, C> {
    alloc: Global,
    keys: Option<&'a KeyTable>,
    connections: C,
}

impl<'a, C: Connections> KeyedConnections<'a, C> {
    /// Those of `connections`. With a table a session begins only with a key of it, and with none it is given whatever comes.
    pub fn new(alloc: Global, keys: Option<&'a KeyTable>, connections: C) -> KeyedConnections<'a, C>
        ensures keys { option_map (λ k. k.now) result.keys ≡ option_map (λ k. k.now) keys.entry }
        ensures connections { result.connections ≡ connections }
    {
        KeyedConnections {
            alloc,
            keys,
            connections,
        }
    }
}

impl<'a, C: Connections> Connections for KeyedConnections<'a, C> {
    type Reader = KeyGuard<C::Reader>;

    type Writer = HelloWriter<C::Writer>;

    /// The next connection. With a table it waits for the first line of it.
    fn next(&mut self) -> Option<(KeyGuard<C::Reader>, HelloWriter<C::Writer>)>
        ensures keys { option_map (λ k. k.now) self.new.keys
            ≡ option_map (λ k. k.now) self.old.keys }
        ensures behind { IfSome result (λ ends. IsBehindKeyIf
            (option_map (λ k. k.now) self.old.keys) (let_through C.Reader.remaining ends.0)) }
        ensures answer { IfSome result (λ ends. ends.1.answer
            ≡ (if is_some self.old.keys then answers.Awaited else answers.Hello)) }
    {
        let (reader, writer) = self.connections.next()?;
        match self.keys {
            Some(keys) => Some(with_key(self.alloc, keys, reader, writer)),
            None => Some(without_keys(self.alloc, reader, writer)),
        }
    }
}

// The two ends of a connection as its session has them, which is to begin with a key of the table. It waits for the first line.
fn with_key<S: Source, K: Sink>(
    alloc: Global,
    keys: &KeyTable,
    reader: S,
    writer: K,
) -> (KeyGuard<S>, HelloWriter<K>)
    ensures guarded { IsGuarded keys.now (S.remaining reader)
        (let_through S.remaining result.0) }
    ensures begun { is_admitted result.0.admission ≡ true
        → BeginWithKey keys.now result.0.front.held.items }
    ensures behind { IsBehindKey keys.now (let_through S.remaining result.0) }
    ensures decided { IsDecided keys.now (S.remaining reader) result.0.admission
        (S.failures reader) (S.failures result.0.source) }
    ensures told { Tells (text_for result.0.admission) (K.contents writer)
        (K.contents result.1.writer) (K.failures writer) (failures_of K.failures result.1) }
    ensures answer { result.1.answer ≡ answers.Awaited }
{
    let mut writer = writer;
    let guard = KeyGuard::admit(alloc, keys, reader, &mut writer);
    (guard, HelloWriter::new(writer))
}

// The same of a session that is asked for no key.
fn without_keys<S: Source, K: Sink>(
    alloc: Global,
    reader: S,
    writer: K,
) -> (KeyGuard<S>, HelloWriter<K>)
    ensures bytes { let_through S.remaining result.0 ≡ S.remaining reader }
    ensures reading { S.failures result.0.source ≡ S.failures reader }
    ensures admission { result.0.admission ≡ Admission.NotAsked }
    ensures contents { K.contents result.1.writer ≡ K.contents writer }
    ensures writing { failures_of K.failures result.1 ≡ K.failures writer }
    ensures answer { result.1.answer ≡ answers.Hello }
{
    (
        KeyGuard::without_keys(alloc, reader),
        HelloWriter::without_keys(writer),
    )
}
