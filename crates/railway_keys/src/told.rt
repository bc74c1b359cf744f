//! What a client is told before a session.
ghost use Rattle.std.specs.Prelude.{◌≡◌, ◌+◌, ◌++◌, ℕ, List, is_ok, if◌then◌else◌, OnOk, OnErr};
ghost use Rattle.std.specs.Io.KnownBytes.{Appends};
ghost use Rattle.railway_keys.specs.Admissions.{text_for};
ghost use Rattle.railway_keys.specs.Guards.{Tells};

use crate::admission::Admission;
use taf_codes::{Failed, Sink};

/// Tells the client what came of its first line, where that is to be told.
pub(crate) fn tell<K: Sink>(writer: &mut K, admission: Admission)
    ensures { Tells (text_for admission) (K.contents writer.old)
        (K.contents writer.new) (K.failures writer.old) (K.failures writer.new) }
{
    let text = admission.text();
    if text.is_empty() {
        return;
    }
    if write_all(writer, text).is_ok() {
        let _ = writer.flush();
    }
}

// Writes all of the bytes. Where the writer fails, it took a front of them.
fn write_all<K: Sink>(writer: &mut K, bytes: &[u8]) -> Result<(), Failed>
    ensures ok { OnOk result (Appends (K.contents writer.old) (K.contents writer.new) bytes.now) }
    ensures err { OnErr result ((front rest : List ℕ) × (bytes.now ≡ front ++ rest)
        × Appends (K.contents writer.old) (K.contents writer.new) front) }
    ensures counted { K.failures writer.new
        ≡ (if is_ok result then K.failures writer.old else K.failures writer.old + 1) }
{
    let mut rest = bytes;
    while !rest.is_empty() {
        let count = writer.push(rest)?;
        rest = &rest[count..];
    }
    Ok(())
}
