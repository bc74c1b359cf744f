//! Lines on their way to a writer.
ghost use Rattle.std.specs.Prelude.{◌≡◌, ◌+◌, ◌≤◌, ◌++◌, ◌∷◌, [], ℕ, List, length, vec_len, is_ok, OnOk, OnErr};
ghost use Rattle.std.specs.Io.KnownBytes.{Appends};
ghost use Rattle.session_serving.specs.Output.{output_of, Writes, HasRoom};
ghost use Rattle.session_serving.specs.Faults.{CountsFailure};

use session_lines::Line;
use taf_codes::{Failed, Sink};

/// How many bytes are pending at most.
pub(crate) const MAX_PENDING: usize = 65_536;

// Writes all of the bytes. Where the writer fails, it took a front of them.
fn write_all<K: Sink>(writer: &mut K, bytes: &[u8]) -> Result<(), Failed>
    ensures ok { OnOk result (Appends (K.contents writer.old) (K.contents writer.new) bytes.now) }
    ensures err { OnErr result ((front rest : List ℕ) × (bytes.now ≡ front ++ rest)
        × Appends (K.contents writer.old) (K.contents writer.new) front) }
    ensures failures { CountsFailure result (K.failures writer.old) (K.failures writer.new) }
{
    let mut rest = bytes;
    while !rest.is_empty() {
        let count = writer.push(rest)?;
        rest = &rest[count..];
    }
    Ok(())
}

// Writes what is pending.
fn write_pending<K: Sink>(writer: &mut K, out: &mut Vec<u8>) -> Result<(), Failed>
    requires fits { HasRoom out.old }
    ensures writes { Writes (output_of (K.contents writer.old) out.old.items)
        (output_of (K.contents writer.new) out.new.items) (is_ok result) [] }
    ensures empty { OnOk result (out.new.items ≡ []) }
    ensures fits { HasRoom out.new }
    ensures failures { CountsFailure result (K.failures writer.old) (K.failures writer.new) }
{
    match write_all(writer, out.as_slice()) {
        Ok(()) => {
            out.clear();
            Ok(())
        }
        Err(failed) => Err(failed),
    }
}

/// Writes what is pending, and has the writer send it on.
pub(crate) fn write_out<K: Sink>(writer: &mut K, out: &mut Vec<u8>) -> Result<(), Failed>
    requires fits { HasRoom out.old }
    ensures writes { Writes (output_of (K.contents writer.old) out.old.items)
        (output_of (K.contents writer.new) out.new.items) (is_ok result) [] }
    ensures empty { OnOk result (out.new.items ≡ []) }
    ensures fits { HasRoom out.new }
    ensures failures { CountsFailure result (K.failures writer.old) (K.failures writer.new) }
{
    match write_pending(writer, out) {
        Ok(()) => writer.flush(),
        Err(failed) => Err(failed),
    }
}

// Holds the bytes back.
fn hold(out: &mut Vec<u8>, bytes: &[u8])
    requires fits { HasRoom out.old }
    requires room { vec_len out.old + length bytes.now ≤ 65536 }
    ensures items { out.new.items ≡ out.old.items ++ bytes.now }
    ensures fits { HasRoom out.new }
{
    let _ = out.extend_from_slice(bytes);
}

// Holds the bytes back, and writes where that is too much.
fn put<K: Sink>(writer: &mut K, out: &mut Vec<u8>, bytes: &[u8]) -> Result<(), Failed>
    requires fits { HasRoom out.old }
    ensures writes { Writes (output_of (K.contents writer.old) out.old.items)
        (output_of (K.contents writer.new) out.new.items) (is_ok result) bytes.now }
    ensures fits { HasRoom out.new }
    ensures failures { CountsFailure result (K.failures writer.old) (K.failures writer.new) }
{
    if bytes.len() <= MAX_PENDING - out.len() {
        hold(out, bytes);
        return Ok(());
    }
    match write_pending(writer, out) {
        Ok(()) => put_apart(writer, out, bytes),
        Err(failed) => Err(failed),
    }
}

// Holds the bytes back where nothing is pending, or writes them if they are too many.
fn put_apart<K: Sink>(writer: &mut K, out: &mut Vec<u8>, bytes: &[u8]) -> Result<(), Failed>
    requires fits { HasRoom out.old }
    requires empty { out.old.items ≡ [] }
    ensures writes { Writes (output_of (K.contents writer.old) out.old.items)
        (output_of (K.contents writer.new) out.new.items) (is_ok result) bytes.now }
    ensures fits { HasRoom out.new }
    ensures failures { CountsFailure result (K.failures writer.old) (K.failures writer.new) }
{
    if bytes.len() <= MAX_PENDING - out.len() {
        hold(out, bytes);
        return Ok(());
    }
    write_all(writer, bytes)
}

/// Puts a line and its newline behind what is pending.
pub(crate) fn put_line<K: Sink>(
    writer: &mut K,
    out: &mut Vec<u8>,
    line: &Line,
) -> Result<(), Failed>
    requires fits { HasRoom out.old }
    ensures writes { Writes (output_of (K.contents writer.old) out.old.items)
        (output_of (K.contents writer.new) out.new.items) (is_ok result) (line.now ++ 10 ∷ []) }
    ensures fits { HasRoom out.new }
    ensures failures { CountsFailure result (K.failures writer.old) (K.failures writer.new) }
{
    match put(writer, out, line.bytes()) {
        Ok(()) => put(writer, out, b"\n"),
        Err(failed) => Err(failed),
    }
}
