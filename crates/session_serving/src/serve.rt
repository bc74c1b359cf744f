//! A session from its reader's first byte to the end.
ghost use Rattle.std.specs.Prelude.{◌≡◌, ◌≢◌, ◌<◌, ◌≤◌, ◌+◌, [], false, length, vec_capacity, Err, IfOk, OnOk};
ghost use Rattle.std.specs.Io.KnownBytes.{ReadConsumes, IsAtEnd};
ghost use Rattle.session_serving.specs.Bytes.{max_kept};
ghost use Rattle.session_serving.specs.Output.{HasRoom};
ghost use Rattle.session_serving.specs.Serving.{exchange_of, traffic_of, IsServed, ReadsLines};
ghost use Rattle.session_serving.specs.Faults.{CountsFailure, FirstFails, Explains, failures_of};

use crate::chunk::{Buffers, serve_chunk};
use crate::ending::end_with;
use crate::fault::SessionFault;
use crate::lines::MAX_KEPT;
use crate::output::{MAX_PENDING, write_out};
use crate::port::Port;
use session_lines::Session;
use std::alloc::Global;
use taf_codes::{Failed, Memory, Sink, Source};

// How many bytes of a reader are read at most.
const MAX_BYTES: u64 = 1 << 40;

// How many bytes are read at once at most.
const ROOM: usize = 16_384;

// Empty buffers with all the room that they will need.
#[tactic(auto, using(crate::proofs::CutLemmas::is_max_kept))]
fn new_buffers(alloc: Global) -> Result<Buffers, Memory>
    ensures line { IfOk result (λ b. (b.line.items ≡ []) × (max_kept ≤ vec_capacity b.line)) }
    ensures out { IfOk result (λ b. (b.out.items ≡ []) × HasRoom b.out) }
{
    let line = empty_buffer(alloc, MAX_KEPT)?;
    let out = empty_buffer(alloc, MAX_PENDING)?;
    Ok(Buffers { line, out })
}

fn empty_buffer(alloc: Global, size: usize) -> Result<Vec<u8>, Memory>
    ensures { IfOk result (λ v. (v.items ≡ []) × (size ≤ vec_capacity v)) }
{
    Ok(Vec::with_capacity(alloc, size)?)
}

// Reads more. The reader is asked only while no job is out, so it may wait.
fn read_more<S: Source>(reader: &mut S, session: &Session, room: &mut [u8]) -> Result<usize, Failed>
    requires idle { session.now.slots ≡ [] }
    ensures bound { IfOk result (λ n. n ≤ length room.new) }
    ensures bytes { ReadConsumes (S.remaining reader.old) (S.remaining reader.new) result room.new }
    ensures end { IfOk result (λ n. n ≡ 0 → 0 < length room.new
        → IsAtEnd (S.remaining reader.new)) }
    ensures failures { CountsFailure result (S.failures reader.old) (S.failures reader.new) }
{
    let _session = session;
    reader.pull(room)
}

// Reads to the end, or to a fault. All that was said is written before the next read.
fn serve_reader<S: Source, K: Sink, P: Port>(
    reader: &mut S,
    writer: &mut K,
    port: &mut P,
    session: &mut Session,
    buffers: &mut Buffers,
) -> Result<(), SessionFault>
    requires new { (session.old.job_count ≡ 0) × (session.old.slots ≡ []) }
    requires sound { session.old.has_failed ≡ false }
    requires mine { session.old.id ≡ P.session port.old }
    requires line { (buffers.old.line.items ≡ []) × (max_kept ≤ vec_capacity buffers.old.line) }
    requires out { (buffers.old.out.items ≡ []) × HasRoom buffers.old.out }
    ensures reads { ReadsLines
        (exchange_of session.old (K.contents writer.old) buffers.old.out.items (P.sent port.old))
        (S.remaining reader.old) (S.remaining reader.new)
        (exchange_of session.new (K.contents writer.new) buffers.new.out.items (P.sent port.new))
        result }
    ensures fails { FirstFails result (S.failures reader.old) (S.failures reader.new)
        (K.failures writer.old) (K.failures writer.new)
        (P.failures port.old) (P.failures port.new) }
    ensures memory { result ≢ Err SessionFault.Memory }
    ensures written { OnOk result (buffers.new.out.items ≡ []) }
    ensures none { OnOk result (session.new.slots ≡ []) }
    ensures port { P.session port.new ≡ P.session port.old }
    ensures fits { HasRoom buffers.new.out }
{
    let mut room = [0; ROOM];
    let mut total: u64 = 0;
    while total < MAX_BYTES {
        let most = (MAX_BYTES - total).min(ROOM as u64) as usize;
        let part = &mut room[..most];
        let Ok(count) = read_more(reader, session, part) else {
            return Err(SessionFault::Read);
        };
        if count == 0 {
            return Ok(());
        }
        let on = match serve_chunk(writer, port, session, buffers, &part[..count]) {
            Ok(on) => on,
            Err(fault) => return Err(fault),
        };
        let Ok(()) = write_out(writer, &mut buffers.out) else {
            return Err(SessionFault::Write);
        };
        if !on {
            return Ok(());
        }
        total += count as u64;
    }
    Err(SessionFault::NoEnd)
}

/// Serves the lines of the reader until its end, or until a stranger's answer came.
///
/// Each whole line is given to the session, of one that is longer than 65,536 bytes the first
/// 65,537; a last line without newline is dropped. The jobs are sent in order, and what the session
/// says is written with a newline after each line. It reads only while no job is out, and writes
/// all that is pending before it reads. After a stranger's answer the line that tells it is the
/// last one, and the answer is Ok. After a fault of the reader or the writer, and after
/// [`SessionFault::NoEnd`], it takes the answers of the jobs that are out and writes nothing more;
/// after one of the port it writes what is pending. Each is the first that came.
/// [`SessionFault::Memory`] comes only before the first read.
///
/// It may wait where the reader, the writer or the port does.
pub fn serve_session<S: Source, K: Sink, P: Port>(
    alloc: Global,
    reader: &mut S,
    writer: &mut K,
    port: &mut P,
    session: &mut Session,
) -> Result<(), SessionFault>
    requires new { (session.old.job_count ≡ 0) × (session.old.slots ≡ []) }
    requires mine { session.old.id ≡ P.session port.old }
    ensures served { IsServed session.old session.new
        (traffic_of (S.remaining reader.old) (K.contents writer.old) (P.sent port.old))
        (traffic_of (S.remaining reader.new) (K.contents writer.new) (P.sent port.new)) result }
    ensures explains { Explains result
        (failures_of (S.failures reader.old) (K.failures writer.old) (P.failures port.old))
        (failures_of (S.failures reader.new) (K.failures writer.new) (P.failures port.new))
        session.new.slots }
    ensures memory { result ≡ Err SessionFault.Memory → (reader.new ≡ reader.old)
        × (writer.new ≡ writer.old) × (port.new ≡ port.old) × (session.new ≡ session.old) }
    ensures port { P.session port.new ≡ P.session port.old }
{
    let Ok(mut buffers) = new_buffers(alloc) else {
        return Err(SessionFault::Memory);
    };
    if session.has_failed() {
        return Ok(());
    }
    match serve_reader(reader, writer, port, session, &mut buffers) {
        Ok(()) => Ok(()),
        Err(fault) => {
            end_with(fault, writer, &mut buffers.out, port, session);
            Err(fault)
        }
    }
}
