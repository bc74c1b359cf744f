//! What was read at once.
ghost use Rattle.std.specs.Prelude.{◌≡◌, ◌<◌, ◌≤◌, ◌+◌, ◌^◌, ◌∷◌, [], None, true, false, length};
ghost use Rattle.inbox.specs.declared.rule.Job.{Job};
ghost use Rattle.session_lines.specs.declared.session.Step.TheVariants.{Ask, Ended};
ghost use Rattle.session_lines.specs.Steps.{front_line};
ghost use Rattle.session_lines.specs.Runs.{step_jobs, step_lines};
ghost use Rattle.session_serving.specs.Bytes.{cut_after};
ghost use Rattle.session_serving.specs.Advances.{Advances};
ghost use Rattle.session_serving.specs.Output.{HasRoom, HaveRoom};
ghost use Rattle.session_serving.specs.Serving.{exchange_of, IsReady, IsReadyOrOver, IsIdleOrOver, Serves, ServesFirst};
ghost use Rattle.session_serving.specs.Faults.{Blames, goes_on, sends_all, writes_all};

use crate::answers::{make_room, take_all};
use crate::fault::SessionFault;
use crate::lines::next_line;
use crate::output::put_line;
use crate::port::Port;
use session_lines::{Session, Step};
use taf_codes::{Failed, Sink};

/// What a session keeps between reads: the beginning of a line, and what is still to be written.
#[derive(Drop)]
pub(crate) struct Buffers {
    pub(crate) line: Vec<u8>,
    pub(crate) out: Vec<u8>,
}

// Gives the session a line.
fn take_line(session: &mut Session, line: &[u8]) -> Step
    requires free { length session.old.slots < 16 }
    requires sound { session.old.has_failed ≡ false }
    requires room { session.old.job_count < 2 ^ 62 }
    ensures advances { Advances session.old (line.now ∷ []) (step_jobs result) (step_lines result)
        session.new }
    ensures count { session.new.job_count ≤ session.old.job_count + 1 }
    ensures front { front_line session.old.slots ≡ None → front_line session.new.slots ≡ None }
    ensures id { session.new.id ≡ session.old.id }
    ensures job { (job : Job) → result ≡ Ask job → job.session ≡ session.old.id }
{
    session.on_line(line)
}

// Gives the session a line, and puts what it says or sends its job.
fn give_line<K: Sink, P: Port>(
    writer: &mut K,
    out: &mut Vec<u8>,
    port: &mut P,
    session: &mut Session,
    line: &[u8],
) -> Result<(), SessionFault>
    requires free { length session.old.slots < 16 }
    requires ready { IsReady session.old }
    requires room { session.old.job_count < 2 ^ 62 }
    requires mine { session.old.id ≡ P.session port.old }
    requires fits { HasRoom out.old }
    ensures serves { Serves
        (exchange_of session.old (K.contents writer.old) out.old.items (P.sent port.old))
        (line.now ∷ [])
        (exchange_of session.new (K.contents writer.new) out.new.items (P.sent port.new))
        (writes_all result) (sends_all result) }
    ensures blames { Blames result (K.failures writer.old) (K.failures writer.new)
        (P.failures port.old) (P.failures port.new) }
    ensures count { session.new.job_count ≤ session.old.job_count + 1 }
    ensures mine { (session.new.id ≡ session.old.id) × (P.session port.new ≡ P.session port.old) }
    ensures on { front_line session.new.slots ≡ None }
    ensures fits { HasRoom out.new }
{
    match take_line(session, line) {
        Step::Nothing => Ok(()),
        Step::Held => Ok(()),
        Step::Ended => Ok(()),
        Step::Say(said) => match put_line(writer, out, &said) {
            Ok(()) => Ok(()),
            Err(Failed) => Err(SessionFault::Write),
        },
        Step::Ask(job) => match port.send(job) {
            Ok(()) => Ok(()),
            Err(_) => Err(SessionFault::Port),
        },
    }
}

// A line has ended: the session takes it in. False where the session is over.
fn end_line<K: Sink, P: Port>(
    writer: &mut K,
    port: &mut P,
    session: &mut Session,
    buffers: &mut Buffers,
) -> Result<bool, SessionFault>
    requires ready { IsReady session.old }
    requires room { session.old.job_count < 2 ^ 62 }
    requires mine { session.old.id ≡ P.session port.old }
    requires fits { HaveRoom buffers.old }
    ensures serves { ServesFirst
        (exchange_of session.old (K.contents writer.old) buffers.old.out.items (P.sent port.old))
        (buffers.old.line.items ∷ [])
        (exchange_of session.new (K.contents writer.new) buffers.new.out.items (P.sent port.new))
        (writes_all result) (sends_all result) (goes_on result) }
    ensures blames { Blames result (K.failures writer.old) (K.failures writer.new)
        (P.failures port.old) (P.failures port.new) }
    ensures rest { goes_on result ≡ true → buffers.new.line.items ≡ [] }
    ensures count { session.new.job_count ≤ session.old.job_count + 1 }
    ensures mine { (session.new.id ≡ session.old.id) × (P.session port.new ≡ P.session port.old) }
    ensures ready { IsReadyOrOver result session.new }
    ensures fits { HaveRoom buffers.new }
{
    match make_room(writer, &mut buffers.out, port, session) {
        Ok(true) => {}
        Ok(false) => return Ok(false),
        Err(fault) => return Err(fault),
    }
    match give_line(
        writer,
        &mut buffers.out,
        port,
        session,
        buffers.line.as_slice(),
    ) {
        Ok(()) => {}
        Err(fault) => return Err(fault),
    }
    buffers.line.clear();
    Ok(!session.has_failed())
}

/// Bytes that were read, and then all answers. False where the session is over.
pub(crate) fn serve_chunk<K: Sink, P: Port>(
    writer: &mut K,
    port: &mut P,
    session: &mut Session,
    buffers: &mut Buffers,
    chunk: &[u8],
) -> Result<bool, SessionFault>
    requires ready { IsReady session.old }
    requires room { session.old.job_count + length chunk.now < 2 ^ 62 }
    requires mine { session.old.id ≡ P.session port.old }
    requires fits { HaveRoom buffers.old }
    ensures serves { ServesFirst
        (exchange_of session.old (K.contents writer.old) buffers.old.out.items (P.sent port.old))
        (cut_after buffers.old.line.items chunk.now).whole
        (exchange_of session.new (K.contents writer.new) buffers.new.out.items (P.sent port.new))
        (writes_all result) (sends_all result) (goes_on result) }
    ensures blames { Blames result (K.failures writer.old) (K.failures writer.new)
        (P.failures port.old) (P.failures port.new) }
    ensures rest { goes_on result ≡ true
        → buffers.new.line.items ≡ (cut_after buffers.old.line.items chunk.now).rest }
    ensures count { session.new.job_count ≤ session.old.job_count + length chunk.now }
    ensures mine { (session.new.id ≡ session.old.id) × (P.session port.new ≡ P.session port.old) }
    ensures idle { IsIdleOrOver result session.new }
    ensures fits { HaveRoom buffers.new }
{
    let mut from = 0;
    while let Some(end) = next_line(&mut buffers.line, chunk, from) {
        match end_line(writer, port, session, buffers) {
            Ok(true) => {}
            Ok(false) => return Ok(false),
            Err(fault) => return Err(fault),
        }
        from = end;
    }
    take_all(writer, &mut buffers.out, port, session)
}
