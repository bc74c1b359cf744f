//! Answers taken from a port.
ghost use Rattle.std.specs.Prelude.{◌≡◌, ◌<◌, ◌≤◌, [], None, true, length, OnOk, is_ok};
ghost use Rattle.session_lines.specs.Steps.{is_job_in_front, front_line};
ghost use Rattle.session_serving.specs.Output.{output_of, Writes, Says, HasRoom};
ghost use Rattle.session_serving.specs.Serving.{IsReady, IsReadyOrOver, IsIdleOrOver};
ghost use Rattle.session_serving.specs.Faults.{Blames, CountsFailure, goes_on, writes_all};

use crate::fault::SessionFault;
use crate::output::{put_line, write_out};
use crate::port::Port;
use session_lines::{Done, Session};
use taf_codes::{Failed, Sink};

// Takes a Done, and puts its line.
fn answer<K: Sink>(
    writer: &mut K,
    out: &mut Vec<u8>,
    session: &mut Session,
    done: Done,
) -> Result<(), Failed>
    requires job { is_job_in_front session.old.slots ≡ true }
    requires fits { HasRoom out.old }
    ensures says { Says session.old (output_of (K.contents writer.old) out.old.items)
        session.new (output_of (K.contents writer.new) out.new.items) (is_ok result) }
    ensures failures { CountsFailure result (K.failures writer.old) (K.failures writer.new) }
    ensures fewer { length session.new.slots < length session.old.slots }
    ensures fits { HasRoom out.new }
{
    let line = session.on_done(done);
    let put = put_line(writer, out, &line);
    session.take_back(line);
    put
}

// Puts the lines that were held until now.
fn put_held<K: Sink>(writer: &mut K, out: &mut Vec<u8>, session: &mut Session) -> Result<(), Failed>
    requires fits { HasRoom out.old }
    ensures says { Says session.old (output_of (K.contents writer.old) out.old.items)
        session.new (output_of (K.contents writer.new) out.new.items) (is_ok result) }
    ensures front { OnOk result (front_line session.new.slots ≡ None) }
    ensures failures { CountsFailure result (K.failures writer.old) (K.failures writer.new) }
    ensures sound { session.new.has_failed ≡ session.old.has_failed }
    ensures fewer { length session.new.slots ≤ length session.old.slots }
    ensures fits { HasRoom out.new }
{
    while let Some(line) = session.next_held() {
        match put_line(writer, out, &line) {
            Ok(()) => {}
            Err(Failed) => return Err(Failed),
        }
    }
    Ok(())
}

// Waits until the jobs that are out are answered, unless so many answers are there. What is pending
// is written before.
#[tactic(auto, using(crate::proofs::WriteLemmas::writes_none))]
fn await_answers<K: Sink, P: Port>(
    writer: &mut K,
    out: &mut Vec<u8>,
    port: &P,
    session: &Session,
    count: u64,
) -> Result<(), Failed>
    requires fits { HasRoom out.old }
    ensures writes { Writes (output_of (K.contents writer.old) out.old.items)
        (output_of (K.contents writer.new) out.new.items) (is_ok result) [] }
    ensures failures { CountsFailure result (K.failures writer.old) (K.failures writer.new) }
    ensures fits { HasRoom out.new }
{
    if port.is_ready(count) {
        return Ok(());
    }
    let written = write_out(writer, out);
    port.wait_for(session.jobs_out());
    written
}

/// Takes the next answer, and puts its line and those that were held behind it. It waits where fewer
/// answers are there than so many. False where the session has failed.
pub(crate) fn take_next<K: Sink, P: Port>(
    writer: &mut K,
    out: &mut Vec<u8>,
    port: &mut P,
    session: &mut Session,
    count: u64,
) -> Result<bool, SessionFault>
    requires job { is_job_in_front session.old.slots ≡ true }
    requires fits { HasRoom out.old }
    ensures says { Says session.old (output_of (K.contents writer.old) out.old.items)
        session.new (output_of (K.contents writer.new) out.new.items) (writes_all result) }
    ensures blames { Blames result (K.failures writer.old) (K.failures writer.new)
        (P.failures port.old) (P.failures port.new) }
    ensures port { (P.session port.new ≡ P.session port.old) × (P.sent port.new ≡ P.sent port.old) }
    ensures fewer { OnOk result (length session.new.slots < length session.old.slots) }
    ensures ready { IsReadyOrOver result session.new }
    ensures fits { HasRoom out.new }
{
    let Ok(()) = await_answers(writer, out, port, session, count) else {
        return Err(SessionFault::Write);
    };
    let Ok(done) = port.next() else {
        return Err(SessionFault::Port);
    };
    let Ok(()) = answer(writer, out, session, done) else {
        return Err(SessionFault::Write);
    };
    if session.has_failed() {
        return Ok(false);
    }
    let Ok(()) = put_held(writer, out, session) else {
        return Err(SessionFault::Write);
    };
    Ok(true)
}

/// Takes an answer where all slots are taken. False where the session has failed.
#[tactic(auto, using(crate::proofs::EventLemmas::full_has_job, crate::proofs::EventLemmas::no_slot, crate::proofs::ServeLemmas::says_none))]
pub(crate) fn make_room<K: Sink, P: Port>(
    writer: &mut K,
    out: &mut Vec<u8>,
    port: &mut P,
    session: &mut Session,
) -> Result<bool, SessionFault>
    requires ready { IsReady session.old }
    requires fits { HasRoom out.old }
    ensures says { Says session.old (output_of (K.contents writer.old) out.old.items)
        session.new (output_of (K.contents writer.new) out.new.items) (writes_all result) }
    ensures blames { Blames result (K.failures writer.old) (K.failures writer.new)
        (P.failures port.old) (P.failures port.new) }
    ensures port { (P.session port.new ≡ P.session port.old) × (P.sent port.new ≡ P.sent port.old) }
    ensures ready { IsReadyOrOver result session.new }
    ensures free { goes_on result ≡ true → length session.new.slots < 16 }
    ensures fits { HasRoom out.new }
{
    if !session.busy() {
        return Ok(true);
    }
    take_next(writer, out, port, session, 1)
}

/// Takes all answers. False where the session has failed.
#[tactic(auto, using(crate::proofs::EventLemmas::full_has_job, crate::proofs::EventLemmas::no_slot))]
pub(crate) fn take_all<K: Sink, P: Port>(
    writer: &mut K,
    out: &mut Vec<u8>,
    port: &mut P,
    session: &mut Session,
) -> Result<bool, SessionFault>
    requires ready { IsReady session.old }
    requires fits { HasRoom out.old }
    ensures says { Says session.old (output_of (K.contents writer.old) out.old.items)
        session.new (output_of (K.contents writer.new) out.new.items) (writes_all result) }
    ensures blames { Blames result (K.failures writer.old) (K.failures writer.new)
        (P.failures port.old) (P.failures port.new) }
    ensures port { (P.session port.new ≡ P.session port.old) × (P.sent port.new ≡ P.sent port.old) }
    ensures idle { IsIdleOrOver result session.new }
    ensures fits { HasRoom out.new }
{
    while session.has_job_in_front() {
        let count = session.jobs_out();
        match take_next(writer, out, port, session, count) {
            Ok(true) => {}
            Ok(false) => return Ok(false),
            Err(fault) => return Err(fault),
        }
    }
    Ok(true)
}
