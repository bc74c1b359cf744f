//! What is still done after a fault.
ghost use Rattle.std.specs.Prelude.{◌≡◌, ◌≢◌, ◌<◌, ◌+◌, [], true, length};
ghost use Rattle.std.specs.Bool.{MatchBool};
ghost use Rattle.session_serving.specs.Advances.{Discards};
ghost use Rattle.session_serving.specs.Output.{HasRoom};
ghost use Rattle.session_serving.specs.Serving.{exchange_of, StillServes};
ghost use Rattle.session_serving.specs.Faults.{IsEmptied, StillExplains};

use crate::fault::SessionFault;
use crate::output::write_out;
use crate::port::Port;
use session_lines::Session;
use taf_codes::Sink;

// Empties the slot in front, and nothing is written. False where the port fails.
fn drop_front<P: Port>(port: &mut P, session: &mut Session) -> bool
    requires some { session.old.slots ≢ [] }
    ensures discards { Discards session.old session.new }
    ensures fewer { result ≡ true → length session.new.slots < length session.old.slots }
    ensures port { (P.session port.new ≡ P.session port.old) × (P.sent port.new ≡ P.sent port.old) }
    ensures counted { MatchBool result (P.failures port.new ≡ P.failures port.old)
        (P.failures port.new ≡ P.failures port.old + 1) }
{
    if !session.has_job_in_front() {
        let _ = session.next_held();
        return true;
    }
    let Ok(done) = port.next() else {
        return false;
    };
    let _ = session.on_done(done);
    true
}

// Takes the answers of the jobs that are out, and nothing is written. It stops early only where the
// port fails.
fn drop_all<P: Port>(port: &mut P, session: &mut Session)
    ensures discards { Discards session.old session.new }
    ensures port { (P.session port.new ≡ P.session port.old) × (P.sent port.new ≡ P.sent port.old) }
    ensures emptied { IsEmptied (P.failures port.old) (P.failures port.new) session.new.slots }
{
    while !session.is_idle() {
        if !drop_front(port, session) {
            return;
        }
    }
}

/// What is done after a fault. After one of the reader, the writer or their bytes the answers of
/// the jobs that are out are taken, and nothing is written. After one of the port what is pending
/// is written.
pub(crate) fn end_with<K: Sink, P: Port>(
    fault: SessionFault,
    writer: &mut K,
    out: &mut Vec<u8>,
    port: &mut P,
    session: &mut Session,
)
    requires fits { HasRoom out.old }
    ensures serves { StillServes fault
        (exchange_of session.old (K.contents writer.old) out.old.items (P.sent port.old))
        (exchange_of session.new (K.contents writer.new) out.new.items (P.sent port.new)) }
    ensures port { P.session port.new ≡ P.session port.old }
    ensures explains { StillExplains fault (K.failures writer.old) (K.failures writer.new)
        (P.failures port.old) (P.failures port.new) session.new.slots }
{
    match fault {
        SessionFault::Read => drop_all(port, session),
        SessionFault::Write => drop_all(port, session),
        SessionFault::NoEnd => drop_all(port, session),
        SessionFault::Port => {
            let _ = write_out(writer, out);
        }
        SessionFault::Memory => {}
    }
}
