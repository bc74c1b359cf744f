//! One line at a time: its answer, and what is written of it.
ghost use Rattle.std.specs.Prelude.{◌≡◌, ◌+◌, ◌<◌, ◌≤◌, ◌^◌, ◌∷◌, [], List, IfOk, OnOk, OnErr, IfErr};
ghost use Rattle.hub_model.specs.declared.entry.Entry.{Entry};
ghost use Rattle.call_lines.specs.declared.parsed.ParsedLine.TheVariants.{Called};
ghost use Rattle.call_lines.specs.Lines.{IsNotMemory};
ghost use Rattle.hub_replay.specs.Outcomes.{IsApplied};
ghost use Rattle.hub_replay.specs.Running.{AnswersLines, AnswersNoLine, Blames, line_total, run_state};

use crate::fault::RunFault;
use crate::output::{Output, write_all};
use call_lines::ParsedLine;
use hub_core::{Hub, HubFault};
use taf_codes::{Memory, Sink};
use taf_messages::{Call, Reply};

// From this many bytes on the lines that are pending are written.
const WRITE_THRESHOLD: usize = 32_768;

/// Answers a line.
pub(crate) fn answer_line<W: Sink>(
    writer: &mut W,
    hub: &mut Hub,
    output: &mut Output,
    line: ParsedLine,
) -> Result<(), RunFault>
    requires few { line_total output.old.counts < 2 ^ 62 }
    requires reportable { IsNotMemory line }
    ensures answers { AnswersLines result (run_state (W.contents writer.old) hub.old output.old)
        (run_state (W.contents writer.new) hub.new output.new) (line ∷ []) }
    ensures blames { Blames result (W.failures writer.old) (W.failures writer.new) }
    ensures counted { OnOk result (line_total output.new.counts
        ≤ line_total output.old.counts + 2) }
{
    match line {
        ParsedLine::Blank => Ok(()),
        ParsedLine::TooLong => output.push_fault_text(b"{\"fault\":\"line_too_long\"}"),
        ParsedLine::Fault(fault) => output.push_fault(&fault),
        ParsedLine::Called(call) => answer_call(writer, hub, output, call),
    }
}

// Gives a call to the hub, and writes its reply and what was pending. So of the calls in the
// history only the last may lack its reply's line.
fn answer_call<W: Sink>(
    writer: &mut W,
    hub: &mut Hub,
    output: &mut Output,
    call: Call,
) -> Result<(), RunFault>
    requires { line_total output.old.counts < 2 ^ 62 }
    ensures answers { AnswersLines result (run_state (W.contents writer.old) hub.old output.old)
        (run_state (W.contents writer.new) hub.new output.new) (Called call ∷ []) }
    ensures blames { Blames result (W.failures writer.old) (W.failures writer.new) }
    ensures counted { OnOk result (line_total output.new.counts
        ≤ line_total output.old.counts + 2) }
{
    match apply_call(hub, call)? {
        Some(reply) => {
            output.push_reply(&reply)?;
            let Ok(()) = write_all(writer, output.pending.as_slice()) else {
                return Err(RunFault::Write);
            };
            output.pending.clear();
            Ok(())
        }
        None => output.push_fault_text(b"{\"fault\":\"hub_full\"}"),
    }
}

// Gives a call to the hub. None where its history is full.
fn apply_call(hub: &mut Hub, call: Call) -> Result<Option<Reply>, Memory>
    ensures ok { IfOk result (λ reply. IsApplied hub.old call hub.new reply) }
    ensures err { OnErr result (hub.new ≡ hub.old) }
{
    match hub.apply(call) {
        Ok((_, reply)) => Ok(Some(reply)),
        Err(HubFault::Full(_)) => Ok(None),
        Err(HubFault::Memory) => Err(Memory),
    }
}

/// Writes what is pending.
pub(crate) fn write_pending<W: Sink>(writer: &mut W, output: &mut Output) -> Result<(), RunFault>
    ensures answers { AnswersNoLine result (W.contents writer.old) (W.contents writer.new)
        output.old output.new }
    ensures blames { Blames result (W.failures writer.old) (W.failures writer.new) }
    ensures counts { OnOk result (output.new.counts ≡ output.old.counts) }
    ensures empty { OnOk result (output.new.pending.items ≡ []) }
{
    let Ok(()) = write_all(writer, output.pending.as_slice()) else {
        return Err(RunFault::Write);
    };
    output.pending.clear();
    Ok(())
}

/// Writes what is pending, if it is much.
pub(crate) fn write_past_threshold<W: Sink>(
    writer: &mut W,
    output: &mut Output,
) -> Result<(), RunFault>
    ensures answers { AnswersNoLine result (W.contents writer.old) (W.contents writer.new)
        output.old output.new }
    ensures blames { Blames result (W.failures writer.old) (W.failures writer.new) }
    ensures counts { OnOk result (output.new.counts ≡ output.old.counts) }
{
    if output.pending.len() >= WRITE_THRESHOLD {
        return write_pending(writer, output);
    }
    Ok(())
}

/// Writes what is pending, and has the writer send it on.
pub(crate) fn flush<W: Sink>(writer: &mut W, output: &mut Output) -> Result<(), RunFault>
    ensures answers { AnswersNoLine result (W.contents writer.old) (W.contents writer.new)
        output.old output.new }
    ensures blames { Blames result (W.failures writer.old) (W.failures writer.new) }
    ensures counts { OnOk result (output.new.counts ≡ output.old.counts) }
    ensures empty { OnOk result (output.new.pending.items ≡ []) }
{
    write_pending(writer, output)?;
    match writer.flush() {
        Ok(()) => Ok(()),
        Err(_) => Err(RunFault::Write),
    }
}
