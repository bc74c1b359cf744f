//! What is still to be written, and what was counted.
ghost use Rattle.std.specs.Prelude.{◌≡◌, ◌≢◌, ◌+◌, ◌<◌, ◌≤◌, ◌^◌, ◌++◌, ◌∷◌, [], List, ℕ, OnOk, OnErr, IfErr};
ghost use Rattle.std.specs.Io.KnownBytes.{Appends};
ghost use Rattle.taf_messages.specs.declared.fault.RecordFault.TheVariants.{Memory as NoMemory};
ghost use Rattle.call_lines.specs.Lines.{fault_text, reply_text};
ghost use Rattle.hub_replay.specs.Running.{line_total};
ghost use Rattle.hub_replay.specs.Outcomes.{one_fault_more, one_call_more};

use crate::counts::Counts;
use crate::fault::RunFault;
use reply_writer::{Buffer, append_fault, append_reply};
use std::alloc::Global;
use taf_codes::{Failed, Sink};
use taf_messages::{RecordFault, Reply};

/// Lines that are still to be written, and the counts so far.
#[derive(Drop)]
pub(crate) struct Output {
    pub(crate) alloc: Global,
    pub(crate) pending: Buffer,
    pub(crate) counts: Counts,
}

impl Output {
    pub(crate) fn new(alloc: Global) -> Output
        ensures pending { result.pending.items ≡ [] }
        ensures counts { result.counts ≡ record { lines = 0; calls = 0; faults = 0 } }
    {
        Output {
            alloc,
            pending: Buffer::new(Vec::new(alloc)),
            counts: Counts {
                lines: 0,
                calls: 0,
                faults: 0,
            },
        }
    }

    /// Adds a line of this text, which tells a fault.
    pub(crate) fn push_fault_text(&mut self, text: &[u8]) -> Result<(), RunFault>
        requires { line_total self.old.counts < 2 ^ 62 }
        ensures pending { OnOk result (self.new.pending.items
            ≡ self.old.pending.items ++ (text.now ++ 10 ∷ [])) }
        ensures counts { OnOk result (self.new.counts ≡ one_fault_more self.old.counts) }
        ensures err { IfErr result (λ f. f ≡ RunFault.Memory) }
    {
        self.pending.push_text(text)?;
        self.end_fault_line()
    }

    /// Adds the line of a record's fault.
    pub(crate) fn push_fault(&mut self, fault: &RecordFault) -> Result<(), RunFault>
        requires few { line_total self.old.counts < 2 ^ 62 }
        requires reportable { fault.now ≢ NoMemory }
        ensures pending { OnOk result (self.new.pending.items
            ≡ self.old.pending.items ++ (fault_text fault.now ++ 10 ∷ [])) }
        ensures counts { OnOk result (self.new.counts ≡ one_fault_more self.old.counts) }
        ensures err { IfErr result (λ f. f ≡ RunFault.Memory) }
    {
        append_fault(self.alloc, &mut self.pending, fault)?;
        self.end_fault_line()
    }

    /// Adds the line of a reply.
    pub(crate) fn push_reply(&mut self, reply: &Reply) -> Result<(), RunFault>
        requires { line_total self.old.counts < 2 ^ 62 }
        ensures pending { OnOk result (self.new.pending.items
            ≡ self.old.pending.items ++ (reply_text reply.now ++ 10 ∷ [])) }
        ensures counts { OnOk result (self.new.counts ≡ one_call_more self.old.counts) }
        ensures err { IfErr result (λ f. f ≡ RunFault.Memory) }
    {
        append_reply(self.alloc, &mut self.pending, reply)?;
        self.pending.push_text(b"\n")?;
        self.counts.lines += 1;
        self.counts.calls += 1;
        Ok(())
    }

    // Ends a line that tells a fault.
    fn end_fault_line(&mut self) -> Result<(), RunFault>
        requires { line_total self.old.counts < 2 ^ 62 }
        ensures pending { OnOk result (self.new.pending.items ≡ self.old.pending.items ++ 10 ∷ []) }
        ensures counts { OnOk result (self.new.counts ≡ one_fault_more self.old.counts) }
        ensures err { IfErr result (λ f. f ≡ RunFault.Memory) }
    {
        self.pending.push_text(b"\n")?;
        self.counts.lines += 1;
        self.counts.faults += 1;
        Ok(())
    }
}

/// Writes all of the bytes. Where the writer fails, it took a front of them.
pub fn write_all<W: Sink>(writer: &mut W, bytes: &[u8]) -> Result<(), Failed>
    ensures ok { OnOk result (Appends (W.contents writer.old) (W.contents writer.new) bytes.now) }
    ensures err { OnErr result ((front rest : List ℕ) × (bytes.now ≡ front ++ rest)
        × Appends (W.contents writer.old) (W.contents writer.new) front) }
    ensures failed { OnErr result (W.failures writer.new ≡ W.failures writer.old + 1) }
    ensures kept { OnOk result (W.failures writer.new ≡ W.failures writer.old) }
{
    let mut rest = bytes;
    while !rest.is_empty() {
        let count = writer.push(rest)?;
        rest = &rest[count..];
    }
    Ok(())
}
