//! The lines that a session says.
ghost use Rattle.std.specs.Prelude.{◌≡◌, ◌≢◌, ◌⊎◌, [], Err, IfOk};
ghost use Rattle.taf_messages.specs.declared.fault.RecordFault.TheVariants.{Memory as MemoryRefused};
ghost use Rattle.call_lines.specs.Lines.{fault_text, reply_text};
ghost use Rattle.session_lines.specs.Texts.{line_fault_text, hello_text, answer_text};

use crate::fault::LineFault;
use reply_writer::{Buffer, append_reply, write_fault};
use std::alloc::Global;
use std::marker::Model;
use taf_codes::{Memory, Railway};
use taf_messages::{RecordFault, Reply};
use tallies::HubFault;

// The text of a line: a fixed one, or one that was written.
#[derive(Drop)]
pub enum LineText {
    Fixed(LineFault),
    Written(Buffer),
}

/// A line that is said. Contracts see its bytes, without a newline.
#[derive(Drop)]
pub struct Line {
    text: LineText,
}

impl Model for Line {
    ghost use Rattle.std.specs.Prelude.{List, ℕ};
    ghost use Rattle.session_lines.specs.LineBytes.{line_bytes};

    ghost Value = { List ℕ };

    ghost view = { λ l. line_bytes l.text };
}

impl Line {
    /// The line of a fault without a field. Takes no memory.
    pub(crate) fn of_fault(fault: LineFault) -> Line
        ensures { result ≡ line_fault_text fault }
    {
        Line {
            text: LineText::Fixed(fault),
        }
    }

    /// The line of a record's fault.
    pub(crate) fn of_record_fault(alloc: Global, fault: &RecordFault) -> Result<Line, Memory>
        requires { fault.now ≢ MemoryRefused }
        ensures { IfOk result (λ line. line ≡ fault_text fault.now) }
    {
        let text = write_fault(alloc, fault)?;
        Ok(Line {
            text: LineText::Written(Buffer::new(text)),
        })
    }

    /// The line that answers a hello.
    #[tactic(auto, unfolding(crate::specs::Texts::hello_text))]
    pub(crate) fn of_hello(alloc: Global, railway: Railway) -> Result<Line, Memory>
        ensures { IfOk result (λ line. line ≡ hello_text railway) }
    {
        let mut text = Vec::with_capacity(alloc, 16)?;
        text.extend_from_slice(b"{\"hello\":\"")?;
        text.extend_from_slice(railway.as_str().as_bytes())?;
        text.extend_from_slice(b"\"}")?;
        Ok(Line {
            text: LineText::Written(Buffer::new(text)),
        })
    }

    /// The line of a job that met a fault. Takes no memory.
    pub(crate) fn of_hub_fault(fault: &HubFault) -> Line
        ensures { result ≡ answer_text (Err fault.now) }
    {
        match fault {
            HubFault::Full(_) => Line::of_fault(LineFault::HubFull),
            HubFault::Memory => Line::of_fault(LineFault::NoMemory),
        }
    }

    /// The line of a reply, in an empty buffer. Where its memory is refused, it is the line that says so.
    pub(crate) fn of_reply(alloc: Global, buffer: Buffer, reply: &Reply) -> Line
        requires empty { buffer.items ≡ [] }
        ensures { (result ≡ reply_text reply.now) ⊎ (result ≡ line_fault_text LineFault.NoMemory) }
    {
        let mut text = buffer;
        match append_reply(alloc, &mut text, reply) {
            Ok(()) => Line {
                text: LineText::Written(text),
            },
            Err(_) => Line::of_fault(LineFault::NoMemory),
        }
    }

    /// The buffer that it was written into, if there is one.
    pub(crate) fn into_buffer(self) -> Option<Buffer> {
        match self.text {
            LineText::Fixed(_) => None,
            LineText::Written(text) => Some(text),
        }
    }

    /// Its bytes, without a newline.
    pub fn bytes(&self) -> &[u8]
        ensures { result.now ≡ self.now }
    {
        match &self.text {
            LineText::Fixed(fault) => fault.text(),
            LineText::Written(text) => text.as_slice(),
        }
    }
}
