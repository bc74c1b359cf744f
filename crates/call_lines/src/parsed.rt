//! What a line says.
ghost use Rattle.std.specs.Prelude.{◌≡◌, ◌≤◌, false, length, IfOk, OnErr};
ghost use Rattle.call_reader.specs.Reading.{Gives};
ghost use Rattle.call_lines.specs.Lines.{call_in, parsed_line, is_blank, IsNotMemory};

use call_reader::{CallReader, FlatRecord};
use taf_codes::Memory;
use taf_messages::{Call, RecordFault};

/// How long a line may be, in bytes without its newline.
pub const LONGEST: usize = 65_536;

/// What a line says.
#[derive(Debug, Drop)]
pub enum ParsedLine {
    /// Blanks, tabs and carriage returns alone, or nothing. Such a line gets no answer.
    Blank,
    /// More than 65,536 bytes, whatever they are.
    TooLong,
    /// No call, and why. Refused memory is never the reason.
    Fault(RecordFault),
    Called(Call),
}

/// What the line says, which is given without its newline. The record is used again for line after line. The answer is [`Memory`]
/// only where reading a call was refused some, so never for a line that is too long or blank.
#[tactic(auto, unfolding(crate::specs::Lines::parsed_line))]
pub fn parse_line<'a>(
    reader: &mut CallReader,
    record: &mut FlatRecord<'a>,
    line: &'a [u8],
) -> Result<ParsedLine, Memory>
    ensures value { IfOk result (λ p. p ≡ parsed_line line.now) }
    ensures reportable { IfOk result IsNotMemory }
    ensures refused { OnErr result ((length line.now ≤ 65536) × (is_blank line.now ≡ false)) }
{
    if line.len() > LONGEST {
        return Ok(ParsedLine::TooLong);
    }
    if is_blank_line(line) {
        return Ok(ParsedLine::Blank);
    }
    match call_of(reader, record, line) {
        Ok(call) => Ok(ParsedLine::Called(call)),
        Err(RecordFault::Memory) => Err(Memory),
        Err(fault) => Ok(ParsedLine::Fault(fault)),
    }
}

// The call of a line, whether it is text or not.
fn call_of<'a>(
    reader: &mut CallReader,
    record: &mut FlatRecord<'a>,
    line: &'a [u8],
) -> Result<Call, RecordFault>
    ensures { Gives result (call_in line.now) }
{
    reader.read(record, line)
}

/// Whether the line has blanks, tabs and carriage returns alone, or nothing.
pub fn is_blank_line(line: &[u8]) -> bool
    ensures { result ≡ is_blank line.now }
{
    line.iter()
        .all(|byte| *byte == b' ' || *byte == b'\t' || *byte == b'\r')
}
