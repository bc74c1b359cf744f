//! What a line means to a session.
ghost use Rattle.std.specs.Prelude.{◌≡◌, ◌≢◌, IfOk, IfErr, option_map};
ghost use Rattle.serde_json.specs.View.{view};
ghost use Rattle.taf_messages.specs.declared.fault.RecordFault.TheVariants.{Memory as MemoryRefused};
ghost use Rattle.call_reader.specs.Values as value_of;
ghost use Rattle.call_reader.specs.Reading.{field_of};
ghost use Rattle.call_lines.specs.Lines.{parsed_line};
ghost use Rattle.session_lines.specs.Texts.{line_fault_text};
ghost use Rattle.session_lines.specs.Meanings.{sender_of, call_meaning, is_hello, first_record_meaning, first_json_meaning, json_of_line, meaning_after_hello, text_meaning};

use crate::fault::LineFault;
use crate::line::Line;
use call_lines::{ParsedLine, parse_line};
use call_reader::{CallReader, FlatRecord};
use serde_json::Value;
use std::alloc::Global;
use taf_codes::{Memory, Railway};
use taf_messages::{Call, Field, RecordFault};

/// What a line means to a session.
#[derive(Drop)]
pub enum Meaning {
    /// Blanks alone, which get no answer.
    Blank,
    /// The hello of this railway.
    Hello(Railway),
    /// None of the others, and the line that says why.
    Wrong(Line),
    /// A call of the session's railway.
    Calls(Call),
}

/// What a line that is neither too long nor blank means to a session that has had the hello of this railway, or none.
pub(crate) fn meaning_of(
    alloc: Global,
    reader: &mut CallReader,
    railway: Option<Railway>,
    line: &[u8],
) -> Result<Meaning, Memory>
    ensures { IfOk result (λ m. m ≡ text_meaning railway line.now) }
{
    match railway {
        None => first_meaning(alloc, line),
        Some(own) => later_meaning(alloc, reader, own, line),
    }
}

// What a line means after the hello.
fn later_meaning(
    alloc: Global,
    reader: &mut CallReader,
    own: Railway,
    line: &[u8],
) -> Result<Meaning, Memory>
    ensures { IfOk result (λ m. m ≡ meaning_after_hello own (parsed_line line.now)) }
{
    match parse_line(reader, &mut FlatRecord::new(alloc), line)? {
        ParsedLine::TooLong => Ok(wrong(LineFault::LineTooLong)),
        ParsedLine::Blank => Ok(Meaning::Blank),
        ParsedLine::Fault(fault) => Ok(Meaning::Wrong(Line::of_record_fault(alloc, &fault)?)),
        ParsedLine::Called(call) => Ok(meaning_of_call(own, call)),
    }
}

// What a call means to the session of this railway.
fn meaning_of_call(own: Railway, call: Call) -> Meaning
    ensures { result ≡ call_meaning own call }
{
    if sender(&call) == own {
        Meaning::Calls(call)
    } else {
        wrong(LineFault::WrongSender)
    }
}

// Who makes the call.
fn sender(call: &Call) -> Railway
    ensures { result ≡ sender_of call.now }
{
    match call {
        Call::Send(message) => message.get().by(),
        Call::Ask { by, .. } => *by,
        Call::AskUnit { by, .. } => *by,
        Call::Deviation { by, .. } => *by,
        Call::Fetch { by, .. } => *by,
        Call::Ack { by, .. } => *by,
    }
}

fn wrong(fault: LineFault) -> Meaning
    ensures { result ≡ Meaning.Wrong (line_fault_text fault) }
{
    Meaning::Wrong(Line::of_fault(fault))
}

// What a line means before the hello.
fn first_meaning(alloc: Global, line: &[u8]) -> Result<Meaning, Memory>
    ensures { IfOk result (λ m. m ≡ first_json_meaning (json_of_line line.now)) }
{
    match json_of(alloc, line)? {
        Some(value) => meaning_of_record(alloc, &value),
        None => Ok(wrong(LineFault::NoHello)),
    }
}

// The JSON of a line, if it is any.
#[tactic(auto, unfolding(crate::specs::Meanings::json_of_line))]
fn json_of(alloc: Global, line: &[u8]) -> Result<Option<Value>, Memory>
    ensures { IfOk result (λ value. option_map view value ≡ json_of_line line.now) }
{
    let Ok(text) = str::from_utf8(line) else {
        return Ok(None);
    };
    match Value::from_str(alloc, text) {
        Ok(value) => Ok(Some(value)),
        Err(error) if error.is_memory() => Err(Memory),
        Err(_) => Ok(None),
    }
}

// What the JSON of a line means before the hello.
fn meaning_of_record(alloc: Global, value: &Value) -> Result<Meaning, Memory>
    ensures { IfOk result (λ m. m ≡ first_record_meaning (view value.now)) }
{
    if !names_hello(value) {
        return Ok(wrong(LineFault::NoHello));
    }
    match hello_railway(value) {
        Ok(railway) => Ok(Meaning::Hello(railway)),
        Err(fault) => Ok(Meaning::Wrong(Line::of_record_fault(alloc, &fault)?)),
    }
}

// Whether the kind of the record is that of a hello.
fn names_hello(value: &Value) -> bool
    ensures { result ≡ is_hello (view value.now) }
{
    match value.get("kind").and_then(Value::as_str) {
        Some(kind) => kind == "hello",
        None => false,
    }
}

// The railway of a hello.
fn hello_railway(value: &Value) -> Result<Railway, RecordFault>
    ensures railway { result ≡ field_of value_of.railway Field.From (view value.now) }
    ensures reportable { IfErr result (λ fault. fault ≢ MemoryRefused) }
{
    let Some(field) = value.get(Field::From.name()) else {
        return Err(RecordFault::MissingField(Field::From));
    };
    match field.as_str().and_then(|text| Railway::read(text).ok()) {
        Some(railway) => Ok(railway),
        None => Err(RecordFault::BadField(Field::From)),
    }
}
