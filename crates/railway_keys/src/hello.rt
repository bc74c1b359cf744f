//! The hello that a session begins with, and the key in it.
ghost use Rattle.std.specs.Prelude.{◌≡◌, IfOk, option_map};
ghost use Rattle.std.specs.Result.{result_ok};
ghost use Rattle.serde_json.specs.View.{view};
ghost use Rattle.call_reader.specs.Values as value_of;
ghost use Rattle.call_reader.specs.Reading.{field_of};
ghost use Rattle.session_lines.specs.Meanings.{first_record_meaning, is_hello, json_of_line};
ghost use Rattle.railway_keys.specs.Hellos.{admitted, key_in, railway_by_key};

use crate::table::KeyTable;
use call_lines::{LONGEST, is_blank_line};
use serde_json::Value;
use std::alloc::Global;
use taf_codes::{Memory, Railway};
use taf_messages::Field;

/// The railway of the hello that a line is, given without its newline, where the key in it is this railway's.
///
/// It is the railway that a session takes from the line. There is none where the line is no hello that is good, where it has no key
/// that is a text, and where this is not the railway's.
#[tactic(auto, unfolding(crate::specs::Hellos::railway_by_key, session_lines::specs::Meanings::meaning_by_length))]
pub fn railway_by_key(
    alloc: Global,
    keys: &KeyTable,
    line: &[u8],
) -> Result<Option<Railway>, Memory>
    ensures { IfOk result (λ railway. railway ≡ railway_by_key keys.now line.now) }
{
    if line.len() > LONGEST || is_blank_line(line) {
        return Ok(None);
    }
    match json_of(alloc, line)? {
        Some(value) => Ok(admitted_by(keys, &value)),
        None => Ok(None),
    }
}

// The JSON of a line, if it is any.
#[tactic(auto, unfolding(session_lines::specs::Meanings::json_of_line))]
fn json_of(alloc: Global, line: &[u8]) -> Result<Option<Value>, Memory>
    ensures { IfOk result (λ value. option_map view value ≡ json_of_line line.now) }
{
    let Ok(text) = str::from_utf8(line) else {
        return Ok(None);
    };
    match Value::from_str(alloc, text) {
        Ok(value) => Ok(Some(value)),
        Err(error) if error.is_memory() => Err(Memory),
        Err(_) => Ok(None),
    }
}

// The railway of the hello that a record is, where the key in it is this railway's.
fn admitted_by(keys: &KeyTable, value: &Value) -> Option<Railway>
    ensures { result ≡ admitted keys.now
        (first_record_meaning (view value.now)) (key_in (view value.now)) }
{
    if !names_hello(value) {
        return None;
    }
    let railway = railway_in(value)?;
    let key = key_in(value)?;
    if keys.admits(railway, key.as_bytes()) {
        Some(railway)
    } else {
        None
    }
}

// Whether the kind of the record is that of a hello.
fn names_hello(value: &Value) -> bool
    ensures { result ≡ is_hello (view value.now) }
{
    match value.get("kind").and_then(Value::as_str) {
        Some(kind) => kind == "hello",
        None => false,
    }
}

// The railway of a hello.
fn railway_in(value: &Value) -> Option<Railway>
    ensures { result ≡ result_ok (field_of value_of.railway Field.From (view value.now)) }
{
    let field = value.get(Field::From.name())?;
    field.as_str().and_then(|text| Railway::read(text).ok())
}

// The key in a hello, if it is a text.
fn key_in(value: &Value) -> Option<&str>
    ensures { option_map (λ key. key.now) result ≡ key_in (view value.now) }
{
    value.get("key").and_then(Value::as_str)
}
