//! What is found in a line.
ghost use Rattle.std.specs.Prelude.{◌≡◌, is_some, MatchOption, option_map, option_and_then};
ghost use Rattle.serde_json.specs.Data.{item, no_items};
ghost use Rattle.serde_json.specs.Find as find;
ghost use Rattle.serde_json.specs.View.{view};
ghost use Rattle.json_tokens.specs.JsonValues.{json_value_data, json_items_data};

use crate::flat::{FlatRecord, Scalar};
use crate::tape::{TapeItems, TapeValue};
use serde_json::Value;

/// A text or a number, a record of these, a value on a tape, or any tree. Contracts see the data that `serde_json` reads.
#[derive(Drop)]
pub enum JsonValue<'r, 'a> {
    Scalar(Scalar<'a>),
    Flat(&'r FlatRecord<'a>),
    Tape(TapeValue<'r, 'a>),
    Tree(&'a Value),
}

impl<'r, 'a> JsonValue<'r, 'a> {
    pub fn is_object(&self) -> bool
        ensures { result ≡ is_some (find.as_object (json_value_data self.now)) }
    {
        match self {
            JsonValue::Scalar(Scalar::Text(_)) => false,
            JsonValue::Scalar(Scalar::Whole(_)) => false,
            JsonValue::Flat(_) => true,
            JsonValue::Tape(value) => value.is_object(),
            JsonValue::Tree(value) => value.is_object(),
        }
    }

    pub fn is_null(&self) -> bool
        ensures { result ≡ is_some (find.as_null (json_value_data self.now)) }
    {
        match self {
            JsonValue::Scalar(Scalar::Text(_)) => false,
            JsonValue::Scalar(Scalar::Whole(_)) => false,
            JsonValue::Flat(_) => false,
            JsonValue::Tape(value) => value.is_null(),
            JsonValue::Tree(value) => value.is_null(),
        }
    }

    /// The text that it is.
    pub fn as_str(&self) -> Option<&'a str>
        ensures { option_map (λ s. s.now) result ≡ find.as_str (json_value_data self.now) }
    {
        match self {
            JsonValue::Scalar(Scalar::Text(text)) => Some(*text),
            JsonValue::Scalar(Scalar::Whole(_)) => None,
            JsonValue::Flat(_) => None,
            JsonValue::Tape(value) => value.as_str(),
            JsonValue::Tree(value) => value.as_str(),
        }
    }

    /// The whole number that it is, from 0 on.
    pub fn as_u64(&self) -> Option<u64>
        ensures { result
            ≡ option_and_then find.as_u64 (find.as_number (json_value_data self.now)) }
    {
        match self {
            JsonValue::Scalar(Scalar::Text(_)) => None,
            JsonValue::Scalar(Scalar::Whole(number)) => Some(*number),
            JsonValue::Flat(_) => None,
            JsonValue::Tape(value) => value.as_u64(),
            JsonValue::Tree(value) => value.as_u64(),
        }
    }

    /// The items of the list that it is.
    pub fn items(&self) -> Option<JsonItems<'r, 'a>>
        ensures { option_map json_items_data result ≡ find.as_array (json_value_data self.now) }
    {
        match self {
            JsonValue::Scalar(Scalar::Text(_)) => None,
            JsonValue::Scalar(Scalar::Whole(_)) => None,
            JsonValue::Flat(_) => None,
            JsonValue::Tape(value) => value.items().map(JsonItems::Tape),
            JsonValue::Tree(value) => items_of_tree(value),
        }
    }

    /// The value under a key of the object that it is: the last one.
    #[inline(always)]
    pub fn get(&self, name: &str) -> Option<JsonValue<'r, 'a>>
        ensures { option_map json_value_data result
            ≡ find.get name.now (json_value_data self.now) }
    {
        match self {
            JsonValue::Flat(record) => record.get(name).map(JsonValue::Scalar),
            _ => self.get_in_any(name),
        }
    }

    // The same, of a flat record too. Most lines are flat, so what all others need is kept apart.
    #[inline(never)]
    fn get_in_any(&self, name: &str) -> Option<JsonValue<'r, 'a>>
        ensures { option_map json_value_data result
            ≡ find.get name.now (json_value_data self.now) }
    {
        match self {
            JsonValue::Scalar(Scalar::Text(_)) => None,
            JsonValue::Scalar(Scalar::Whole(_)) => None,
            JsonValue::Flat(record) => record.get(name).map(JsonValue::Scalar),
            JsonValue::Tape(value) => value.get(name).map(JsonValue::Tape),
            JsonValue::Tree(value) => value.get(name).map(JsonValue::Tree),
        }
    }
}

/// The items of a list that are not taken yet.
#[derive(Drop)]
pub enum JsonItems<'r, 'a> {
    Tape(TapeItems<'r, 'a>),
    Tree(&'a [Value]),
}

impl<'r, 'a> JsonItems<'r, 'a> {
    /// Takes the next item.
    pub fn next(&mut self) -> Option<JsonValue<'r, 'a>>
        ensures { MatchOption result (json_items_data self.old ≡ no_items)
            (λ v. json_items_data self.old ≡ item (json_value_data v) (json_items_data self.new)) }
    {
        match self {
            JsonItems::Tape(items) => items.next().map(JsonValue::Tape),
            JsonItems::Tree(values) => {
                let (first, rest) = values.split_first()?;
                *values = rest;
                Some(JsonValue::Tree(first))
            }
        }
    }
}

// The items of the list that a tree is.
fn items_of_tree<'r, 'a>(value: &'a Value) -> Option<JsonItems<'r, 'a>>
    ensures { option_map json_items_data result ≡ find.as_array (view value.now) }
{
    let values = value.as_array()?;
    Some(JsonItems::Tree(values.as_slice()))
}
