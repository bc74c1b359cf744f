//! Any other text, read as a tape: the flat list of its tokens.
//!
//! A tape is taken only where each number is a whole one of 64 bits, and where lists and objects nest no deeper than
//! `serde_json` reads. Then the text is read as the data that the tape stands for.
ghost use Rattle.std.specs.Prelude.{◌≡◌, List, ◌==◌, ◌∷◌, Some, true, map, is_some, IfOk, IfSome, MatchOption, option_map, option_and_then, slice_index};
ghost use Rattle.json.specs.Tape.{node_token};
ghost use Rattle.json.specs.Token.{Token};
ghost use Rattle.serde_json.specs.Data.{item, no_items, unsigned};
ghost use Rattle.serde_json.specs.Find as find;
ghost use Rattle.serde_json.specs.Find.{as_u64};
ghost use Rattle.serde_json.specs.Read.{number_of, read as read_text};
ghost use Rattle.json_tokens.specs.Tapes.{IsSimpleAt, first_data, first_items, tape_data, tape_items};

use fast_float::Numeral;
use json::{Element, Error, Items, Node, Scratch, Tape};
use std::alloc::{AllocError, Global};

// How deep lists and objects nest at most in what `serde_json` reads.
const MAX_DEPTH: usize = 127;

/// The tape of a text, as `serde_json` reads it.
#[derive(Drop)]
pub struct JsonTape<'a> {
    tape: Tape<'a>,
    ghost read: { is_some (first_data tape) ≡ true },
}

impl<'a> JsonTape<'a> {
    /// The tape of the text, if it is JSON whose numbers are whole ones, and does not nest too deep.
    pub fn read(
        alloc: Global,
        text: &'a str,
        scratch: &'a mut Scratch,
    ) -> Result<Option<JsonTape<'a>>, AllocError>
        ensures { IfOk result (λ r. IfSome r (λ t. read_text text.now ≡ Some (tape_data t.tape))) }
    {
        match Tape::parse(text, scratch, Vec::new(alloc)) {
            Ok(tape) => if is_simple(tape.nodes()) {
                Ok(Some(JsonTape { tape }))
            } else {
                Ok(None)
            },
            Err(Error::OutOfMemory) => Err(AllocError),
            Err(_) => Ok(None),
        }
    }

    /// The value that the text is.
    pub fn root(&self) -> TapeValue<'_, 'a>
        ensures { tape_data result.element ≡ tape_data self.now.tape }
    {
        TapeValue {
            element: self.tape.root(),
        }
    }
}

// Whether each number is a whole one, and nothing is too deep.
fn is_simple(nodes: &[Node<'_>]) -> bool
    ensures { result ≡ true → IsSimpleAt 0 (map node_token nodes.now) }
{
    let mut depth: usize = 0;
    for node in nodes {
        match depth_after(*node, depth) {
            Some(next) => depth = next,
            None => return false,
        }
    }
    true
}

// The depth behind a token, unless it is another number or opens what is too deep.
#[inline(always)]
fn depth_after(node: Node<'_>, depth: usize) -> Option<usize>
    ensures { IfSome result (λ next. (ts : List Token) → IsSimpleAt next ts
        → IsSimpleAt depth (node_token node.entry ∷ ts)) }
{
    match node {
        Node::Object(_) if depth < MAX_DEPTH => Some(depth + 1),
        Node::Object(_) => None,
        Node::EndObject => Some(depth.saturating_sub(1)),
        Node::Array(_) if depth < MAX_DEPTH => Some(depth + 1),
        Node::Array(_) => None,
        Node::EndArray => Some(depth.saturating_sub(1)),
        Node::Number(digits) => match whole(digits) {
            Some(_) => Some(depth),
            None => None, // as 1e999, which `serde_json` refuses
        },
        Node::Key(_) => Some(depth),
        Node::String(_) => Some(depth),
        Node::Bool(_) => Some(depth),
        Node::Null => Some(depth),
    }
}

// The whole number of a token's text, if it is one that is not below 0 and has 64 bits at most.
fn whole(digits: &str) -> Option<u64>
    ensures spelt { IfSome result (λ n. number_of digits.now ≡ Some (unsigned n)) }
    ensures exact { result ≡ option_and_then as_u64 (number_of digits.now) }
{
    let bytes = digits.as_bytes();
    if has_minus(bytes) {
        return None;
    }
    Numeral::scan(bytes).to_u64()
}

#[inline(always)]
fn has_minus(digits: &[u8]) -> bool
    ensures { result ≡ (slice_index digits.now 0 == 45) }
{
    !digits.is_empty() && digits[0] == b'-'
}

/// A value on a tape.
#[derive(Drop)]
pub struct TapeValue<'t, 'a> {
    element: Element<'t, 'a>,
    ghost read: { is_some (first_data element) ≡ true },
}

impl<'t, 'a> TapeValue<'t, 'a> {
    pub fn is_object(&self) -> bool
        ensures { result ≡ is_some (find.as_object (tape_data self.now.element)) }
    {
        self.element.members().is_some()
    }

    pub fn is_null(&self) -> bool
        ensures { result ≡ is_some (find.as_null (tape_data self.now.element)) }
    {
        self.element.is_null()
    }

    /// The text that it is.
    pub fn as_str(&self) -> Option<&'a str>
        ensures { option_map (λ s. s.now) result ≡ find.as_str (tape_data self.now.element) }
    {
        self.element.as_str()
    }

    /// The whole number that it is, from 0 on.
    pub fn as_u64(&self) -> Option<u64>
        ensures { result
            ≡ option_and_then find.as_u64 (find.as_number (tape_data self.now.element)) }
    {
        match self.element.as_number() {
            Some(digits) => whole(digits),
            None => None,
        }
    }

    /// The items of the list that it is.
    pub fn items(&self) -> Option<TapeItems<'t, 'a>>
        ensures { option_map (λ l. tape_items l.items) result
            ≡ find.as_array (tape_data self.now.element) }
    {
        match self.element.items() {
            Some(items) => Some(TapeItems { items }),
            None => None,
        }
    }

    /// The value under a key of the object that it is: the last one.
    pub fn get(&self, name: &str) -> Option<TapeValue<'t, 'a>>
        ensures { option_map (λ v. tape_data v.element) result
            ≡ find.get name.now (tape_data self.now.element) }
    {
        match self.element.get(name) {
            Some(element) => Some(TapeValue { element }),
            None => None,
        }
    }
}

/// The items of a list on a tape that are not taken yet.
#[derive(Drop)]
pub struct TapeItems<'t, 'a> {
    items: Items<'t, 'a>,
    ghost read: { is_some (first_items items) ≡ true },
}

impl<'t, 'a> TapeItems<'t, 'a> {
    /// Takes the next item.
    pub fn next(&mut self) -> Option<TapeValue<'t, 'a>>
        ensures { MatchOption result (tape_items self.old.items ≡ no_items)
            (λ v. tape_items self.old.items
            ≡ item (tape_data v.element) (tape_items self.new.items)) }
    {
        match self.items.next() {
            Some(element) => Some(TapeValue { element }),
            None => None,
        }
    }
}
