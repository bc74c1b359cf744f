//! Records without lists, read without a tree.
//!
//! Such a record is read by a scan of its bytes (`scan.rt`), if it is in the form in which it is written. Any other, as one
//! with blanks or escapes, is read by its tape.
ghost use Rattle.std.specs.Prelude.{◌≡◌, true, Some, IfOk, option_map, bytes_eq};
ghost use Rattle.serde_json.specs.Read.{read as read_text};
ghost use Rattle.serde_json.specs.Find.{get};
ghost use Rattle.json_tokens.specs.Flat.{flat_data, last_under, scalar_data};

use crate::scan::scan_members;
use std::alloc::{AllocError, Global};

// A record that is read so has fewer members.
pub(crate) const MAX_MEMBERS: usize = 12;

/// A text or a whole number.
#[derive(Clone, Copy, Debug)]
pub enum Scalar<'a> {
    Text(&'a str),
    Whole(u64),
}

/// An object of texts and whole numbers, as `serde_json` reads it. Its memory is used again for the next one.
#[derive(Debug, Drop)]
pub struct FlatRecord<'a> {
    members: Vec<(&'a str, Scalar<'a>)>,
}

impl<'a> FlatRecord<'a> {
    /// A record without members. Takes no memory.
    pub fn new(alloc: Global) -> FlatRecord<'a> {
        FlatRecord {
            members: Vec::new(alloc),
        }
    }

    /// Becomes the record that the text is, and says whether it does: the text has to be an object of fewer than twelve
    /// texts and whole numbers, without blanks and escapes.
    pub fn read(&mut self, text: &'a str) -> Result<bool, AllocError>
        ensures { IfOk result (λ is_flat. is_flat ≡ true
            → read_text text.now ≡ Some (flat_data self.new.members.items)) }
    {
        self.members.clear();
        self.members.reserve(MAX_MEMBERS)?;
        scan_members(text, &mut self.members)
    }

    /// The last value under a name.
    #[inline(always)]
    pub fn get(&self, name: &str) -> Option<Scalar<'a>>
        ensures { option_map scalar_data result ≡ get name.now (flat_data self.now.members.items) }
    {
        last_of(self.members.as_slice(), name)
    }
}

// The last value under a name. The members are looked at from the last one on.
#[inline(always)]
fn last_of<'a>(members: &[(&'a str, Scalar<'a>)], name: &str) -> Option<Scalar<'a>>
    ensures { result ≡ last_under name.now members.now }
{
    for i in (0..members.len()).rev() {
        let (key, value) = members[i];
        if is_same(key, name) {
            return Some(value);
        }
    }
    None
}

// Whether both texts are the same. Their lengths, which mostly differ, are compared first.
#[inline(always)]
fn is_same(key: &str, name: &str) -> bool
    ensures { result ≡ bytes_eq key.now name.now }
{
    key.len() == name.len() && key == name
}
