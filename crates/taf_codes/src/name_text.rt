//! The text of a name: one to twenty characters.
ghost use Rattle.std.specs.Prelude.{◌≡◌, Some, bytes_eq, refl, true};
ghost use Rattle.std.specs.Cmp.{partial_equiv_from_equiv};
ghost use Rattle.std.specs.Cmp.Lexicographic.{nat_list_cmp_total, nat_list_eq_equiv, slice_cmp, texts_po, texts_ties};
ghost use Rattle.std.specs.Cmp.Rules.{hashing};
ghost use Rattle.std.specs.Hash as fed;
ghost use Rattle.std.specs.Ordering.{nat_cmp};
ghost use Rattle.std.proofs.Common.{rules};
ghost use Rattle.taf_codes.specs.Codes.{code_of, is_name};

use crate::fault::BadCode;
use crate::text::{ascii_text, is_name};
use std::cmp::Ordering;
use std::hash::{Hash, Hasher};
use std::marker::Model;

/// One to twenty characters of A to Z, 0 to 9 and hyphen, kept with zeros behind them.
#[derive(Clone, Copy, Debug)]
pub(crate) struct NameText {
    bytes: [u8; 20],
    len: u8,
}

impl Model for NameText {
    ghost use Rattle.std.specs.Prelude.{◌≡◌, List, ℕ, take, length, true};
    ghost use Rattle.taf_codes.specs.Codes.{is_name};
    ghost use Rattle.taf_codes.specs.Padded.{IsPadded, with_zeros};
    ghost use Rattle.std.proofs.Common.{sym, length-take-le};

    ghost Value = { List ℕ };

    ghost view = { λ name. take name.len name.bytes };

    ghost invariant = { λ name. IsPadded name.bytes name.len
        × (is_name (take name.len name.bytes) ≡ true) };

    ghost inverse = { λ text. record { bytes = with_zeros text; len = length text } };

    ghost inverse_ok = { λ name h i. record {
      bytes = sym h.0.filled i;
      len = length-take-le name.len name.bytes h.0.within i;
    } };
}

impl NameText {
    /// The name that this text is.
    pub(crate) fn read(text: &str) -> Result<NameText, BadCode>
        ensures { result ≡ code_of is_name text.now }
    {
        let text = text.as_bytes();
        if !is_name(text) {
            return Err(BadCode);
        }
        let mut bytes = [0; 20];
        bytes[..text.len()].copy_from_slice(text);
        Ok(NameText {
            bytes,
            len: text.len() as u8,
        })
    }

    /// The name, without the zeros.
    pub(crate) fn as_str(&self) -> &str
        ensures text { result.now ≡ self.now }
        ensures name { is_name self.now ≡ true }
    {
        ascii_text(&self.bytes[..self.len as usize])
    }
}

// Names are compared, ordered and hashed as their texts, without the zeros.
impl PartialEq for NameText {
    ghost eq = { bytes_eq };

    ghost laws = { partial_equiv_from_equiv nat_list_eq_equiv };

    fn eq(&self, other: &NameText) -> bool {
        self.as_str() == other.as_str()
    }
}

impl Eq for NameText {
    ghost laws = { nat_list_eq_equiv };
}

impl PartialOrd for NameText {
    ghost partial_cmp = { λ a b. Some (slice_cmp nat_cmp a b) };

    ghost laws = { texts_po };

    fn partial_cmp(&self, other: &NameText) -> Option<Ordering> {
        Some(self.cmp(other))
    }
}

impl Ord for NameText {
    ghost cmp = { slice_cmp nat_cmp };

    ghost total = { nat_list_cmp_total };

    ghost matches_partial_cmp = { λ a b. refl };

    ghost matches_eq = { texts_ties };

    fn cmp(&self, other: &NameText) -> Ordering {
        self.as_str().cmp(other.as_str())
    }
}

impl Hash for NameText {
    ghost hash_input = { fed.str };

    ghost respects_eq = { Prim.search (hashing, rules) };

    fn hash<H: Hasher>(&self, state: &mut H) {
        self.as_str().hash(state);
    }
}
