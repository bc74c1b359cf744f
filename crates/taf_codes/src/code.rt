//! Codes of a fixed length.
ghost use Rattle.std.specs.Prelude.{◌≡◌, ℕ, List, [], ◌∷◌, Some, bytes_eq, true};
ghost use Rattle.std.specs.Cmp.{partial_equiv_from_equiv};
ghost use Rattle.std.specs.Cmp.Lexicographic.{nat_list_eq_equiv};
ghost use Rattle.std.specs.Fmt.{styled_text};
ghost use Rattle.std.specs.Int.{from_le_bytes, to_le_bytes, w32};
ghost use Rattle.std.proofs.Common.{rules};
ghost use Rattle.taf_codes.specs.Codes.{is_place, is_railway, is_unit_code, place_code_of, railway_of, unit_of};

use crate::fault::{BadCode, UnitFault};
use crate::text::{are_code_letters, are_letters_then_digits, ascii_text, bytes_of};
use crate::unit_digit::ends_in_check_digit;
use std::fmt;
use std::hash::{Hash, Hasher};
use std::marker::Model;

/// The code of a railway or of an infrastructure manager: four characters of A to Z and 0 to 9.
#[derive(Clone, Copy, Debug, PartialOrd, Ord)]
pub struct Railway {
    letters: [u8; 4],
}

impl Model for Railway {
    ghost Value = { List ℕ };

    ghost view = { λ railway. railway.letters };

    ghost invariant = { λ railway. is_railway railway.letters ≡ true };

    ghost inverse = { λ text. record { letters = text } };
}

impl Railway {
    /// The railway whose code this text is.
    pub fn read(text: &str) -> Result<Railway, BadCode>
        ensures { result ≡ railway_of text.now }
    {
        let letters = bytes_of(text).ok_or(BadCode)?;
        if !are_code_letters(&letters) {
            return Err(BadCode);
        }
        Ok(Railway { letters })
    }

    /// The code.
    pub fn as_str(&self) -> &str
        ensures text { result.now ≡ self.now }
        ensures code { is_railway self.now ≡ true }
    {
        ascii_text(&self.letters)
    }

    // The four letters as one number.
    fn number(self) -> u32
        ensures read { result ≡ from_le_bytes w32 self }
        ensures back { to_le_bytes w32 result ≡ self }
    {
        u32::from_le_bytes(self.letters)
    }
}

/// Compared as a whole, as one number of four bytes: tables look railways up more often than all else.
impl PartialEq for Railway {
    ghost eq = { bytes_eq };

    ghost laws = { partial_equiv_from_equiv nat_list_eq_equiv };

    fn eq(&self, other: &Railway) -> bool {
        self.number() == other.number()
    }
}

impl Eq for Railway {
    ghost laws = { nat_list_eq_equiv };
}

/// Hashed as a whole, for the same reason.
impl Hash for Railway {
    ghost hash_input = { λ railway. railway ∷ [] };

    ghost respects_eq = { Prim.search rules };

    fn hash<H: Hasher>(&self, state: &mut H) {
        state.write(&self.letters);
    }
}

impl fmt::Display for Railway {
    ghost output = { λ railway. Some railway };

    ghost styled_output = { λ railway spec. Some (styled_text spec railway) };

    fn fmt<W: fmt::Write>(&self, f: &mut fmt::Formatter<W>) -> fmt::Result {
        f.pad(self.as_str())
    }
}

/// The code of a place: two letters of A to Z for its country and five digits.
#[derive(Clone, Copy, Debug, PartialEq, Eq, PartialOrd, Ord, Hash)]
pub struct Place {
    text: [u8; 7],
}

impl Model for Place {
    ghost Value = { List ℕ };

    ghost view = { λ place. place.text };

    ghost invariant = { λ place. is_place place.text ≡ true };

    ghost inverse = { λ text. record { text = text } };
}

impl Place {
    /// The place whose code this text is.
    pub fn read(text: &str) -> Result<Place, BadCode>
        ensures { result ≡ place_code_of text.now }
    {
        let text = bytes_of(text).ok_or(BadCode)?;
        if !are_letters_then_digits(&text, 2) {
            return Err(BadCode);
        }
        Ok(Place { text })
    }

    /// The code.
    pub fn as_str(&self) -> &str
        ensures text { result.now ≡ self.now }
        ensures code { is_place self.now ≡ true }
    {
        ascii_text(&self.text)
    }
}

impl fmt::Display for Place {
    ghost output = { λ place. Some place };

    ghost styled_output = { λ place spec. Some (styled_text spec place) };

    fn fmt<W: fmt::Write>(&self, f: &mut fmt::Formatter<W>) -> fmt::Result {
        f.pad(self.as_str())
    }
}

/// The code of an intermodal unit by ISO 6346: four letters of A to Z, six digits and a check digit.
/// No meaning is read from the letters.
#[derive(Clone, Copy, Debug, PartialEq, Eq, PartialOrd, Ord, Hash)]
pub struct UnitCode {
    number: [u8; 11],
}

impl Model for UnitCode {
    ghost Value = { List ℕ };

    ghost view = { λ unit. unit.number };

    ghost invariant = { λ unit. is_unit_code unit.number ≡ true };

    ghost inverse = { λ text. record { number = text } };
}

impl UnitCode {
    /// The unit whose code this text is.
    pub fn read(text: &str) -> Result<UnitCode, UnitFault>
        ensures { result ≡ unit_of text.now }
    {
        let number = bytes_of(text).ok_or(UnitFault::NotAUnitCode)?;
        if !are_letters_then_digits(&number, 4) {
            return Err(UnitFault::NotAUnitCode);
        }
        if !ends_in_check_digit(&number) {
            return Err(UnitFault::BadUnitDigit);
        }
        Ok(UnitCode { number })
    }

    /// The code, with its check digit.
    pub fn as_str(&self) -> &str
        ensures text { result.now ≡ self.now }
        ensures code { is_unit_code self.now ≡ true }
    {
        ascii_text(&self.number)
    }
}

impl fmt::Display for UnitCode {
    ghost output = { λ unit. Some unit };

    ghost styled_output = { λ unit spec. Some (styled_text spec unit) };

    fn fmt<W: fmt::Write>(&self, f: &mut fmt::Formatter<W>) -> fmt::Result {
        f.pad(self.as_str())
    }
}
