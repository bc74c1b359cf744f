ghost use Rattle.std.specs.Prelude.{◌≡◌, ℕ, List};
ghost use Rattle.std.specs.Str.{IsAscii};

use std::marker::Model;
use std::str;

/// The twelve digits of a vehicle number as a text, seen as its letters.
#[derive(Clone, Copy, Debug, PartialEq, Eq)]
pub struct NumberText {
    letters: [u8; 12],
}

impl Model for NumberText {
    ghost Value = { List ℕ };

    ghost view = { λ text. text.letters };

    ghost invariant = { λ text. IsAscii text.letters };

    ghost inverse = { λ letters. record { letters = letters } };
}

impl NumberText {
    pub(crate) fn new(letters: [u8; 12]) -> Self
        requires { IsAscii letters }
        ensures { result ≡ letters }
    {
        NumberText { letters }
    }

    /// The letters as a `&str`.
    pub fn as_str(&self) -> &str
        ensures { result.now ≡ self.now }
    {
        unsafe { str::from_utf8_unchecked(&self.letters) }
    }
}
