ghost use Rattle.std.specs.Prelude.{◌≡◌, ℕ, List};
ghost use Rattle.std.specs.Str.{IsAscii};

use std::marker::Model;
use std::str;

/// The text of a moment, as `2025-03-01T06:00Z`, seen as its letters.
#[derive(Clone, Copy, Debug, PartialEq, Eq)]
pub struct MomentText {
    letters: [u8; 17],
}

impl Model for MomentText {
    ghost Value = { List ℕ };

    ghost view = { λ text. text.letters };

    ghost invariant = { λ text. IsAscii text.letters };

    ghost inverse = { λ letters. record { letters = letters } };
}

impl MomentText {
    pub(crate) fn new(letters: [u8; 17]) -> Self
        requires { IsAscii letters }
        ensures { result ≡ letters }
    {
        MomentText { letters }
    }

    /// The letters as a `&str`.
    pub fn as_str(&self) -> &str
        ensures { result.now ≡ self.now }
    {
        unsafe { str::from_utf8_unchecked(&self.letters) }
    }
}
