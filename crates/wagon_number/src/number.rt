ghost use Rattle.std.specs.Prelude.{◌≡◌, ℕ, Some, Ok};
ghost use Rattle.std.specs.Str.{IsAscii};
ghost use Rattle.wagon_number.specs.Digits.{IsValid, IsVehicleNumber, digits_of, number_in, number_of, text_of, has_marks, marked_number_of, marked_text};

use crate::digits::{are_digits, digit_behind, digits_shown, number_shown};
use crate::fault::NumberFault;
use crate::pairs::twelve_letters;
use crate::text::NumberText;
use std::marker::Model;
use std::{fmt, str};

/// The vehicle number of a wagon: twelve digits, the last of which is the check digit of the first
/// eleven. It is seen as a number.
#[derive(Clone, Copy, Debug, PartialEq, Eq, PartialOrd, Ord, Hash)]
pub struct WagonNumber {
    number: u64,
}

impl Model for WagonNumber {
    ghost Value = { ℕ };

    ghost view = { λ wagon. wagon.number };

    ghost invariant = { λ wagon. IsVehicleNumber wagon.number };

    ghost inverse = { λ n. record { number = n } };
}

impl WagonNumber {
    /// The number that the text shows by its twelve digits alone, as `218124712173`.
    ///
    /// `NotTwelveDigits` where the text is anything but twelve digits of ASCII, `BadCheckDigit`
    /// where it is twelve digits and the last is not the check digit of the others.
    pub fn read(text: &str) -> Result<WagonNumber, NumberFault>
        ensures { result ≡ number_of text.now }
    {
        match <[u8; 12]>::try_from(text.as_bytes()) {
            Ok(letters) => WagonNumber::from_letters(letters),
            Err(_) => Err(NumberFault::NotTwelveDigits),
        }
    }

    /// The number that the text shows in the marked form, as `21 81 2471 217-3`.
    ///
    /// `NotTwelveDigits` where the text has another form, `BadCheckDigit` where it has the form and
    /// the last digit is not the check digit of the others.
    pub fn read_marked(text: &str) -> Result<WagonNumber, NumberFault>
        ensures { result ≡ marked_number_of text.now }
    {
        let text = text.as_bytes();
        if !is_marked(text) {
            return Err(NumberFault::NotTwelveDigits);
        }
        WagonNumber::from_letters([
            text[0], text[1], text[3], text[4], text[6], text[7], text[8], text[9], text[11],
            text[12], text[13], text[15],
        ])
    }

    fn from_letters(letters: [u8; 12]) -> Result<WagonNumber, NumberFault>
        ensures { result ≡ number_of letters }
    {
        if !are_digits(&letters) {
            return Err(NumberFault::NotTwelveDigits);
        }
        let digits = digits_shown(letters);
        if digits[11] != digit_behind(&digits[..11]) {
            return Err(NumberFault::BadCheckDigit);
        }
        Ok(WagonNumber {
            number: number_shown(digits),
        })
    }

    /// The twelve digits, each from 0 to 9, the first first.
    pub fn digits(self) -> [u8; 12]
        ensures value { result ≡ digits_of self }
        ensures valid { IsValid result }
        ensures number { number_in result ≡ self }
    {
        digits_shown(self.letters())
    }

    /// The twelve digits as a text, which `read` reads as this number.
    pub fn text(self) -> NumberText
        ensures value { result ≡ text_of self }
        ensures read { number_of result ≡ Ok self }
    {
        NumberText::new(self.letters())
    }

    fn letters(self) -> [u8; 12]
        ensures value { result ≡ text_of self }
        ensures ascii { IsAscii result }
        ensures number { IsVehicleNumber self }
    {
        twelve_letters(self.number)
    }

    fn marked_letters(self) -> [u8; 16]
        ensures value { result ≡ marked_text self }
        ensures ascii { IsAscii result }
    {
        let d = self.letters();
        [
            d[0], d[1], b' ', d[2], d[3], b' ', d[4], d[5], d[6], d[7], b' ', d[8], d[9], d[10],
            b'-', d[11],
        ]
    }
}

// Whether the text has the length of the marked form, and its blanks and hyphen at their places.
fn is_marked(text: &[u8]) -> bool
    ensures { result ≡ has_marks text.now }
{
    text.len() == 16 && text[2] == b' ' && text[5] == b' ' && text[10] == b' ' && text[14] == b'-'
}

/// Prints the marked form, as `21 81 2471 217-3`.
impl fmt::Display for WagonNumber {
    ghost output = { λ wagon. Some (marked_text wagon) };

    fn fmt<W: fmt::Write>(&self, f: &mut fmt::Formatter<W>) -> fmt::Result {
        let letters = self.marked_letters();
        f.write_str(str::from_utf8(&letters).unwrap())
    }
}
