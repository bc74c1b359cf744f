ghost use Rattle.std.specs.Prelude.{◌≡◌, ◌<◌, IsTrue, [], ◌∷◌};
ghost use Rattle.std.specs.Char.{is_ascii_digit};
ghost use Rattle.std.specs.Str.Parse.{digits_value};
ghost use Rattle.taf_moment.specs.Calendar.{digit_as_zero, has_form, number_in_letters, date_shown};

use crate::date::CalendarDate;

// The form of a moment's text, with `0` for each digit.
const FORM: &[u8; 17] = b"0000-00-00T00:00Z";

/// Whether the text has the form: digits and marks at their places.
pub(crate) fn is_formed(letters: &[u8]) -> bool
    ensures { result ≡ has_form letters.now }
{
    if letters.len() != FORM.len() {
        return false;
    }
    let mut fits = true;
    for (place, letter) in letters.iter().enumerate() {
        fits &= zero_for_digit(*letter) == FORM[place];
    }
    fits
}

// The letter, or `0` for a digit.
fn zero_for_digit(letter: u8) -> u8
    ensures { result ≡ digit_as_zero letter }
{
    if letter.is_ascii_digit() {
        b'0'
    } else {
        letter
    }
}

/// The date that a text of the form shows.
pub(crate) fn date_shown(letters: &[u8]) -> CalendarDate
    requires { IsTrue (has_form letters.now) }
    ensures value { result ≡ date_shown letters.now }
    ensures month { result.month < 100 }
    ensures day { result.day < 100 }
{
    let century = two_shown(letters[0], letters[1]);
    let year = two_shown(letters[2], letters[3]);
    CalendarDate {
        year: 100 * u16::from(century) + u16::from(year),
        month: two_shown(letters[5], letters[6]),
        day: two_shown(letters[8], letters[9]),
    }
}

/// The hour and the minute that a text of the form shows.
pub(crate) fn time_shown(letters: &[u8]) -> (u8, u8)
    requires { IsTrue (has_form letters.now) }
    ensures hour { result.0 ≡ number_in_letters letters.now 11 13 }
    ensures minute { result.1 ≡ number_in_letters letters.now 14 16 }
{
    (
        two_shown(letters[11], letters[12]),
        two_shown(letters[14], letters[15]),
    )
}

// The number that two digits show.
fn two_shown(tens: u8, ones: u8) -> u8
    requires tens { IsTrue (is_ascii_digit tens) }
    requires ones { IsTrue (is_ascii_digit ones) }
    ensures value { result ≡ digits_value 10 (tens ∷ ones ∷ []) }
    ensures bound { result < 100 }
{
    10 * (tens - b'0') + (ones - b'0')
}
