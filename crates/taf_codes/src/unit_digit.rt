//! The check digit of an intermodal unit's code by ISO 6346.
ghost use Rattle.std.specs.Prelude.{◌≡◌, ◌≤◌, length};
ghost use Rattle.taf_codes.specs.UnitDigits.{check_digit, ends_in_check_digit, value_of, weighed_sum};

/// Whether the eleventh byte is the check digit of the ten before it.
pub(crate) fn ends_in_check_digit(text: &[u8; 11]) -> bool
    ensures { result ≡ ends_in_check_digit text.now }
{
    text[10] == b'0' + check_digit(&text[..10])
}

// The digit that belongs to four letters and six digits, 0 to 9.
fn check_digit(text: &[u8]) -> u8
    requires { length text.now ≤ 10 }
    ensures { result ≡ check_digit text.now }
{
    (weighed_sum(text) % 11 % 10) as u8
}

// The values of the letters, multiplied by 1, 2, 4, .., and added.
fn weighed_sum(text: &[u8]) -> u32
    requires { length text.now ≤ 10 }
    ensures { result ≡ weighed_sum text.now }
{
    let mut sum = 0;
    for (place, letter) in text.iter().enumerate() {
        sum += u32::from(value_of(*letter)) << place;
    }
    sum
}

// The value of a capital letter or of a digit: letters leave out 11, 22 and 33.
fn value_of(letter: u8) -> u8
    ensures { result ≡ value_of letter }
{
    match letter {
        ..b'A' => letter.saturating_sub(b'0'),
        b'A' => 10,
        b'B'..=b'K' => letter - b'B' + 12,
        b'L'..=b'U' => letter - b'L' + 23,
        b'V'.. => letter - b'V' + 34,
    }
}
