//! Bytes of codes as texts, and tests of their letters.
ghost use Rattle.std.specs.Prelude.{◌≡◌, ◌≤◌, ◌==◌, length, if◌then◌else◌};
ghost use Rattle.std.specs.Char.{is_ascii_digit, is_ascii_uppercase};
ghost use Rattle.std.specs.List.{list_all};
ghost use Rattle.std.specs.Str.{IsAscii};
ghost use Rattle.taf_codes.specs.Codes.{are_code_letters, are_letters_then_digits, are_name_letters, is_name};

use std::str;

/// The bytes of a text that has exactly so many.
pub(crate) fn bytes_of<const N: usize>(text: &str) -> Option<[u8; N]>
    ensures { result ≡ (if length text.now == N then Some text.now else None) }
{
    text.as_bytes().try_into().ok()
}

/// The text that these bytes are.
pub(crate) fn ascii_text(letters: &[u8]) -> &str
    requires { IsAscii letters.now }
    ensures { result.now ≡ letters.now }
{
    unsafe { str::from_utf8_unchecked(letters) }
}

/// Whether each byte is a capital letter or a digit.
pub(crate) fn are_code_letters(letters: &[u8]) -> bool
    ensures { result ≡ are_code_letters letters.now }
{
    letters.iter().all(|letter| letter.is_ascii_uppercase() || letter.is_ascii_digit())
}

/// Whether these are 1 to 20 capital letters, digits and hyphens.
pub(crate) fn is_name(letters: &[u8]) -> bool
    ensures { result ≡ is_name letters.now }
{
    !letters.is_empty() && letters.len() <= 20 && are_name_letters(letters)
}

fn are_name_letters(letters: &[u8]) -> bool
    ensures { result ≡ are_name_letters letters.now }
{
    letters.iter().all(|letter| letter.is_ascii_uppercase()
        || letter.is_ascii_digit()
        || *letter == b'-')
}

/// Whether the first bytes are so many capital letters, and the others are digits.
pub(crate) fn are_letters_then_digits(text: &[u8], letters: usize) -> bool
    requires { letters ≤ length text.now }
    ensures { result ≡ are_letters_then_digits letters text.now }
{
    are_letters(&text[..letters]) && are_digits(&text[letters..])
}

fn are_letters(text: &[u8]) -> bool
    ensures { result ≡ list_all is_ascii_uppercase text.now }
{
    text.iter().all(u8::is_ascii_uppercase)
}

fn are_digits(text: &[u8]) -> bool
    ensures { result ≡ list_all is_ascii_digit text.now }
{
    text.iter().all(u8::is_ascii_digit)
}
