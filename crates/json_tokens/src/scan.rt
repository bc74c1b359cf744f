//! Records in the form in which they are written: no blanks, no escapes, no leading zeros.
ghost use Rattle.std.specs.Prelude.{◌≡◌, ◌+◌, ◌≤◌, ◌<◌, ◌∷◌, [], ◌++◌, true, decimal, length, map, take, IfOk, IfSome};
ghost use Rattle.std.specs.Simd.Lanes.{mask_l};
ghost use Rattle.json.specs.Print.{print, quoted, token_text};
ghost use Rattle.json.specs.Token as token;
ghost use Rattle.json_tokens.specs.Flat.{HaveSmallNumbers, IsSmallScalar, scalar_token};
ghost use Rattle.json_tokens.specs.FlatText.{PlainUpTo, flat_tokens, is_stop};

use crate::flat::{MAX_MEMBERS, Scalar};
use std::alloc::AllocError;
use std::simd::prelude::*;

// So many letters are looked at together.
const WINDOW: usize = 16;

/// Takes the members of a record in this form, and says whether the text is one.
pub(crate) fn scan_members<'a>(
    text: &'a str,
    members: &mut Vec<(&'a str, Scalar<'a>)>,
) -> Result<bool, AllocError>
    requires none { members.old.items ≡ [] }
    ensures small { IfOk result (λ is_record. is_record ≡ true → HaveSmallNumbers members.new.items) }
    ensures all { IfOk result (λ is_record. is_record ≡ true
        → text.now ≡ print (flat_tokens members.new.items)) }
{
    let Some(mut rest) = after(text, b'{') else {
        return Ok(false);
    };
    for i in 1..MAX_MEMBERS {
        let Some((name, said)) = key(rest) else {
            return Ok(false);
        };
        let Some((value, behind)) = value(said) else {
            return Ok(false);
        };
        members.push((name, value))?;
        match after(behind, b',') {
            Some(more) => rest = more,
            None => return Ok(behind == "}"),
        }
    }
    Ok(false)
}

// A key with its colon, and what follows.
#[inline(always)]
fn key(text: &str) -> Option<(&str, &str)>
    ensures { IfSome result (λ p. text.now ≡ token_text (token.key p.0.now) ++ p.1.now) }
{
    let (name, rest) = quoted(text)?;
    let said = after(rest, b':')?;
    Some((name, said))
}

// A text or a whole number, and what follows.
#[inline(always)]
fn value(text: &str) -> Option<(Scalar<'_>, &str)>
    ensures small { IfSome result (λ p. IsSmallScalar p.0) }
    ensures all { IfSome result (λ p. text.now ≡ token_text (scalar_token p.0) ++ p.1.now) }
{
    match quoted(text) {
        Some((said, rest)) => Some((Scalar::Text(said), rest)),
        None => whole_number(text),
    }
}

// A plain text between quotes, and what follows.
#[inline(always)]
fn quoted(text: &str) -> Option<(&str, &str)>
    ensures { IfSome result (λ p. text.now ≡ quoted p.0.now ++ p.1.now) }
{
    let inside = after(text, b'"')?;
    let end = plain_len(inside.as_bytes());
    if end < inside.len() && inside.as_bytes()[end] == b'"' {
        Some((&inside[..end], &inside[end + 1..]))
    } else {
        None
    }
}

// What follows the byte, if the text begins with it.
#[inline(always)]
fn after(text: &str, byte: u8) -> Option<&str>
    requires { byte < 128 }
    ensures { IfSome result (λ rest. text.now ≡ byte ∷ rest.now) }
{
    let bytes = text.as_bytes();
    if bytes.is_empty() || bytes[0] != byte {
        return None;
    }
    Some(&text[1..])
}

// How many bytes of a plain text come first.
#[inline(always)]
fn plain_len(text: &[u8]) -> usize
    ensures within { result ≤ length text.now }
    ensures plain { PlainUpTo text.now result }
{
    let mut start = 0;
    while text.len() - start >= WINDOW {
        let found = stops(u8x16::from_slice(&text[start..]));
        if found != 0 {
            return start + found.trailing_zeros() as usize;
        }
        start += WINDOW;
    }
    plain_len_from(text, start)
}

// Where these letters stop a plain text, as bits.
#[inline(always)]
fn stops(letters: u8x16) -> u64
    ensures { result ≡ mask_l (map is_stop letters) }
{
    (letters.simd_eq(u8x16::splat(b'"'))
        | letters.simd_eq(u8x16::splat(b'\\'))
        | letters.simd_lt(u8x16::splat(b' '))).to_bitmask()
}

// The same a letter at a time, from a place on.
fn plain_len_from(text: &[u8], start: usize) -> usize
    requires within { start ≤ length text.now }
    requires plain { PlainUpTo text.now start }
    ensures within { result ≤ length text.now }
    ensures plain { PlainUpTo text.now result }
{
    for i in start..text.len() {
        if is_stop(text[i]) {
            return i;
        }
    }
    text.len()
}

#[inline(always)]
fn is_stop(letter: u8) -> bool
    ensures { result ≡ is_stop letter }
{
    letter == b'"' || letter == b'\\' || letter < b' '
}

// A whole number, and what follows.
#[inline(always)]
fn whole_number(text: &str) -> Option<(Scalar<'_>, &str)>
    ensures small { IfSome result (λ p. IsSmallScalar p.0) }
    ensures all { IfSome result (λ p. text.now ≡ token_text (scalar_token p.0) ++ p.1.now) }
{
    let (len, number) = decimal_first(text.as_bytes())?;
    let (_, rest) = text.split_at_checked(len)?;
    Some((Scalar::Whole(number), rest))
}

// How long the decimal is that comes first, and its number. Something follows it, unless it is 0.
fn decimal_first(text: &[u8]) -> Option<(usize, u64)>
    ensures { IfSome result (λ p. take p.0 text.now ≡ decimal p.1) }
{
    if text.is_empty() {
        return None;
    }
    let mut number = digit(text[0])?;
    if number == 0 {
        return Some((1, 0));
    }
    for i in 1..text.len() {
        let Some(last) = digit(text[i]) else {
            return Some((i, number));
        };
        number = number.checked_mul(10)?.checked_add(last)?;
    }
    None
}

#[inline(always)]
fn digit(letter: u8) -> Option<u64>
    ensures { IfSome result (λ d. (d < 10) × (letter ≡ 48 + d)) }
{
    if letter.is_ascii_digit() {
        Some(u64::from(letter - b'0'))
    } else {
        None
    }
}
