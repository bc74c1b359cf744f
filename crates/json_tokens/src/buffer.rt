//! Bytes that grow by short texts. Some room behind them is filled ahead, so that a text is stored after one test, in words.
ghost use Rattle.std.specs.Prelude.{◌≡◌, ◌+◌, ◌<◌, ◌≤◌, ◌++◌, ◌∷◌, [], cond, decimal, length, take, OnOk, OnErr};
ghost use Rattle.json.specs.Filled.{Placed};

use itoa::write_digits;
use std::alloc::AllocError;
use std::marker::Model;
use std::simd::Simd;

// So many bytes are filled at once.
const AHEAD: usize = 256;

static ZEROS: [u8; AHEAD] = [0; AHEAD];

/// A list of bytes, and how many more are ready to be written. Those that are ready stay so where the list gets shorter.
#[derive(Drop)]
pub struct Buffer {
    // The bytes, and behind them those that are ready.
    bytes: Vec<u8>,
    len: usize,
}

impl Model for Buffer {
    ghost use Rattle.std.specs.Prelude.{◌-◌, ◌≤◌, length, take};
    ghost use Rattle.json.specs.Filled.{Filled, filled_code};

    ghost Value = { Filled };

    ghost coded = { filled_code };

    ghost view = { λ b. record {
      items = take b.len b.bytes.items;
      spare = 0;
      ready = length b.bytes.items - b.len;
    } };

    ghost invariant = { λ b. b.len ≤ length b.bytes.items };
}

impl Buffer {
    /// A list of these bytes.
    pub fn new(bytes: Vec<u8>) -> Buffer
        ensures { result.items ≡ bytes.items }
    {
        let len = bytes.len();
        Buffer { bytes, len }
    }

    /// The bytes of the list alone.
    pub fn into_vec(self) -> Vec<u8>
        ensures { result.items ≡ self.items }
    {
        let Buffer { mut bytes, len } = self;
        bytes.truncate(len);
        bytes
    }

    /// How many bytes the list has.
    pub fn len(&self) -> usize
        ensures { result ≡ length self.now.items }
    {
        self.len
    }

    /// The bytes of the list.
    pub fn as_slice(&self) -> &[u8]
        ensures value { result.now ≡ self.now.items }
    {
        &self.bytes[..self.len]
    }

    /// Removes all bytes.
    pub fn clear(&mut self)
        ensures items { self.new.items ≡ [] }
        ensures ready { self.old.ready ≤ self.new.ready }
    {
        self.len = 0;
    }

    /// Keeps the first bytes, so many of them, or all where there are fewer.
    pub fn truncate(&mut self, len: usize)
        ensures items { self.new.items ≡ take len self.old.items }
        ensures ready { self.old.ready ≤ self.new.ready }
    {
        self.len = self.len.min(len);
    }

    /// Adds a text. Where memory is refused, the bytes stay.
    #[inline(always)]
    pub fn push_text(&mut self, text: &[u8]) -> Result<(), AllocError>
        ensures ok { OnOk result (self.new.items ≡ self.old.items ++ text.now) }
        ensures err { OnErr result (self.new.items ≡ self.old.items) }
    {
        self.reserve(text.len() + 1)?;
        self.put(false, text, b"", b"");
        Ok(())
    }

    /// Makes so many bytes ready. Where memory is refused, the bytes stay.
    #[inline(always)]
    pub fn reserve(&mut self, count: usize) -> Result<(), AllocError>
        ensures items { self.new.items ≡ self.old.items }
        ensures ready { OnOk result (count ≤ self.new.ready) }
    {
        if count <= self.bytes.len() - self.len {
            return Ok(());
        }
        self.fill(count)
    }

    #[cold]
    #[inline(never)]
    fn fill(&mut self, count: usize) -> Result<(), AllocError>
        requires { self.old.ready < count }
        ensures items { self.new.items ≡ self.old.items }
        ensures ready { OnOk result (count ≤ self.new.ready) }
    {
        let missing = count - (self.bytes.len() - self.len);
        if missing <= AHEAD {
            self.bytes.extend_from_slice(&ZEROS)
        } else {
            let filled = self.bytes.len();
            self.bytes.reserve(missing)?;
            self.bytes.resize(filled + missing, 0)
        }
    }

    /// Adds a comma, if one is wanted, and these texts behind it.
    #[inline(always)]
    pub fn put(&mut self, comma: bool, first: &[u8], middle: &[u8], last: &[u8])
        requires { length first.now + length middle.now + length last.now + 1 ≤ self.old.ready }
        ensures { self.new.items ≡ self.old.items
            ++ (cond comma (44 ∷ []) [] ++ (first.now ++ (middle.now ++ last.now))) }
    {
        let buf = self.bytes.as_mut_slice();
        let at = place_comma(buf, self.len, comma);
        let at = place(buf, at, first);
        let at = place(buf, at, middle);
        self.len = place(buf, at, last);
    }

    /// Adds a comma, if one is wanted, and behind it a text, the digits of a number, and another text.
    #[inline(always)]
    pub fn put_number(&mut self, comma: bool, first: &[u8], number: u64, last: &[u8])
        requires { length first.now + length (decimal number) + length last.now + 1
            ≤ self.old.ready }
        ensures { self.new.items ≡ self.old.items
            ++ (cond comma (44 ∷ []) [] ++ (first.now ++ (decimal number ++ last.now))) }
    {
        let buf = self.bytes.as_mut_slice();
        let at = place_comma(buf, self.len, comma);
        let at = place(buf, at, first);
        let at = place_number(buf, at, number);
        self.len = place(buf, at, last);
    }
}

// The comma is stored in any case, and counts where it is wanted.
#[inline(always)]
fn place_comma(buf: &mut [u8], at: usize, wanted: bool) -> usize
    requires { at < length buf.old }
    ensures { Placed buf.old buf.new at (cond wanted (44 ∷ []) []) result }
{
    buf[at] = b',';
    if wanted { at + 1 } else { at }
}

// A word of N bytes.
#[inline(always)]
fn place_word<const N: usize>(buf: &mut [u8], at: usize, text: &[u8]) -> usize
    requires { (N ≤ length text.now) × (at + N ≤ length buf.old) }
    ensures { Placed buf.old buf.new at (take N text.now) result }
{
    Simd::<u8, N>::from_slice(text).copy_to_slice(&mut buf[at..]);
    at + N
}

// A text as two words of N bytes, which overlap unless it has twice as many.
#[inline(always)]
fn place_words<const N: usize>(buf: &mut [u8], at: usize, text: &[u8]) -> usize
    requires fits { at + length text.now ≤ length buf.old }
    requires covered { (N ≤ length text.now) × (length text.now ≤ N + N) }
    ensures { Placed buf.old buf.new at text.now result }
{
    let second = text.len() - N;
    let _first_end = place_word::<N>(buf, at, text);
    place_word::<N>(buf, at + second, &text[second..])
}

// A text of any length. Most have no more than 20 bytes.
#[inline(always)]
fn place(buf: &mut [u8], at: usize, text: &[u8]) -> usize
    requires { at + length text.now ≤ length buf.old }
    ensures { Placed buf.old buf.new at text.now result }
{
    match text.len() {
        0 => at,
        1 => place_word::<1>(buf, at, text),
        2..=3 => place_words::<2>(buf, at, text),
        4..=7 => place_words::<4>(buf, at, text),
        8..=16 => place_words::<8>(buf, at, text),
        17..=32 => place_words::<16>(buf, at, text),
        _ => place_long(buf, at, text),
    }
}

// The digits of a number, each stored at its place.
#[inline(always)]
fn place_number(buf: &mut [u8], at: usize, number: u64) -> usize
    requires { at + length (decimal number) ≤ length buf.old }
    ensures { Placed buf.old buf.new at (decimal number) result }
{
    let end = at + digit_count(number);
    let _start = write_digits(number, buf, end);
    end
}

// How many digits a number has.
#[inline(always)]
fn digit_count(number: u64) -> usize
    ensures { result ≡ length (decimal number) }
{
    let mut left = number;
    let mut count = 0;
    while left >= 10_000 {
        left /= 10_000;
        count += 4;
    }
    count + short_digit_count(left)
}

// How many digits a number below 10,000 has.
#[inline(always)]
fn short_digit_count(number: u64) -> usize
    requires { number < 10000 }
    ensures { result ≡ length (decimal number) }
{
    match number {
        0..=9 => 1,
        10..=99 => 2,
        100..=999 => 3,
        _ => 4,
    }
}

fn place_long(buf: &mut [u8], at: usize, text: &[u8]) -> usize
    requires { at + length text.now ≤ length buf.old }
    ensures { Placed buf.old buf.new at text.now result }
{
    let end = at + text.len();
    buf[at..end].copy_from_slice(text);
    end
}
