//! A writer of JSON whose texts need no escape and whose numbers are whole ones of 64 bits.
ghost use Rattle.std.specs.Prelude.{◌≡◌, ◌&&◌, ◌∷◌, ◌++◌, [], cond, decimal, ◌<◌, ◌≤◌, length, true, OnOk, OnErr};
ghost use Rattle.json.specs.Print.{print, begins, ends, token_text};
ghost use Rattle.json.specs.Reads.{token_of};
ghost use Rattle.json.specs.Token as token;
ghost use Rattle.json_tokens.specs.Texts.{AreSmall};
ghost use Rattle.json_tokens.specs.Writing.{is_plain, CanBePut, Writes};

use crate::buffer::Buffer;
use json::Token;
use std::alloc::AllocError;
use std::marker::Model;

// The most digits that a number has.
const MAX_DIGITS: usize = 20;

/// Appends JSON to a buffer, a token at a time. Each text is plain, so it stands there as it is, and each number is a whole
/// one of 64 bits, so a reader of such numbers finds the same one.
#[derive(Drop)]
pub struct Writer {
    out: Buffer,
    // Where its text begins.
    start: usize,
    // Whether a value has just ended: a comma comes before the next one.
    after_value: bool,
}

impl Model for Writer {
    ghost use Rattle.json.specs.Written.{Written, written_code};
    ghost use Rattle.json_tokens.specs.Writing.{written, IsWriting};

    ghost Value = { Written };

    ghost coded = { written_code };

    ghost view = { written };

    ghost invariant = { IsWriting };
}

impl Writer {
    /// It writes behind what the buffer holds.
    pub fn new(out: Buffer) -> Writer
        ensures before { result.before ≡ out.items }
        ensures tokens { result.tokens ≡ [] }
    {
        let start = out.len();
        Writer {
            out,
            start,
            after_value: false,
        }
    }

    /// The buffer with what was written.
    pub fn into_inner(self) -> Buffer
        ensures items { result.items ≡ self.before ++ print self.tokens }
        ensures small { AreSmall self.tokens }
    {
        let Writer { out, .. } = self;
        out
    }

    // Appends a token whose text these parts make, behind a comma where one is wanted.
    #[inline(always)]
    fn add(
        &mut self,
        token: Token<'_>,
        first: &[u8],
        middle: &[u8],
        last: &[u8],
    ) -> Result<(), AllocError>
        requires can { CanBePut (token_of token) }
        requires text { first.now ++ (middle.now ++ last.now) ≡ token_text (token_of token) }
        requires short { (length first.now ≤ 8) × (length last.now ≤ 8) }
        ensures { Writes result self.old self.new (token_of token.entry) }
    {
        let comma = wants_comma(self.after_value, token);
        match put_parts(&mut self.out, comma, first, middle, last) {
            Ok(()) => {
                self.after_value = ends(token);
                Ok(())
            }
            Err(e) => Err(e),
        }
    }

    #[inline(always)]
    pub fn begin_object(&mut self) -> Result<(), AllocError>
        ensures { Writes result self.old self.new token.begin_object }
    {
        self.add(Token::BeginObject, b"{", b"", b"")
    }

    #[inline(always)]
    pub fn end_object(&mut self) -> Result<(), AllocError>
        ensures { Writes result self.old self.new token.end_object }
    {
        self.add(Token::EndObject, b"}", b"", b"")
    }

    #[inline(always)]
    pub fn begin_array(&mut self) -> Result<(), AllocError>
        ensures { Writes result self.old self.new token.begin_array }
    {
        self.add(Token::BeginArray, b"[", b"", b"")
    }

    #[inline(always)]
    pub fn end_array(&mut self) -> Result<(), AllocError>
        ensures { Writes result self.old self.new token.end_array }
    {
        self.add(Token::EndArray, b"]", b"", b"")
    }

    #[inline(always)]
    pub fn key(&mut self, name: &str) -> Result<(), AllocError>
        requires { is_plain name.now ≡ true }
        ensures { Writes result self.old self.new (token.key name.now) }
    {
        self.add(Token::Key(name), b"\"", name.as_bytes(), b"\":")
    }

    #[inline(always)]
    pub fn string(&mut self, text: &str) -> Result<(), AllocError>
        requires { is_plain text.now ≡ true }
        ensures { Writes result self.old self.new (token.string text.now) }
    {
        self.add(Token::String(text), b"\"", text.as_bytes(), b"\"")
    }

    #[inline]
    pub fn u64(&mut self, number: u64) -> Result<(), AllocError>
        ensures { Writes result self.old self.new (token.number (decimal number)) }
    {
        self.out.reserve(MAX_DIGITS + 1)?;
        self.out.put_number(self.after_value, b"", number, b"");
        self.after_value = true;
        Ok(())
    }

    #[inline(always)]
    pub fn boolean(&mut self, flag: bool) -> Result<(), AllocError>
        ensures { Writes result self.old self.new (token.boolean flag) }
    {
        if flag {
            self.add(Token::Bool(true), b"true", b"", b"")
        } else {
            self.add(Token::Bool(false), b"false", b"", b"")
        }
    }

    #[inline(always)]
    pub fn null(&mut self) -> Result<(), AllocError>
        ensures { Writes result self.old self.new token.null }
    {
        self.add(Token::Null, b"null", b"", b"")
    }
}

// Whether a comma comes before the token: behind a value, unless the token is a closing bracket.
#[inline(always)]
fn wants_comma(after_value: bool, token: Token<'_>) -> bool
    ensures { result ≡ (after_value && begins (token_of token.entry)) }
{
    after_value && !matches!(token, Token::EndObject | Token::EndArray)
}

// Whether a value ends with the token.
#[inline(always)]
fn ends(token: Token<'_>) -> bool
    ensures { result ≡ ends (token_of token.entry) }
{
    !matches!(
        token,
        Token::BeginObject | Token::BeginArray | Token::Key(_)
    )
}

// Appends a comma, if one is wanted, and these parts behind it, all or nothing.
#[inline(always)]
fn put_parts(
    out: &mut Buffer,
    comma: bool,
    first: &[u8],
    middle: &[u8],
    last: &[u8],
) -> Result<(), AllocError>
    requires { (length first.now ≤ 8) × (length last.now ≤ 8) }
    ensures ok { OnOk result (out.new.items ≡ out.old.items
        ++ (cond comma (44 ∷ []) [] ++ (first.now ++ (middle.now ++ last.now)))) }
    ensures err { OnErr result (out.new.items ≡ out.old.items) }
{
    out.reserve(first.len() + middle.len() + last.len() + 1)?;
    out.put(comma, first, middle, last);
    Ok(())
}
