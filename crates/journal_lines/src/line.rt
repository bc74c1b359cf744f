//! Calls as lines, and lines as calls.
ghost use Rattle.std.specs.Prelude.{◌≡◌, ◌<◌, true, false, drop, take, length, ◌≢◌, ◌↔◌, IfOk, IfErr, IfSome, IfNone, OnOk, IsTrue};
ghost use Rattle.std.specs.List.{list_all};
ghost use Rattle.journal.specs.Lines.{is_line};
ghost use Rattle.reply_writer.specs.Laws.{IsCall};
ghost use Rattle.journal_lines.specs.Sums.{digits_of, are_sum_digits, is_sum_digit};
ghost use Rattle.journal_lines.specs.CallLines.{call_text, line_text, call_sum, digits_in_front};
ghost use Rattle.journal_lines.specs.LineFaults.{fault_of_record, IsNoCall, IsLineFault};

use crate::fault::LineFault;
use crate::sum::sum_after;
use call_reader::{CallReader, FlatRecord};
use reply_writer::{Buffer, append_call};
use std::alloc::{AllocError, Global};
use taf_codes::Memory;
use taf_messages::{Call, RecordFault};

// Where the digits of a sum stand in a line.
const DIGITS: usize = 9;

const DIGITS_END: usize = 25;

// Where the text of the call goes on behind its first brace.
const REST: usize = 27;

/// The line of a call behind a line of the sum `before`, and its own sum. It is one that a journal takes, without its newline.
pub fn line_of(alloc: Global, before: u64, call: &Call) -> Result<(Vec<u8>, u64), Memory>
    ensures text { IfOk result (λ r. r.0.items ≡ line_text r.1 call.now) }
    ensures sum { IfOk result (λ r. r.1 ≡ call_sum before call.now) }
    ensures line { IfOk result (λ r. is_line r.0.items ≡ true) }
{
    let text = text_of(alloc, call)?;
    let sum = sum_after(before, text.as_slice());
    let line = put_digits(alloc, &digits_of(sum), text.as_slice())?;
    Ok((line, sum))
}

/// The call of a line behind a line of the sum `before`, and the sum of the line: [`LineReader::read`] for one line.
pub fn read_line(alloc: Global, before: u64, line: &[u8]) -> Result<(Call, u64), LineFault>
    ensures text { IfOk result (λ r. line.now ≡ line_text r.1 r.0) }
    ensures sum { IfOk result (λ r. r.1 ≡ call_sum before r.0) }
    // The parts of the call keep their limits.
    ensures limits { IfOk result (λ r. IsCall r.0) }
    ensures fault { IfErr result (λ f. IsLineFault f before line.now) }
{
    LineReader::new(alloc).read(before, line)
}

/// Reads the calls of many lines, and keeps the memory that reading takes from line to line.
#[derive(Drop)]
pub struct LineReader<'a> {
    alloc: Global,
    reader: CallReader,
    record: FlatRecord<'a>,
    // The text of the last call.
    text: Buffer,
}

impl<'a> LineReader<'a> {
    /// A reader that has read no line. Takes no memory.
    pub fn new(alloc: Global) -> LineReader<'a> {
        LineReader {
            alloc,
            reader: CallReader::new(alloc),
            record: FlatRecord::new(alloc),
            text: Buffer::new(Vec::new(alloc)),
        }
    }

    /// The call of a line behind a line of the sum `before`, and the sum of the line, whatever was read before.
    ///
    /// `NoCall` where the line is not just the text of a call with the digits of a sum in front, `OtherSum` where these digits are
    /// not those of the sum that the text and `before` give, `Memory` where memory was refused.
    pub fn read(&mut self, before: u64, line: &'a [u8]) -> Result<(Call, u64), LineFault>
        ensures text { IfOk result (λ r. line.now ≡ line_text r.1 r.0) }
        ensures sum { IfOk result (λ r. r.1 ≡ call_sum before r.0) }
        // The parts of the call keep their limits.
        ensures limits { IfOk result (λ r. IsCall r.0) }
        ensures fault { IfErr result (λ f. IsLineFault f before line.now) }
    {
        let Some(digits) = stated_digits(line) else {
            return Err(LineFault::NoCall);
        };
        let call = self.read_text(line)?;
        let sum = sum_after(before, self.text.as_slice());
        if !are_digits_of(digits, sum) {
            return Err(LineFault::OtherSum);
        }
        Ok((call, sum))
    }

    // The call of a line that has the digits of a sum. Its text is kept.
    fn read_text(&mut self, line: &'a [u8]) -> Result<Call, LineFault>
        requires { are_sum_digits (take 16 (drop 9 line.now)) ≡ true }
        ensures text { IfOk result (λ call. self.new.text.items ≡ call_text call) }
        ensures line { OnOk result (line.now
            ≡ digits_in_front (take 16 (drop 9 line.now)) self.new.text.items) }
        ensures limits { IfOk result (λ call. IsCall call) }
        ensures fault { IfErr result (λ f. f ≡ LineFault.NoCall → IsNoCall line.now) }
        ensures no_sum { IfErr result (λ f. f ≢ LineFault.OtherSum) }
    {
        let call = match self.reader.read(&mut self.record, line) {
            Ok(call) => call,
            Err(fault) => return Err(line_fault(fault)),
        };
        self.text.clear();
        let Ok(()) = append_call(self.alloc, &mut self.text, &call) else {
            return Err(LineFault::Memory);
        };
        if !has_text(line, self.text.as_slice()) {
            return Err(LineFault::NoCall);
        }
        Ok(call)
    }
}

// Whether a line that has the digits of a sum is this text with them in front.
fn has_text(line: &[u8], text: &[u8]) -> bool
    requires digits { are_sum_digits (take 16 (drop 9 line.now)) ≡ true }
    requires text { 0 < length text.now }
    ensures { IsTrue result
        ↔ (line.now ≡ digits_in_front (take 16 (drop 9 line.now)) text.now) }
{
    if line.len() < REST {
        return false;
    }
    is_same(&line[..DIGITS], b"{\"_sum\":\"")
        && is_same(&line[DIGITS_END..REST], b"\",")
        && is_same(&line[REST..], &text[1..])
}

// Why a line that has this fault is not taken.
fn line_fault(fault: RecordFault) -> LineFault
    ensures { result ≡ fault_of_record fault }
{
    match fault {
        RecordFault::Memory => LineFault::Memory,
        _ => LineFault::NoCall,
    }
}

// The text of a call.
fn text_of(alloc: Global, call: &Call) -> Result<Vec<u8>, Memory>
    ensures { IfOk result (λ text. text.items ≡ call_text call.now) }
{
    let mut text = Buffer::new(Vec::new(alloc));
    append_call(alloc, &mut text, call)?;
    Ok(text.into_vec())
}

// A text with the digits of a sum in front.
fn put_digits(alloc: Global, digits: &[u8], text: &[u8]) -> Result<Vec<u8>, AllocError>
    requires { 0 < length text.now }
    ensures { IfOk result (λ line. line.items ≡ digits_in_front digits.now text.now) }
{
    let mut line = Vec::with_capacity(alloc, text.len() + DIGITS_END + 1)?;
    line.extend_from_slice(b"{\"_sum\":\"")?;
    line.extend_from_slice(digits)?;
    line.extend_from_slice(b"\",")?;
    line.extend_from_slice(&text[1..])?;
    Ok(line)
}

// The digits of a sum.
fn digits_of(sum: u64) -> [u8; 16]
    ensures { result ≡ digits_of sum }
{
    let mut digits = [0; 16];
    match hex::encode_to_slice(sum.to_be_bytes(), &mut digits) {
        Ok(()) => digits,
        Err(_) => unreachable!(),
    }
}

fn are_digits_of(digits: &[u8], sum: u64) -> bool
    ensures { IsTrue result ↔ (digits.now ≡ digits_of sum) }
{
    is_same(digits, &digits_of(sum))
}

// What a line has where the digits of its sum stand, if they are the digits of a sum.
fn stated_digits(line: &[u8]) -> Option<&[u8]>
    ensures stated { IfSome result (λ d. d.now ≡ take 16 (drop 9 line.now)) }
    ensures digits { IfSome result (λ d. are_sum_digits d.now ≡ true) }
    ensures none { IfNone result (are_sum_digits (take 16 (drop 9 line.now)) ≡ false) }
{
    if line.len() < DIGITS_END {
        return None;
    }
    let digits = &line[DIGITS..DIGITS_END];
    if has_sum_digits(digits) {
        Some(digits)
    } else {
        None
    }
}

fn has_sum_digits(digits: &[u8]) -> bool
    ensures { result ≡ list_all is_sum_digit digits.now }
{
    digits.iter().all(|b| is_sum_digit(*b))
}

fn is_sum_digit(b: u8) -> bool
    ensures { result ≡ is_sum_digit b }
{
    matches!(b, b'0'..=b'9' | b'a'..=b'f')
}

fn is_same(bytes: &[u8], others: &[u8]) -> bool
    ensures { IsTrue result ↔ (bytes.now ≡ others.now) }
{
    bytes == others
}
