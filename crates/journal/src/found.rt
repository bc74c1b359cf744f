//! What the bytes of a file stand for.
ghost use Rattle.std.specs.Prelude.{◌≡◌, ◌≢◌, ◌<◌, ◌≤◌, ℕ, true, false, [], List, length, drop, slice_index};
ghost use Rattle.journal.specs.Lines.{recovered_lines, is_torn, read_on, HasWholeBatches, IsNeverLeft};

use crate::lines::next_newline;
use memchr::memchr;

/// What the bytes of a file stand for.
#[derive(Clone, Copy, Debug, PartialEq, Eq)]
pub(crate) struct FoundBatches {
    /// How many bytes the whole batches have: the index behind the last one.
    pub(crate) whole: usize,
    /// Whether what is behind them may be a torn end: no batch ends in it, but at its end.
    pub(crate) torn: bool,
}

/// Where the whole batches of the bytes end. Takes no memory.
pub(crate) fn find_batches(bytes: &[u8]) -> FoundBatches
    ensures found { HasWholeBatches bytes.now (recovered_lines bytes.now) result.whole result.torn }
    // What a crash may leave is never taken for damage.
    ensures damaged { result.torn ≡ false → IsNeverLeft bytes.now }
{
    let end = first_hole(bytes);
    let counted = &bytes[..end];
    let mut from = 0;
    let mut whole = 0;
    'lines: while let Some(newline) = next_newline(counted, from) {
        if newline == from {
            whole = newline + 1;
        }
        from = newline + 1;
    }
    let torn = may_be_torn(&bytes[whole..]);
    FoundBatches { whole, torn }
}

// Where the first byte 0 stands, or the end: what follows counts for nothing.
fn first_hole(bytes: &[u8]) -> usize
    ensures within { result ≤ length bytes.now }
    ensures before { (k : ℕ) → k < result → slice_index bytes.now k ≢ 0 }
    ensures hole { result < length bytes.now → slice_index bytes.now result ≡ 0 }
    ensures nothing { (line : List ℕ) (batch : List (List ℕ))
        → read_on line batch (drop result bytes.now) ≡ [] }
{
    match memchr(0, bytes) {
        Some(at) => at,
        None => bytes.len(),
    }
}

// Whether no batch ends within these bytes, but at their end.
fn may_be_torn(bytes: &[u8]) -> bool
    ensures { result ≡ is_torn true bytes.now }
{
    let mut empty = true;
    for i in 0..bytes.len() {
        let newline = bytes[i] == b'\n';
        if newline && empty {
            return i + 1 == bytes.len();
        }
        empty = newline;
    }
    true
}
