//! Sums of texts.
ghost use Rattle.std.specs.Prelude.{◌≡◌};
ghost use Rattle.journal_lines.specs.Sums.{with_byte, sum_after, first_sum};

// The prime of FNV-1a of 64 bits.
const PRIME: u64 = 0x100_0000_01b3;

/// What the sum of a journal's first line begins from: FNV-1a of `taf_hub journal 1`, the format and its version.
pub const fn first_sum() -> u64
    ensures { result ≡ first_sum }
{
    0xfe65_db00_c534_6ab0
}

/// The sum of a text behind a line of the sum `before`: FNV-1a of 64 bits, begun from that sum.
pub fn sum_after(before: u64, text: &[u8]) -> u64
    ensures { result ≡ sum_after before text.now }
{
    text.iter().fold(before, |sum, b| with_byte(sum, *b))
}

fn with_byte(sum: u64, b: u8) -> u64
    ensures { result ≡ with_byte sum b }
{
    (sum ^ u64::from(b)).wrapping_mul(PRIME)
}
