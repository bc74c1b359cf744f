//! Where a line ends.
ghost use Rattle.std.specs.Prelude.{◌≡◌, ◌≤◌, true, length, drop, MatchOption};
ghost use Rattle.call_lines.specs.Lines.{has_no_newline, IsNextNewline};

use memchr::memchr;

/// The first newline at or after a place, which is at most the length. None where no newline follows.
pub fn next_newline(bytes: &[u8], from: usize) -> Option<usize>
    requires { from ≤ length bytes.now }
    ensures { MatchOption result
        (has_no_newline (drop from bytes.now) ≡ true)
        (λ end. IsNextNewline bytes.now from end) }
{
    match memchr(b'\n', &bytes[from..]) {
        None => None,
        Some(at) => Some(from + at),
    }
}
