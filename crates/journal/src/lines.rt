//! The lines of a text.
ghost use Rattle.std.specs.Prelude.{◌≡◌, ◌<◌, ◌≤◌, [], ◌∷◌, length, drop, IfSome, IfNone, MatchOption};
ghost use Rattle.journal.specs.Lines.{text_lines, HasNoNewline, IsNextNewline};

use memchr::memchr;

/// A line of a text, without its newline, and where the next line begins.
#[derive(Clone, Copy, Debug)]
pub struct Line<'a> {
    /// The line. It is not empty.
    pub line: &'a [u8],
    /// The index behind its newline.
    pub next: usize,
}

/// The first line of a text from an index on, at which a line begins. Empty lines are passed over, and so is what has no newline
/// at its end. None where no line is left.
pub fn next_line(text: &[u8], from: usize) -> Option<Line<'_>>
    requires { from ≤ length text.now }
    ensures line { IfSome result (λ l. text_lines (drop from text.now)
        ≡ l.line.now ∷ text_lines (drop l.next text.now)) }
    ensures order { IfSome result (λ l. (from < l.next) × (l.next ≤ length text.now)) }
    ensures none { IfNone result (text_lines (drop from text.now) ≡ []) }
{
    let mut start = from;
    'lines: while let Some(end) = next_newline(text, start) {
        if start < end {
            return Some(Line {
                line: &text[start..end],
                next: end + 1,
            });
        }
        start = end + 1;
    }
    None
}

/// The first newline at or behind an index, which is at most the length. None where no newline follows.
pub(crate) fn next_newline(bytes: &[u8], from: usize) -> Option<usize>
    requires { from ≤ length bytes.now }
    ensures { MatchOption result
        (HasNoNewline bytes.now from (length bytes.now))
        (λ end. IsNextNewline bytes.now from end) }
{
    match memchr(b'\n', &bytes[from..]) {
        None => None,
        Some(at) => Some(from + at),
    }
}
