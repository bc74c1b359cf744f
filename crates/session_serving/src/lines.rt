//! Lines cut from what was read.
ghost use Rattle.std.specs.Prelude.{◌≤◌, ◌+◌, ◌++◌, ◌≡◌, length, take, vec_len, vec_capacity};
ghost use Rattle.session_serving.specs.Bytes.{max_kept, CutsNext};
ghost use Rattle.session_serving.specs.Output.{HasLineRoom};

use call_lines::next_newline;

/// How many bytes of a line are kept; what is past them is dropped.
pub(crate) const MAX_KEPT: usize = 65_537;

// Adds bytes to a line. What is past the most that is kept is dropped.
#[tactic(auto, using(crate::proofs::CutLemmas::kept_short, crate::proofs::CutLemmas::kept_long, crate::proofs::CutLemmas::is_max_kept))]
fn keep(line: &mut Vec<u8>, bytes: &[u8])
    requires fits { HasLineRoom line.old }
    ensures items { line.new.items ≡ take max_kept (line.old.items ++ bytes.now) }
    ensures fits { HasLineRoom line.new }
{
    let room = MAX_KEPT - line.len();
    if bytes.len() <= room {
        append(line, bytes);
    } else {
        append(line, &bytes[..room]);
    }
}

// Adds bytes for which there is room.
#[tactic(auto, using(crate::proofs::CutLemmas::is_max_kept))]
fn append(line: &mut Vec<u8>, bytes: &[u8])
    requires room { vec_len line.old + length bytes.now ≤ 65537 }
    requires fits { max_kept ≤ vec_capacity line.old }
    ensures items { line.new.items ≡ line.old.items ++ bytes.now }
    ensures fits { HasLineRoom line.new }
{
    let _ = line.extend_from_slice(bytes);
}

/// The next whole line of a chunk from a place on: what is kept of it, behind `line`, and where it
/// ends.
pub(crate) fn next_line(line: &mut Vec<u8>, chunk: &[u8], from: usize) -> Option<usize>
    requires order { from ≤ length chunk.now }
    requires short { HasLineRoom line.old }
    ensures cut { CutsNext line.old.items chunk.now from result line.new.items }
    ensures short { HasLineRoom line.new }
{
    match next_newline(chunk, from) {
        Some(end) => {
            keep(line, &chunk[from..end]);
            Some(end + 1)
        }
        None => {
            keep(line, &chunk[from..]);
            None
        }
    }
}
