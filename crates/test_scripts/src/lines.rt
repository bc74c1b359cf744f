ghost use Rattle.std.specs.Prelude.{◌≡◌, ◌++◌, ◌∷◌, [], OnOk};

use reply_writer::{Buffer, append_reply};
use std::alloc::{AllocError, Global};
use taf_codes::Memory;
use tallies::Tally;

/// Adds a line with its newline.
pub fn add_line(lines: &mut Vec<u8>, line: &[u8]) -> Result<(), AllocError>
    ensures { OnOk result (lines.new.items ≡ lines.old.items ++ line.now ++ 10 ∷ []) }
{
    lines.extend_from_slice(line)?;
    lines.push(b'\n')?;
    Ok(())
}

/// How many newlines there are.
pub fn count_lines(bytes: &[u8]) -> usize {
    bytes.iter().filter(|byte| **byte == b'\n').count()
}

/// How many whole lines there are that are not blank.
pub fn count_answered(bytes: &[u8]) -> usize {
    let mut lines: usize = 0;
    let mut is_blank = true;
    for byte in bytes {
        if *byte > b' ' {
            is_blank = false;
        } else if *byte == b'\n' {
            lines = lines.saturating_add(usize::from(!is_blank));
            is_blank = true;
        }
    }
    lines
}

/// The first lines, so many of them.
pub fn first_lines(lines: &[u8], many: usize) -> &[u8] {
    let mut left = many;
    for (i, byte) in lines.iter().enumerate() {
        if left == 0 {
            return lines.get(..i).unwrap_or(lines);
        }
        if *byte == b'\n' {
            left -= 1;
        }
    }
    lines
}

/// The lines of the replies in a tally.
pub fn replies_of(alloc: Global, tally: &Tally) -> Result<Vec<u8>, Memory> {
    let mut lines = Buffer::new(Vec::new(alloc));
    for told in tally.entries() {
        append_reply(alloc, &mut lines, &told.reply)?;
        lines.push_text(b"\n")?;
    }
    Ok(lines.into_vec())
}
