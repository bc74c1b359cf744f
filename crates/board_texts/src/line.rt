//! A text as a line.
ghost use Rattle.std.specs.Prelude.{◌≡◌, OnOk, IfOk};
ghost use Rattle.board_texts.specs.Lines.{as_line};

use taf_codes::Memory;

// The text with a newline behind it.
pub(crate) fn into_line(text: Vec<u8>) -> Result<Vec<u8>, Memory>
    ensures { IfOk result (λ line. line.items ≡ as_line text.items) }
{
    let mut line = text;
    line.push(b'\n')?;
    Ok(line)
}
