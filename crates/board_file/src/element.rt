//! A line of JSON as an element of the page.
ghost use Rattle.std.specs.Prelude.{◌≡◌, ◌++◌, OnOk};
ghost use Rattle.board_file.specs.Files.{element, escaped, escaped_byte, owner_of};

use taf_codes::{Memory, Railway};

/// Appends the element of this name, which has the line, and names the railway to which it is shown, if there is one.
pub(crate) fn add_element(
    file: &mut Vec<u8>,
    name: &str,
    by: &Option<Railway>,
    line: &[u8],
) -> Result<(), Memory>
    ensures { OnOk result (file.new.items ≡ file.old.items ++ element name.now by.now line.now) }
{
    file.extend_from_slice(b"<script type=\"application/json\" id=\"")?;
    file.extend_from_slice(name.as_bytes())?;
    file.extend_from_slice(b"\"")?;
    add_owner(file, by)?;
    file.extend_from_slice(b">")?;
    add_escaped(file, line)?;
    Ok(file.extend_from_slice(b"</script>\n")?)
}

// Appends the attribute that names the railway, if there is one.
fn add_owner(file: &mut Vec<u8>, by: &Option<Railway>) -> Result<(), Memory>
    ensures { OnOk result (file.new.items ≡ file.old.items ++ owner_of by.now) }
{
    let Some(by) = by else {
        return Ok(());
    };
    file.extend_from_slice(b" data-railway=\"")?;
    file.extend_from_slice(by.as_str().as_bytes())?;
    Ok(file.extend_from_slice(b"\"")?)
}

// Appends the text, with each `<` as an escape of JSON.
fn add_escaped(file: &mut Vec<u8>, text: &[u8]) -> Result<(), Memory>
    ensures { OnOk result (file.new.items ≡ file.old.items ++ escaped text.now) }
{
    for byte in text {
        add_byte(file, *byte)?;
    }
    Ok(())
}

// Appends the byte of a text, or its escape.
fn add_byte(file: &mut Vec<u8>, byte: u8) -> Result<(), Memory>
    ensures { OnOk result (file.new.items ≡ file.old.items ++ escaped_byte byte) }
{
    if byte == b'<' {
        file.extend_from_slice(b"\\u003c")?;
    } else {
        file.push(byte)?;
    }
    Ok(())
}
