//! The columns of a line: what is appended to it.
ghost use Rattle.std.specs.Prelude.{◌≡◌, ◌-◌, ◌≤◌, ◌++◌, ◌∷◌, OnOk, Option, length, replicate, string_bytes};
ghost use Rattle.wimo_report.specs.Report.{left_aligned, right_aligned, units_text};

use std::alloc::AllocError;
use taf_codes::UnitCode;

// The width of the columns that are filled with blanks.
const WIDTH: usize = 9;

/// Appends a blank and the text.
pub(crate) fn put(line: &mut String, text: &str) -> Result<(), AllocError>
    ensures { OnOk result (string_bytes line.new ≡ string_bytes line.old ++ (32 ∷ text.now)) }
{
    line.push_str(" ")?;
    line.push_str(text)
}

/// Appends a blank and the text, at the left of its column.
pub(crate) fn put_left(line: &mut String, text: &str) -> Result<(), AllocError>
    ensures { OnOk result (string_bytes line.new ≡ string_bytes line.old
        ++ (32 ∷ left_aligned text.now)) }
{
    put(line, text)?;
    put_blanks(line, WIDTH.saturating_sub(text.len()))
}

/// Appends a blank and the text, at the right of its column.
pub(crate) fn put_right(line: &mut String, text: &str) -> Result<(), AllocError>
    ensures { OnOk result (string_bytes line.new ≡ string_bytes line.old
        ++ (32 ∷ right_aligned text.now)) }
{
    put(line, "")?;
    put_blanks(line, WIDTH.saturating_sub(text.len()))?;
    line.push_str(text)
}

// Appends so many blanks.
fn put_blanks(line: &mut String, count: usize) -> Result<(), AllocError>
    ensures { OnOk result (string_bytes line.new ≡ string_bytes line.old ++ replicate count 32) }
{
    for _i in 0..count {
        line.push_str(" ")?;
    }
    Ok(())
}

/// Appends a blank and the units with commas between them, if there are any.
pub(crate) fn put_units(line: &mut String, units: &[UnitCode]) -> Result<(), AllocError>
    ensures { OnOk result (string_bytes line.new ≡ string_bytes line.old ++ units_text units.now) }
{
    let Some((first, others)) = units.split_first() else {
        return Ok(());
    };
    put(line, first.as_str())?;
    for unit in others {
        line.push_str(",")?;
        line.push_str(unit.as_str())?;
    }
    Ok(())
}
