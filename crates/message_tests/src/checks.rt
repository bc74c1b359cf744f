//! Checks that the tests share. What fails shows the line or the text that it fails at.
use call_reader::read_call;
use reply_writer::{Buffer, append_reply, write_fault, write_reply};
use std::alloc::Global;
use std::str;
use std::test::Fail;
use taf_codes::Memory;
use taf_messages::{Call, RecordFault, Reply};

/// The bytes as a text, for a failed test to show.
pub(crate) fn shown(bytes: &[u8]) -> &str {
    str::from_utf8(bytes).unwrap_or("no text")
}

/// Fails with what was written, unless it is this text.
pub(crate) fn is_text(written: Result<Vec<u8>, Memory>, text: &str) -> Result<(), Fail> {
    let written = written?;
    if written.as_slice() == text.as_bytes() {
        Ok(())
    } else {
        Err(Fail::new(shown(&written)))
    }
}

/// Fails with the first of the lines that is not this call.
pub(crate) fn are_call(alloc: Global, lines: &str, call: &Call) -> Result<(), Fail> {
    for line in lines.lines() {
        if read_call(alloc, line.as_bytes())? != *call {
            return Err(Fail::new(line));
        }
    }
    Ok(())
}

/// Fails with the line, unless its fault has this text. A line that is a call has the text `good`.
pub(crate) fn has_fault(alloc: Global, line: &[u8], text: &str) -> Result<(), Fail> {
    let holds = match read_call(alloc, line) {
        Ok(_) => text == "good",
        Err(fault) => is_fault(alloc, fault, text)?,
    };
    if holds {
        Ok(())
    } else {
        Err(Fail::new(shown(line)))
    }
}

fn is_fault(alloc: Global, fault: RecordFault, text: &str) -> Result<bool, Fail> {
    if fault == RecordFault::Memory {
        return Err(Fail::new("memory was refused"));
    }
    let written = write_fault(alloc, &fault)?;
    Ok(written.as_slice() == text.as_bytes())
}

/// Fails with the first line that does not have the fault under which it stands: `=` begins the text of
/// a fault, and the lines that have it follow.
pub(crate) fn have_faults(alloc: Global, cases: &str) -> Result<(), Fail> {
    for case in cases.split('=') {
        if let Some((text, lines)) = case.split_once('\n') {
            have_fault(alloc, lines, text)?;
        }
    }
    Ok(())
}

fn have_fault(alloc: Global, lines: &str, text: &str) -> Result<(), Fail> {
    for line in lines.lines() {
        has_fault(alloc, in_full(alloc, line)?.as_bytes(), text)?;
    }
    Ok(())
}

// The line with its lists in full: `<9 null>` stands for a list of nine times null, and `<60 wagons>` for
// one of sixty different wagons.
fn in_full(alloc: Global, line: &str) -> Result<String, Fail> {
    let mut whole = String::new(alloc);
    for part in line.split('>') {
        add_part(&mut whole, part)?;
    }
    Ok(whole)
}

// Adds a text, and in full the list that `<` begins in it.
fn add_part(whole: &mut String, part: &str) -> Result<(), Fail> {
    let (before, list) = part.split_once('<').unwrap_or((part, ""));
    whole.push_str(before)?;
    match list.split_once(' ') {
        Some((count, element)) => add_list(whole, count.parse::<u32>()?, element),
        None => Ok(()),
    }
}

// Different wagons, as texts of JSON.
static WAGONS: &str =
    r#""218124710003" "218124710011" "218124710029" "218124710037" "218124710045" "218124710052" "218124710060" "218124710078" "218124710086" "218124710094" "218124710102" "218124710110" "218124710128" "218124710136" "218124710144" "218124710151" "218124710169" "218124710177" "218124710185" "218124710193" "218124710201" "218124710219" "218124710227" "218124710235" "218124710243" "218124710250" "218124710268" "218124710276" "218124710284" "218124710292" "218124710300" "218124710318" "218124710326" "218124710334" "218124710342" "218124710359" "218124710367" "218124710375" "218124710383" "218124710391" "218124710409" "218124710417" "218124710425" "218124710433" "218124710441" "218124710458" "218124710466" "218124710474" "218124710482" "218124710490" "218124710508" "218124710516" "218124710524" "218124710532" "218124710540" "218124710557" "218124710565" "218124710573" "218124710581" "218124710599" "218124710607""#;

fn add_list(whole: &mut String, count: u32, element: &str) -> Result<(), Fail> {
    let elements = if element == "wagons" { WAGONS } else { element };
    let mut rest = elements.split(' ');
    let mut before = '[';
    for _ in 0..count {
        whole.push(before)?;
        whole.push_str(rest.next().unwrap_or(element))?;
        before = ',';
    }
    Ok(whole.push(']')?)
}

/// Fails unless the reply has this text, alone and behind other text.
pub(crate) fn is_written(alloc: Global, reply: &Reply, text: &str) -> Result<(), Fail> {
    is_text(write_reply(alloc, reply), text)?;
    let mut out = Buffer::new(Vec::from_slice(alloc, b"before\n")?);
    append_reply(alloc, &mut out, reply)?;
    match shown(out.as_slice()).strip_prefix("before\n") {
        Some(rest) if rest == text => Ok(()),
        _ => Err(Fail::new(text)),
    }
}
