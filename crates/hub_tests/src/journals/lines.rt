//! The lines of calls.
use call_reader::read_call;
use journal_lines::{LineFault, first_sum, line_of, read_line, sum_after};
use std::alloc::Global;
use std::str;
use std::test::Fail;

// Texts and their sums from the basis of FNV-1a of 64 bits on, as its authors give them.
static SUMS: [(&[u8], u64); 3] = [
    (b"", 0xcbf2_9ce4_8422_2325),
    (b"a", 0xaf63_dc4c_8601_ec8c),
    (b"foobar", 0x8594_4171_f739_67e8),
];

#[test]
fn sums_of_texts(rt: HostRuntime) {
    for (text, sum) in &SUMS {
        assert!(rt; sum_after(0xcbf2_9ce4_8422_2325, *text) == *sum);
    }
    assert!(rt; sum_after(0xcbf2_9ce4_8422_2325, b"taf_hub journal 1") == first_sum());
}

// Records, and their lines one after another. The sums were computed apart from the program.
static LINES: [(&str, &str, u64); 3] = [
    (
        r#"{"kind":"release","from":"R100","no":2,"wagon":"218124712173","at":"2025-03-01T05:30Z"}"#,
        r#"{"_sum":"6183eec5a2898aec","at":"2025-03-01T05:30Z","from":"R100","kind":"release","no":2,"wagon":"218124712173"}"#,
        0x6183_eec5_a289_8aec,
    ),
    (
        r#"{"kind":"fetch","from":"R103","limit":10}"#,
        r#"{"_sum":"9de69dd8c70b9f90","from":"R103","kind":"fetch","limit":10}"#,
        0x9de6_9dd8_c70b_9f90,
    ),
    (
        r#"{"kind":"fetch","from":"R103","limit":10}"#,
        r#"{"_sum":"01f3ebcfc3029d4c","from":"R103","kind":"fetch","limit":10}"#,
        0x01f3_ebcf_c302_9d4c,
    ),
];

// Fails with the line, unless it is the line of the call behind a line of this sum, and is read as the call.
fn is_line_of(
    alloc: Global,
    before: u64,
    (record, line, sum): (&str, &str, u64),
) -> Result<(), Fail> {
    let call = read_call(alloc, record.as_bytes())?;
    let (written, own) = line_of(alloc, before, &call)?;
    let (read, again) = read_line(alloc, before, line.as_bytes())?;
    let same = written.as_slice() == line.as_bytes() && read == call;
    if same && own == sum && again == sum && read_call(alloc, line.as_bytes())? == call {
        return Ok(());
    }
    Err(Fail::new(str::from_utf8(written.as_slice()).unwrap_or("no text")))
}

#[test]
fn lines_one_after_another(rt: HostRuntime) -> Result<(), Fail> {
    let mut before = first_sum();
    for case in &LINES {
        is_line_of(rt.alloc(), before, *case)?;
        before = case.2;
    }
    Ok(())
}

// Lines that are not taken behind the first of those above, and why.
static FAULTS: [(&str, LineFault); 9] = [
    // A digit of its sum, its text, and its place are other ones.
    (
        r#"{"_sum":"9de69dd8c70b9f91","from":"R103","kind":"fetch","limit":10}"#,
        LineFault::OtherSum,
    ),
    (
        r#"{"_sum":"9de69dd8c70b9f90","from":"R103","kind":"fetch","limit":11}"#,
        LineFault::OtherSum,
    ),
    (
        r#"{"_sum":"01f3ebcfc3029d4c","from":"R103","kind":"fetch","limit":10}"#,
        LineFault::OtherSum,
    ),
    // It has no sum, or not the digits of one, or not in front.
    (
        r#"{"from":"R103","kind":"fetch","limit":10}"#,
        LineFault::NoCall,
    ),
    (
        r#"{"_sum":"9DE69DD8C70B9F90","from":"R103","kind":"fetch","limit":10}"#,
        LineFault::NoCall,
    ),
    (
        r#"{"from":"R103","_sum":"9de69dd8c70b9f90","kind":"fetch","limit":10}"#,
        LineFault::NoCall,
    ),
    // It is no call, or more than one.
    (
        r#"{"_sum":"9de69dd8c70b9f90","from":"R103","kind":"fetch","limit":51}"#,
        LineFault::NoCall,
    ),
    (
        r#"{"_sum":"9de69dd8c70b9f90","from":"R103","kind":"fetch","limit":10,"note":1}"#,
        LineFault::NoCall,
    ),
    ("", LineFault::NoCall),
];

#[test]
fn lines_that_are_not_taken(rt: HostRuntime) -> Result<(), Fail> {
    for (line, fault) in &FAULTS {
        match read_line(rt.alloc(), LINES[0].2, line.as_bytes()) {
            Err(found) if found == *fault => {}
            _ => return Err(Fail::new(line)),
        }
    }
    Ok(())
}
