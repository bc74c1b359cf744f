//! A journal in a file of the system.
use crate::journals::given::{OpenedJournal, commit_line, has_lines, open_journal};
use disk_file::{OpenFault, keep_end, open, open_to_read};
use std::alloc::Global;
use std::fs::OpenOptions;
use std::io::Write;
use std::os::unix::fs::PermissionsExt;
use std::test::Fail;
use std::{env, fs, process};

// Opens the journal, and compares the lines that it has; then commits a line, while the file can't be opened a second time.
fn serve(rt: HostRuntime, path: &str, wanted: &[&[u8]], line: &[u8]) -> Result<bool, Fail> {
    let opened = open_journal(rt.alloc(), open(&rt, path)?)?;
    let OpenedJournal { mut journal, text } = opened;
    let same = has_lines(text.as_slice(), wanted);
    let busy = matches!(open(&rt, path), Err(OpenFault::Busy));
    let taken = commit_line(rt.alloc(), &mut journal, line)?;
    Ok(same && busy && taken)
}

// Writes the torn end of a batch, as a crash leaves one.
fn tear(rt: HostRuntime, path: &str) -> Result<(), Fail> {
    let mut file = OpenOptions::new().append(true).open(&rt, path)?;
    file.write_all(b"b\nc")?;
    Ok(())
}

// Whether a file has these bytes, and is its owner's alone.
fn is_private(rt: HostRuntime, path: &str, bytes: &[u8]) -> Result<bool, Fail> {
    let mode = fs::metadata(&rt, path)?.permissions().mode();
    let found = fs::read(&rt, path)?;
    Ok(mode % 0o1000 == 0o600 && found.as_slice() == bytes)
}

fn serve_twice(rt: HostRuntime, path: &str, kept: &str) -> Result<bool, Fail> {
    let first = serve(rt, path, &[], b"a")?;
    tear(rt, path)?;
    let copy = keep_end(&rt, rt.alloc(), path, 3)?;
    let second = serve(rt, path, &[b"a"], b"d")?;
    let named = copy.as_str() == kept;
    Ok(
        first
            && second
            && named
            && is_private(rt, path, b"a\n\nd\n\n")?
            && is_private(rt, kept, b"b\nc")?,
    )
}

#[test]
fn a_file_is_made_locked_and_repaired(rt: HostRuntime) -> Result<(), Fail> {
    let temporary = env::temp_dir(&rt)?;
    let number = process::id(rt.process());
    let path = format!(in rt.alloc(); "{}/journal-tests-{number}", temporary.as_str())?;
    let kept = format!(in rt.alloc(); "{}.cut-1", path.as_str())?;
    let served = serve_twice(rt, path.as_str(), kept.as_str());
    let gone = fs::remove_file(&rt, path.as_str());
    let copy_gone = fs::remove_file(&rt, kept.as_str());
    assert!(rt; served?);
    assert!(rt; gone.is_ok() && copy_gone.is_ok());
    Ok(())
}

#[test]
fn a_device_is_no_journal(rt: HostRuntime) {
    let opened = open(&rt, "/dev/null");
    assert!(rt; matches!(opened, Err(OpenFault::NotRegular)));
    let read = open_to_read(&rt, "/dev/null");
    assert!(rt; matches!(read, Err(OpenFault::NotRegular)));
}
