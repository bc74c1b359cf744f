//! Calls of the file that fail.
use crate::journals::given::{
    Failing, Memory, MemoryFile, commit_line, fault_in, has_lines, open_journal,
};
use journal::JournalFault;
use std::alloc::Global;
use std::test::Fail;

// The call that fails, of an append and a sync for each batch; how many batches were acknowledged, and how many stand in the
// file, the one of a failed sync among them.
static COMMITS: [(u32, usize, usize); 7] = [
    (1, 0, 0),
    (2, 0, 1),
    (3, 1, 1),
    (4, 1, 2),
    (5, 2, 2),
    (6, 2, 3),
    (7, 3, 3),
];

// The line of each batch.
static LINES: [&[u8]; 3] = [b"first", b"second", b"third"];

// Commits three batches, and counts those that are acknowledged.
fn acknowledged(alloc: Global, memory: &mut Memory, failing: Failing) -> Result<usize, Fail> {
    let file = MemoryFile::new(memory, failing);
    let mut journal = open_journal(alloc, file)?.journal;
    let first = commit_line(alloc, &mut journal, LINES[0])?;
    let second = commit_line(alloc, &mut journal, LINES[1])?;
    let third = commit_line(alloc, &mut journal, LINES[2])?;
    Ok([first, second, third].iter().filter(|it| **it).count())
}

// The whole batches that a file has.
fn batches_left(alloc: Global, memory: &mut Memory) -> Result<Vec<u8>, Fail> {
    Ok(open_journal(alloc, MemoryFile::new(memory, Failing::Never))?.text)
}

// Whether a run of which this call fails acknowledges and leaves so many batches, and makes no call after the one that fails.
fn stops(alloc: Global, failing: Failing, case: &(u32, usize, usize)) -> Result<bool, Fail> {
    let mut memory = Memory::of(alloc, b"")?;
    let count = acknowledged(alloc, &mut memory, failing)?;
    let calls = memory.calls;
    let left = batches_left(alloc, &mut memory)?;
    let same = has_lines(left.as_slice(), &LINES[..case.2.min(LINES.len())]);
    Ok(count == case.1 && same && calls == case.0.min(6))
}

#[test]
fn each_call_fails(rt: HostRuntime) -> Result<(), Fail> {
    for case in &COMMITS {
        assert!(rt; stops(rt.alloc(), Failing::Once(case.0), case)?);
        assert!(rt; stops(rt.alloc(), Failing::From(case.0), case)?);
    }
    Ok(())
}

// The call that fails where a torn end is cut off, by a cut and a sync; the fault of opening the journal, and how many bytes
// the file has then.
static REPAIRS: [(u32, Option<JournalFault>, usize); 3] = [
    (1, Some(JournalFault::Failed), 4),
    (2, Some(JournalFault::Failed), 3),
    (3, None, 3),
];

#[test]
fn each_call_of_a_repair_fails(rt: HostRuntime) -> Result<(), Fail> {
    for (call, fault, len) in &REPAIRS {
        let mut memory = Memory::of(rt.alloc(), b"a\n\nb")?;
        let found = fault_in(rt.alloc(), &mut memory, Failing::Once(*call))?;
        assert!(rt; found == *fault && memory.bytes.len() == *len);
        assert!(rt; memory.calls == (*call).min(2));
    }
    Ok(())
}
