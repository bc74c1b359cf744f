//! Journals with a torn end.
use crate::journals::given::{
    Failing, Memory, MemoryFile, OpenedJournal, commit_line, has_lines, open_journal,
};
use std::alloc::Global;
use std::test::Fail;

// Three batches, of two lines, of one and of one.
static TEXT: &[u8] = b"a\nbb\n\nccc\n\nd\n\n";

static LINES: [&[u8]; 4] = [b"a", b"bb", b"ccc", b"d"];

// From how many bytes on so many of them are whole batches, and of how many lines.
static WHOLE: [(usize, usize); 4] = [(0, 0), (6, 2), (11, 3), (14, 4)];

// The whole batches and the lines of so many bytes of the text.
fn whole_of(count: usize) -> (usize, usize) {
    let mut whole = (0, 0);
    for case in &WHOLE {
        if case.0 <= count {
            whole = *case;
        }
    }
    whole
}

// Opens the journal, and tells whether it has the first `count` lines; then commits a batch.
fn has_first(alloc: Global, memory: &mut Memory, count: usize) -> Result<bool, Fail> {
    let opened = open_journal(alloc, MemoryFile::new(memory, Failing::Never))?;
    let OpenedJournal { mut journal, text } = opened;
    let same = has_lines(text.as_slice(), &LINES[..count.min(LINES.len())]);
    Ok(commit_line(alloc, &mut journal, b"e")? && same)
}

// Whether a journal of these bytes has so many lines, and its file has the whole batches and a further one once it is committed.
fn is_repaired(alloc: Global, torn: &[u8], (len, count): (usize, usize)) -> Result<bool, Fail> {
    let mut memory = Memory::of(alloc, torn)?;
    let same = has_first(alloc, &mut memory, count)?;
    let mut wanted = Vec::from_slice(alloc, &TEXT[..len.min(TEXT.len())])?;
    wanted.extend_from_slice(b"e\n\n")?;
    Ok(same && memory.bytes.as_slice() == wanted.as_slice())
}

#[test]
fn cut_at_each_byte(rt: HostRuntime) -> Result<(), Fail> {
    for len in 0..=TEXT.len() {
        assert!(rt; is_repaired(rt.alloc(), &TEXT[..len], whole_of(len))?);
    }
    Ok(())
}

// The last batch with bytes that read as zero.
static HOLES: [&[u8]; 5] = [
    b"a\nbb\n\nccc\n\n\0\n\n",
    b"a\nbb\n\nccc\n\nd\0\n",
    b"a\nbb\n\nccc\n\nd\n\0",
    b"a\nbb\n\nccc\n\n\0\0\0",
    b"a\nbb\n\nccc\n\n\0",
];

#[test]
fn holes_in_the_last_batch(rt: HostRuntime) -> Result<(), Fail> {
    for hole in &HOLES {
        assert!(rt; is_repaired(rt.alloc(), *hole, (11, 3))?);
    }
    Ok(())
}
