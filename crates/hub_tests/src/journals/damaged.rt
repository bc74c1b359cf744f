//! Journals that are damaged in the middle.
use crate::journals::given::{Failing, Memory, fault_in};
use journal::JournalFault;
use std::alloc::Global;
use std::test::Fail;

// A journal with a byte 0 in a batch that is not the last one, and where its whole batches end.
static DAMAGED: [(&[u8], usize); 4] = [
    (b"\0\n\nb\n\n", 0),
    (b"a\n\n\0\n\nb\n\n", 3),
    (b"a\n\nb\n\0\n\nc\n\n", 3),
    (b"a\n\nb\n\nc\0\nd\n\ne", 6),
];

// Whether a journal of these bytes is refused at this index, by no call of the file.
fn is_refused(alloc: Global, bytes: &[u8], whole: usize) -> Result<bool, Fail> {
    let mut memory = Memory::of(alloc, bytes)?;
    let fault = fault_in(alloc, &mut memory, Failing::Never)?;
    let same = memory.calls == 0 && memory.bytes.as_slice() == bytes;
    Ok(same && fault == Some(JournalFault::Damaged(whole)))
}

#[test]
fn damage_is_refused_where_it_is(rt: HostRuntime) -> Result<(), Fail> {
    for (bytes, whole) in &DAMAGED {
        assert!(rt; is_refused(rt.alloc(), *bytes, *whole)?);
    }
    Ok(())
}
