//! The memory of this process, as the system tells it.
use std::fs::{self, File};
use std::os::unix::fs::FileExt;
use std::rt::Files;
use std::str;

// Where the system tells it: how many pages of memory the process has of any kind, and how many of them are resident, in digits and
// with a blank between them, and further numbers.
const PATH: &str = "/proc/self/statm";

// How many bytes a page has.
const PAGE: u64 = 4096;

// The file in which the system tells it, where there is one.
#[derive(Drop)]
pub(crate) struct ProcessMemory {
    file: Option<File>,
}

impl ProcessMemory {
    pub(crate) fn open<H: Files<File = File>>(rt: &H) -> ProcessMemory {
        ProcessMemory {
            file: fs::open(rt, PATH).ok(),
        }
    }

    // How many bytes of memory the process has that are resident, where the system tells it.
    pub(crate) fn resident(&self) -> Option<u64> {
        let mut bytes = [0; 128];
        let count = self.file.as_ref()?.read_at(&mut bytes, 0).ok()?;
        let text = str::from_utf8(bytes.get(..count)?).ok()?;
        let pages: u64 = text.split(' ').nth(1)?.parse().ok()?;
        pages.checked_mul(PAGE)
    }
}
