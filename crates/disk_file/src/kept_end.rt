//! The copy of what a cut drops.
use log_file::Failed;
use std::alloc::Global;
use std::fs::{File, OpenOptions};
use std::io::Write;
use std::os::unix::fs::{FileExt, OpenOptionsExt};
use std::path::Path;
use std::rt::Files;
use std::{fs, io};

/// Only the owner of a file may read and write it.
pub(crate) const OWNER_ONLY: u32 = 0o600;

/// A file has at most so many copies beside it.
const MAX_COPIES: u32 = 999;

/// Copies what the file of this path has behind so many bytes into a new file beside it, `PATH.cut-1` or the first number that is
/// free, and gives the path of that one. At Ok the copy is on the disk. `Err` where a call of the system fails, memory is refused, or
/// all numbers up to 999 are taken.
pub fn keep_end<R: Files<File = File>>(
    rt: &R,
    alloc: Global,
    path: &str,
    start: usize,
) -> Result<String, Failed> {
    copy_end(rt, alloc, path, start).map_err(|_| Failed)
}

fn copy_end<R: Files<File = File>>(
    rt: &R,
    alloc: Global,
    path: &str,
    start: usize,
) -> io::Result<String> {
    let file = fs::open(rt, path)?;
    let NewCopy { name, file: copy } = new_copy(rt, alloc, path)?;
    let mut copy = copy;
    copy_bytes(&file, &mut copy, start)?;
    copy.sync_all()?;
    sync_folder(rt, path)?;
    Ok(name)
}

// A new file for what a cut drops, and its path.
#[derive(Drop)]
struct NewCopy {
    name: String,
    file: File,
}

fn copy_name(alloc: Global, path: &str, number: u32) -> io::Result<String> {
    Ok(format!(in alloc; "{path}.cut-{number}")?)
}

// A new file beside that of this path: `PATH.cut-1`, or the first number that is free.
fn new_copy<R: Files<File = File>>(rt: &R, alloc: Global, path: &str) -> io::Result<NewCopy> {
    for number in 1..=MAX_COPIES {
        let name = copy_name(alloc, path, number)?;
        let opened = OpenOptions::new()
            .write(true)
            .create_new(true)
            .mode(OWNER_ONLY)
            .open(rt, name.as_str());
        match opened {
            Ok(file) => return Ok(NewCopy { name, file }),
            Err(error) if error.kind() == io::ErrorKind::AlreadyExists => {}
            Err(error) => return Err(error),
        }
    }
    Err(io::ErrorKind::AlreadyExists.into())
}

// Copies what a file has behind so many bytes.
fn copy_bytes(file: &File, copy: &mut File, start: usize) -> io::Result<()> {
    let mut buffer = [0; 4096];
    let mut position = start as u64;
    for _ in 0..u64::MAX {
        let count = file.read_at(&mut buffer, position)?;
        if count == 0 {
            break;
        }
        copy.write_all(&buffer[..count])?;
        position = position.saturating_add(count as u64);
    }
    Ok(())
}

/// Syncs the folder of a path: from then on the name of a new file in it is on the disk.
pub(crate) fn sync_folder<R: Files<File = File>>(rt: &R, path: &str) -> io::Result<()> {
    let folder = match Path::new(path).parent() {
        Some(parent) if !parent.as_str().is_empty() => parent.as_str(),
        _ => ".",
    };
    fs::open(rt, folder)?.sync_all()
}
