//! The file.
ghost use Rattle.std.specs.Prelude.{◌≤◌, length, IfOk};

use crate::fault::OpenFault;
use crate::kept_end::{OWNER_ONLY, sync_folder};
use log_file::{Failed, RawFile};
use std::fs;
use std::fs::{File, OpenOptions, TryLockError};
use std::io::{Read, Write};
use std::os::fd::AsRawFd;
use std::os::unix::fs::{FileExt, OpenOptionsExt};
use std::rt::Files;

/// A file of the system, opened to read and to append. It is locked as long as it is open, unless it was opened only to be read.
#[derive(Drop)]
pub struct DiskFile {
    file: File,
}

/// Opens the file, or makes it, readable and writable by its owner alone, and locks it. A file that is there keeps its mode.
/// What it has is on the disk before it is read: a process that was killed may have left what only the system's memory had.
///
/// `Busy` where it is open already, here or in another process; `NotRegular` where it is no regular file; `File` where a call of the
/// system fails. What a file that was there has is as it was then.
pub fn open<R: Files<File = File>>(rt: &R, path: &str) -> Result<DiskFile, OpenFault> {
    let file = open_locked(rt, path)?;
    drop_unsynced(&file)?;
    sync_folder(rt, path).map_err(|_| OpenFault::File)?;
    Ok(DiskFile { file })
}

/// Opens a file that is there, only to read it: it is not locked, and nothing can be written to it.
///
/// `NotRegular` where it is no regular file; `File` where a call of the system fails.
pub fn open_to_read<R: Files<File = File>>(rt: &R, path: &str) -> Result<DiskFile, OpenFault> {
    // A pipe would be waited for.
    let metadata = fs::metadata(rt, path).map_err(|_| OpenFault::File)?;
    if !metadata.is_file() {
        return Err(OpenFault::NotRegular);
    }
    let file = fs::open(rt, path).map_err(|_| OpenFault::File)?;
    Ok(DiskFile { file })
}

fn open_locked<R: Files<File = File>>(rt: &R, path: &str) -> Result<File, OpenFault> {
    let file = OpenOptions::new()
        .read(true)
        .append(true)
        .create(true)
        .mode(OWNER_ONLY)
        .open(rt, path)
        .map_err(|_| OpenFault::File)?;
    let metadata = file.metadata().map_err(|_| OpenFault::File)?;
    if !metadata.is_file() {
        return Err(OpenFault::NotRegular);
    }
    match file.try_lock() {
        Ok(()) => Ok(file),
        Err(TryLockError::WouldBlock) => Err(OpenFault::Busy),
        Err(TryLockError::Error(_)) => Err(OpenFault::File),
    }
}

// Syncs the file, and has the system drop its copies of what it holds in memory: a sync of an earlier process that failed may
// have left pages there which are not on the disk.
fn drop_unsynced(file: &File) -> Result<(), OpenFault> {
    file.sync_all().map_err(|_| OpenFault::File)?;
    match libc::posix_fadvise(file.as_raw_fd(), 0, 0, libc::POSIX_FADV_DONTNEED) {
        0 => Ok(()),
        _ => Err(OpenFault::File),
    }
}

impl DiskFile {
    /// Reads the first bytes of the file into the buffer, as many as it has room for, and gives how many: fewer where the file is
    /// shorter. Where the file is read on is the same afterwards. `Err` where a call of the system fails.
    pub fn first_bytes(&self, buffer: &mut [u8]) -> Result<usize, Failed>
        ensures { IfOk result (λ count. count ≤ length buffer.new) }
    {
        self.file.read_at(buffer, 0).map_err(|_| Failed)
    }
}

impl RawFile for DiskFile {
    fn read(&mut self, buffer: &mut [u8]) -> Result<usize, Failed> {
        self.file.read(buffer).map_err(|_| Failed)
    }

    fn append(&mut self, bytes: &[u8]) -> Result<(), Failed> {
        self.file.write_all(bytes).map_err(|_| Failed)
    }

    fn cut(&mut self, len: usize) -> Result<(), Failed> {
        self.file.set_len(len as u64).map_err(|_| Failed)
    }

    fn sync(&mut self) -> Result<(), Failed> {
        self.file.sync_data().map_err(|_| Failed)
    }
}
