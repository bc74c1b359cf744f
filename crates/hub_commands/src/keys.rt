//! The file of the keys.
use crate::journal_file::report_file;
use hub_faults::Fault;
use railway_keys::KeyTable;
use std::fmt::Display;
use std::fs::File;
use std::io::{ErrorKind, Read, Write};
use std::rt::Files;
use std::{fs, io};

// How many bytes a file of keys has at most: 1 MiB, some ten times what 1,000 railways need.
const MAX_BYTES: usize = 1 << 20;

/// The keys in the file of this path, where one is named. Where they are not taken, the line before that of the fault says why, behind
/// the path.
pub(crate) fn read_keys<H, E>(
    rt: &H,
    path: Option<&str>,
    errors: &mut E,
) -> Result<Option<KeyTable>, Fault>
where
    H: Files<File = File> + AllocGlobal,
    E: Write,
{
    let Some(path) = path else {
        return Ok(None);
    };
    let bytes = match bytes_in(rt, path) {
        Ok(bytes) => bytes,
        Err(error) => return Err(unread(path, &error, errors)),
    };
    match keys_of(rt, path, &bytes, errors) {
        Ok(keys) => Ok(Some(keys)),
        Err(fault) => Err(fault),
    }
}

// The bytes of the file, or one more than it may have.
fn bytes_in<H>(rt: &H, path: &str) -> io::Result<Vec<u8>>
where
    H: Files<File = File> + AllocGlobal,
{
    let mut bytes = Vec::new(rt.alloc());
    let mut file = fs::open(rt, path)?.take(MAX_BYTES as u64 + 1);
    file.read_to_end(&mut bytes)?;
    Ok(bytes)
}

// The keys that these bytes of the file are.
fn keys_of<H, E>(rt: &H, path: &str, bytes: &[u8], errors: &mut E) -> Result<KeyTable, Fault>
where
    H: AllocGlobal,
    E: Write,
{
    if bytes.len() > MAX_BYTES {
        return Err(refused(path, &"the file has more than 1048576 bytes", errors));
    }
    let Ok(text) = str::from_utf8(bytes) else {
        return Err(refused(path, &"the file is not UTF-8", errors));
    };
    match KeyTable::read(rt.alloc(), text) {
        Ok(keys) => Ok(keys),
        Err(fault) => {
            report_file(path, &fault, errors);
            Err(Fault::from(fault))
        }
    }
}

// Prints why the file could not be read, and gives the fault of the command.
fn unread<E: Write>(path: &str, error: &io::Error, errors: &mut E) -> Fault {
    if error.kind() == ErrorKind::OutOfMemory {
        report_file(path, &"memory was refused", errors);
        return Fault::Memory;
    }
    report_file(path, &"the file could not be read", errors);
    Fault::KeysFile
}

// Prints why the file is none of keys, and gives the fault of the command.
fn refused<T: Display, E: Write>(path: &str, why: &T, errors: &mut E) -> Fault {
    report_file(path, why, errors);
    Fault::KeysRefused
}
