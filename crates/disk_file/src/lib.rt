//! A file of the system to which is appended, and which one process has at a time.
//!
//! [`open`] opens or makes the file, locks it, and has what it has on the disk. [`DiskFile`] makes the calls of a `log_file`. What is to
//! be cut off is kept before ([`keep_end`]).
//!
//! | part | what it has |
//! |---|---|
//! | `disk` | opening and locking the file, and its calls |
//! | `kept_end` | the copy of what a cut drops |
//! | `fault` | why a file was not opened |
//!
//! No contract says what the system does: only that each function returns, and reads and writes memory in bounds, is proved.
//! That [`DiskFile`] makes the calls that it is asked for is seen in its few lines. Trusted of system and disk is what
//! `log_file` defines:
//!
//! - After `fsync` or `fdatasync` answers that all is well, what was written, and the length, is on the disk.
//! - A crash leaves what was on the disk, and of what was appended since a front, of which any byte may read as zero. File
//!   systems that show no old blocks in a grown file do so: ext4 in its usual mode, xfs, btrfs. Network file systems, FAT,
//!   and ext4 with `data=writeback` are not meant.
//! - A crash between a cut and its sync leaves some length between the old one and the new.
//! - No other program writes to the file. The lock (`flock`) keeps out only those that ask for it.
#![tactic(auto)]

mod disk;
mod fault;
mod kept_end;

pub use disk::{DiskFile, open, open_to_read};
pub use fault::OpenFault;
pub use kept_end::keep_end;
