//! Tests of a journal, its file, its lines and its hub: the crates `log_file`, `journal`, `disk_file`, `journal_lines` and
//! `journaled_hub`.
//!
//! Calls of a file over memory fail one after another; a journal is cut at every byte, damaged, and opened again; a file of
//! the system is made, locked, committed to and repaired; calls are written as lines with sums, and read; hubs are opened again.

mod damaged;
mod failing;
mod given;
mod hubs;
mod lines;
mod system;
mod torn;
