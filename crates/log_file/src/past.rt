//! What was done with a file, for contracts alone.
use crate::content::Content;
use std::snapshot::Snapshot;

/// What was done with a file since it was opened, the newest call first. It takes one byte at run time: what it remembers,
/// contracts alone see.
#[derive(Drop)]
pub enum Past {
    /// It was opened, synced, and had this content.
    Opened(Snapshot<Content>),
    /// These bytes were appended.
    Appended(Snapshot<Past>, Snapshot<Vec<u8>>),
    /// It was cut to this length.
    Cut(Snapshot<Past>, Snapshot<usize>),
    /// It was synced.
    Synced(Snapshot<Past>),
    /// The newest call failed. Nothing may be done with the file any more.
    Broken(Snapshot<Past>),
}
