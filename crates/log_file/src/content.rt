//! What was read of a file, for contracts alone.
use std::snapshot::Snapshot;

/// What was read of a file: pieces, one behind another. It takes one byte at run time: what it remembers, contracts alone see.
#[derive(Drop)]
pub enum Content {
    /// Nothing was read.
    Nothing,
    /// Then this piece was read.
    Piece(Snapshot<Content>, Snapshot<Vec<u8>>),
}
