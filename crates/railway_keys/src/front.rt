//! What is read of a connection before its session begins.
ghost use Rattle.std.specs.Prelude.{◌≡◌, ◌+◌, ◌≤◌, ◌∷◌, ◌++◌, [], nat_le, drop, length, OnOk};
ghost use Rattle.std.specs.Io.KnownBytes.{Consumes};
ghost use Rattle.railway_keys.specs.FirstLines.{no_line, line_read, with_byte};
ghost use Rattle.railway_keys.specs.Fronts.{IsEnough, failures_by};

use crate::first_line::FirstLine;
use call_lines::LONGEST;
use std::alloc::Global;
use taf_codes::{Failed, Memory, Source};

// How many bytes are read before the session begins at most: as many as the longest line and its newline have.
const MAX_HELD: usize = LONGEST + 1;

/// The first bytes of a connection, with their first line that is not blank.
#[derive(Drop)]
pub(crate) struct Front {
    /// All of them, in order.
    pub(crate) held: Vec<u8>,
    pub(crate) line: FirstLine,
}

/// Why the first bytes were not read.
#[derive(Clone, Copy, Debug, PartialEq, Eq)]
pub(crate) enum Unread {
    /// The reader failed.
    Failed,
    /// Memory was refused.
    Memory,
}

impl From<Failed> for Unread {
    ghost use Rattle.std.specs.Prelude.{◌≡◌};
    ghost use Rattle.railway_keys.specs.declared.front.Unread.TheVariants as unread;

    ghost from_gives = { λ _ why. why ≡ unread.Failed };

    fn from(_failed: Failed) -> Unread {
        Unread::Failed
    }
}

impl From<Memory> for Unread {
    ghost use Rattle.std.specs.Prelude.{◌≡◌};
    ghost use Rattle.railway_keys.specs.declared.front.Unread.TheVariants as unread;

    ghost from_gives = { λ _ why. why ≡ unread.Memory };

    fn from(_refused: Memory) -> Unread {
        Unread::Memory
    }
}

impl Front {
    /// No bytes. Takes no memory.
    pub(crate) fn new(alloc: Global) -> Front
        ensures held { result.held.items ≡ [] }
        ensures line { result.line ≡ no_line }
    {
        Front {
            held: Vec::new(alloc),
            line: FirstLine::new(alloc),
        }
    }

    /// Whether as many bytes were read as are read at most.
    pub(crate) fn is_full(&self) -> bool
        ensures { result ≡ nat_le 65537 (length self.now.held.items) }
    {
        self.held.len() >= MAX_HELD
    }

    /// What was read, but for so many bytes.
    pub(crate) fn after(&self, given: usize) -> &[u8]
        requires { given ≤ length self.now.held.items }
        ensures value { result.now ≡ drop given self.now.held.items }
        ensures len { length result.now + given ≡ length self.now.held.items }
    {
        &self.held[given..]
    }

    // Takes a byte that follows.
    fn take(&mut self, byte: u8) -> Result<(), Memory>
        ensures held { OnOk result (self.new.held.items ≡ self.old.held.items ++ byte ∷ []) }
        ensures line { OnOk result (self.new.line ≡ with_byte self.old.line byte) }
    {
        self.held.push(byte)?;
        self.line.take(byte)
    }

    /// Reads on, byte by byte, until the first line that is not blank is whole, the reader is at its end, or 65,537 bytes are there. So
    /// nothing behind that line is read.
    pub(crate) fn read<S: Source>(&mut self, source: &mut S) -> Result<(), Unread>
        requires held { self.old.held.items ≡ [] }
        requires line { self.old.line ≡ no_line }
        ensures bytes { OnOk result
            (Consumes (S.remaining source.old) (S.remaining source.new) self.new.held.items) }
        ensures few { OnOk result (length self.new.held.items ≤ 65537) }
        ensures line { OnOk result (self.new.line ≡ line_read self.new.held.items) }
        ensures enough { OnOk result
            (IsEnough self.new.line.is_whole self.new.held.items (S.remaining source.new)) }
        ensures counted { S.failures source.new ≡ failures_by result (S.failures source.old) }
    {
        let mut byte = [0];
        'bytes: while !self.line.is_whole() && !self.is_full() {
            if source.pull(&mut byte)? == 0 {
                return Ok(());
            }
            self.take(byte[0])?;
        }
        Ok(())
    }
}
