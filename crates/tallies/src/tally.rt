//! What one session was told.
ghost use Rattle.std.specs.Prelude.{◌≡◌, ◌+◌, ◌<◌, ◌≤◌, [], ◌∷◌, ◌++◌, OnOk, OnErr};

use std::alloc::Global;
use std::marker::Model;
use taf_codes::Memory;
use taf_messages::{Call, Reply};

/// A call that was answered: its position in the history, from 0, and its reply.
#[derive(Debug, PartialEq, Eq, Drop)]
pub struct Told {
    pub position: u64,
    pub call: Call,
    pub reply: Reply,
}

/// What one session was told, in order.
///
/// Contracts see it as its entries, and as how many more it has room to spare for.
#[derive(Drop)]
pub struct Tally {
    entries: Vec<Told>,
}

impl Model for Tally {
    ghost use Rattle.std.specs.Prelude.{◌-◌, vec_len, vec_capacity};
    ghost use Rattle.tallies.specs.Tallies.{TallyState};

    ghost Value = { TallyState };

    ghost view = { λ t. record {
      entries = t.entries.items;
      spare = vec_capacity t.entries - vec_len t.entries;
    } };
}

impl Tally {
    /// A tally with no entry. Takes no memory.
    pub fn new(alloc: Global) -> Tally
        ensures { result.entries ≡ [] }
    {
        Tally {
            entries: Vec::new(alloc),
        }
    }

    /// The entries, in the order in which they were noted.
    pub fn entries(&self) -> &[Told]
        ensures { result.now ≡ self.now.entries }
    {
        self.entries.as_slice()
    }

    /// Makes room to spare for `more` entries. Where memory is refused, the tally is as it was.
    pub fn reserve(&mut self, more: usize) -> Result<(), Memory>
        ensures entries { self.new.entries ≡ self.old.entries }
        ensures room { OnOk result (more ≤ self.new.spare) }
        ensures unchanged { OnErr result (self.new ≡ self.old) }
        ensures refused { OnErr result (self.old.spare < more) }
    {
        self.entries.reserve(more).map_err(|_| Memory)
    }

    /// Adds an entry. It can't fail where there is room to spare; else memory may be refused, and the tally is as it was.
    pub fn note(&mut self, told: Told) -> Result<(), Memory>
        ensures entry { OnOk result (self.new.entries ≡ self.old.entries ++ told ∷ []) }
        ensures room { OnOk result (self.old.spare ≤ self.new.spare + 1) }
        ensures unchanged { OnErr result (self.new ≡ self.old) }
        ensures refused { OnErr result (self.old.spare ≡ 0) }
    {
        if self.entries.reserve(1).is_err() {
            return Err(Memory);
        }
        self.entries.push_reserved(told);
        Ok(())
    }
}
