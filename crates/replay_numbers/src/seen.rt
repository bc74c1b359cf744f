ghost use Rattle.std.specs.Prelude.{◌≡◌, ℕ, ◌^◌, ◌<◌, true, Some, None, IfOk, OnOk, OnErr, IsOk, if◌then◌else◌};
ghost use Rattle.taf_codes.specs.declared.code.Railway.{Railway};
ghost use Rattle.replay_numbers.specs.Names.{same_name};
ghost use Rattle.replay_numbers.specs.SentPositions.{position_of, has_room};

use crate::railways::{self, Railways};
use indexmap::IndexMap;
use railway_places::RailwayPlaces;
use seeded_state::SeededState;
use std::alloc::Global;
use std::marker::Model;
use taf_codes::{Memory, Railway};
use taf_messages::MessageNumber;

/// The position of the first send of each name.
#[derive(Drop)]
pub struct Seen {
    railways: Railways,
    // Where railways were found last. `find_or_make_room` and `note_reserved` look there first, and look the railway up where
    // another is there, so any places are right.
    places: RailwayPlaces,
}

impl Model for Seen {
    ghost use Rattle.replay_numbers.specs.SentPositions.{SentStates};

    ghost Value = { SentStates };

    ghost view = { λ seen. seen.railways.entries };
}

impl Seen {
    /// No note, in tables that hash from the fixed seed. Takes no memory.
    pub fn new(alloc: Global) -> Seen
        ensures { position_of result ≡ (λ by n. None) }
    {
        Seen::with_hasher(alloc, SeededState::fixed())
    }

    /// No note, in tables that hash so. Takes no memory.
    pub fn with_hasher(alloc: Global, hasher: SeededState) -> Seen
        ensures { position_of result ≡ (λ by n. None) }
    {
        Seen {
            railways: IndexMap::with_hasher(alloc, hasher),
            places: RailwayPlaces::new(),
        }
    }

    /// The position that was noted for a name, if there is one.
    pub fn find(&self, by: Railway, number: MessageNumber) -> Option<u64>
        ensures { result ≡ position_of self.now by number }
    {
        widened(railways::find(&self.railways, by, number.get()))
    }

    /// The position that was noted for a name. Where there is none, room is made for the name. What was noted stays, also
    /// where memory is refused.
    pub fn find_or_make_room(
        &mut self,
        by: Railway,
        number: MessageNumber,
    ) -> Result<Option<u64>, Memory>
        ensures positions { position_of self.new ≡ position_of self.old }
        ensures stay_roomy { (also : Railway) (n : ℕ) → has_room self.old also n ≡ true
            → has_room self.new also n ≡ true }
        ensures found { IfOk result (λ found. found ≡ position_of self.old by number) }
        ensures room { IfOk result (λ found. found ≡ None → has_room self.new by number ≡ true) }
        ensures succeeds { has_room self.old by number ≡ true → IsOk result }
    {
        let number = number.get();
        let found = railways::find_or_make_room(&mut self.railways, &mut self.places, by, number)?;
        Ok(widened(found))
    }

    /// Notes the position of a name that is new, for which there is room. A position has 32 bits. Takes no memory.
    pub fn note_reserved(&mut self, by: Railway, number: MessageNumber, position: u64)
        requires small { position < 2 ^ 32 }
        requires room { has_room self.old by number ≡ true }
        requires new { position_of self.old by number ≡ None }
        ensures { (also : Railway) (other : ℕ) → position_of self.new also other
            ≡ (if same_name by number also other then Some position
            else position_of self.old also other) }
    {
        railways::note(
            &mut self.railways,
            &mut self.places,
            by,
            number.get(),
            position as u32,
        );
    }

    /// Notes the position of a name that is new. A position has 32 bits. Where memory is refused, the notes stay.
    pub fn note(&mut self, by: Railway, number: MessageNumber, position: u64) -> Result<(), Memory>
        requires small { position < 2 ^ 32 }
        requires new { position_of self.old by number ≡ None }
        ensures finds { OnOk result ((also : Railway) (other : ℕ) → position_of self.new also other
            ≡ (if same_name by number also other then Some position
            else position_of self.old also other)) }
        ensures succeeds { has_room self.old by number ≡ true → IsOk result }
        ensures err { OnErr result (position_of self.new ≡ position_of self.old) }
    {
        self.find_or_make_room(by, number)?;
        self.note_reserved(by, number, position);
        Ok(())
    }
}

// The same position, in 64 bits.
fn widened(position: Option<u32>) -> Option<u64>
    ensures { result ≡ position }
{
    match position {
        Some(position) => Some(u64::from(position)),
        None => None,
    }
}
