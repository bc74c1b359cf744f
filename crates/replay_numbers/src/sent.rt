//! What one railway sent.
ghost use Rattle.std.specs.Prelude.{◌≡◌, ℕ, ◌==◌, ◌-◌, ◌<◌, ◌≤◌, true, Some, None, nat_le, nat_lt, ◌&&◌, ◌+◌, length, slice_get, IfOk, OnOk, IsOk, if◌then◌else◌};
ghost use Rattle.std.specs.Option.{option_flatten};
ghost use Rattle.replay_numbers.specs.SentPositions.{in_row, position_in, has_place, has_room_in};

use indexmap::IndexMap;
use seeded_state::SeededState;
use std::alloc::Global;
use std::marker::Model;
use taf_codes::Memory;

// How many places behind the row's end a number may have for the row to go on up to it.
const NEAR: u64 = 4;

/// The position of the first send of each number of a railway. Railways count on, so most numbers lie in a row.
#[derive(Drop)]
pub(crate) struct Sent {
    // The number at which the row begins.
    first: u64,
    // At each number its position.
    row: Vec<Option<u32>>,
    // The positions of numbers that came before the row began or were far behind it.
    aside: IndexMap<u64, u32, SeededState>,
}

impl Model for Sent {
    ghost use Rattle.indexmap.specs.IndexMap.{spare};
    ghost use Rattle.replay_numbers.specs.SentPositions.{SentState};

    ghost Value = { SentState };

    ghost view = { λ s. record {
      first = s.first;
      row = s.row.items;
      aside = s.aside.entries;
      spare = spare s.aside;
    } };
}

impl Sent {
    /// No number, and a row that begins at this one. Takes no memory.
    pub(crate) fn new(alloc: Global, hasher: SeededState, first: u64) -> Sent
        ensures { (n : ℕ) → position_in result n ≡ None }
    {
        Sent {
            first,
            row: Vec::new(alloc),
            aside: IndexMap::with_hasher(alloc, hasher),
        }
    }

    /// The position that was noted for a number, if there is one.
    pub(crate) fn find(&self, number: u64) -> Option<u32>
        ensures { result ≡ position_in self.now number }
    {
        match self.in_row(number) {
            Some(position) => Some(position),
            None if self.aside.is_empty() => None,
            None => self.aside.get(&number).copied(),
        }
    }

    // The position that lies in the row at a number.
    fn in_row(&self, number: u64) -> Option<u32>
        ensures { result ≡ in_row self.now number }
    {
        if number < self.first {
            return None;
        }
        self.row
            .get((number - self.first) as usize)
            .copied()
            .flatten()
    }

    // Whether a number has a place in the row.
    fn has_place(&self, number: u64) -> bool
        ensures { result ≡ has_place self.now number }
    {
        self.first <= number && number - self.first < self.row.len() as u64
    }

    /// Makes room for a number, where there is none.
    pub(crate) fn reserve(&mut self, number: u64) -> Result<(), Memory>
        ensures positions { (n : ℕ) → position_in self.new n ≡ position_in self.old n }
        ensures stay_roomy { (n : ℕ) → has_room_in self.old n ≡ true → has_room_in self.new n
            ≡ true }
        ensures ok { OnOk result (has_room_in self.new number ≡ true) }
        ensures succeeds { has_room_in self.old number ≡ true → IsOk result }
    {
        if self.has_place(number) {
            return Ok(());
        }
        if self.is_near(number) && lengthen(&mut self.row, (number - self.first) as usize).is_ok() {
            return Ok(());
        }
        self.aside.reserve(1)?;
        Ok(())
    }

    /// The position that was noted for a number. Where there is none, room is made for it.
    pub(crate) fn find_or_make_room(&mut self, number: u64) -> Result<Option<u32>, Memory>
        ensures positions { (n : ℕ) → position_in self.new n ≡ position_in self.old n }
        ensures stay_roomy { (n : ℕ) → has_room_in self.old n ≡ true → has_room_in self.new n
            ≡ true }
        ensures found { IfOk result (λ found. found ≡ position_in self.old number) }
        ensures room { IfOk result (λ found. found ≡ None → has_room_in self.new number ≡ true) }
        ensures succeeds { has_room_in self.old number ≡ true → IsOk result }
    {
        let found = self.find(number);
        if found.is_none() {
            self.reserve(number)?;
        }
        Ok(found)
    }

    // Whether a number comes soon behind the row.
    fn is_near(&self, number: u64) -> bool
        ensures { result ≡ (nat_le self.now.first number && nat_lt (number - self.now.first)
            (length self.now.row + 4)) }
    {
        self.first <= number && number - self.first < self.row.len() as u64 + NEAR
    }

    /// Notes the position of a number that is new, for which there is room.
    pub(crate) fn put(&mut self, number: u64, position: u32)
        requires room { has_room_in self.old number ≡ true }
        requires new { position_in self.old number ≡ None }
        ensures { (n : ℕ) → position_in self.new n
            ≡ (if number == n then Some position else position_in self.old n) }
    {
        if self.has_place(number) {
            self.row[(number - self.first) as usize] = Some(position);
        } else {
            let _before = self.aside.insert(number, position).unwrap();
        }
    }
}

// Lets a row go on up to a number.
fn lengthen(row: &mut Vec<Option<u32>>, number: usize) -> Result<(), Memory>
    ensures positions { (n : ℕ) → option_flatten (slice_get row.new.items n)
        ≡ option_flatten (slice_get row.old.items n) }
    ensures longer { length row.old.items ≤ length row.new.items }
    ensures ok { OnOk result (number < length row.new.items) }
{
    'places: while row.len() <= number {
        row.push(None)?;
    }
    Ok(())
}
