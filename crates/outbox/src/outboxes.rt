ghost use Rattle.std.specs.Prelude.{◌≡◌, ◌+◌, ◌<◌, ◌≤◌, ◌^◌, ◌↔◌, [], ◌∷◌, true, max, if◌then◌else◌, bytes_eq, slice_get, option_copied, IfOk, IfErr, OnOk, OnErr, IsOk};
ghost use Rattle.std.specs.Map.{keys_of};
ghost use Rattle.taf_codes.specs.declared.code.Railway.{Railway};
ghost use Rattle.outbox.specs.OutboxStates.{outbox_state_of, has_box, room_for, last_of, with_items, acknowledged_up_to, first_items};

use crate::boxes::{self, Boxes};
use crate::fault::AckAhead;
use crate::outbox::Outbox;
use indexmap::IndexMap;
use railway_places::RailwayPlaces;
use seeded_state::SeededState;
use std::alloc::Global;
use std::marker::Model;
use taf_codes::{Memory, Railway};
use taf_messages::{FetchLimit, ItemBody, ItemList};

/// The boxes of all railways.
#[derive(Drop)]
pub struct Outboxes {
    boxes: Boxes,
    // Where boxes were found last. `make_room` and `put` look there first, and look the box up where another railway's is there,
    // so any places are right.
    places: RailwayPlaces,
}

impl Model for Outboxes {
    ghost use Rattle.std.specs.Prelude.{List};
    ghost use Rattle.taf_codes.specs.declared.code.Railway.{Railway};
    ghost use Rattle.outbox.specs.OutboxStates.{BoxState};

    ghost Value = { List (Railway × BoxState) };

    ghost view = { λ o. o.boxes.entries };
}

impl Outboxes {
    /// No box, in a table that hashes from the fixed seed. Takes no memory.
    pub fn new(alloc: Global) -> Outboxes
        ensures { result ≡ [] }
    {
        Outboxes::with_hasher(alloc, SeededState::fixed())
    }

    /// No box, in a table that hashes so. Takes no memory.
    pub fn with_hasher(alloc: Global, hasher: SeededState) -> Outboxes
        ensures { result ≡ [] }
    {
        Outboxes {
            boxes: IndexMap::with_hasher(alloc, hasher),
            places: RailwayPlaces::new(),
        }
    }

    /// The number of a railway's last item, 0 if it has had none.
    pub fn last(&self, railway: Railway) -> u64
        ensures value { result ≡ last_of (outbox_state_of self.now railway) }
        ensures few { result ≤ 2 ^ 63 }
    {
        match self.boxes.get(&railway) {
            Some(outbox) => outbox.last(),
            None => 0,
        }
    }

    /// The number that a railway acknowledged last, 0 if there is none.
    pub fn acknowledged(&self, railway: Railway) -> u64
        ensures { result ≡ (outbox_state_of self.now railway).acknowledged }
    {
        match self.boxes.get(&railway) {
            Some(outbox) => outbox.acknowledged(),
            None => 0,
        }
    }

    /// The first items after the acknowledged one, at most so many.
    pub fn fetch(&self, railway: Railway, limit: FetchLimit) -> Result<ItemList, Memory>
        ensures { IfOk result (λ items. items
            ≡ first_items (outbox_state_of self.now railway) limit) }
    {
        let alloc = *self.boxes.allocator();
        match self.boxes.get(&railway) {
            Some(outbox) => outbox.first(alloc, limit.get()),
            None => Ok(ItemList::from_vec(Vec::new(alloc))),
        }
    }

    /// The body of a railway's item at this index of those after the acknowledged one, from 0.
    pub fn unacknowledged(&self, railway: Railway, index: usize) -> Option<&ItemBody>
        ensures { option_copied result ≡ slice_get (outbox_state_of self.now railway).bodies index }
    {
        match self.boxes.get(&railway) {
            Some(outbox) => outbox.unacknowledged(index),
            None => None,
        }
    }

    /// The railways that have boxes, in the order in which these were made.
    pub fn railways(&self) -> Result<Vec<Railway>, Memory>
        ensures { IfOk result (λ railways. railways.items ≡ keys_of self.now) }
    {
        let alloc = *self.boxes.allocator();
        Ok(self.boxes.keys().copied().collect(alloc)?)
    }

    /// Whether a railway has a box.
    pub fn has_box(&self, railway: Railway) -> bool
        ensures { result ≡ has_box self.now railway }
    {
        self.boxes.get(&railway).is_some()
    }

    /// Makes room for so many items more in the box of a railway, and the box where there is none: what is kept for each
    /// railway stays. Where memory is refused, no box is made. Memory is answered also where the railway had 2^62 items.
    pub fn make_room(&mut self, railway: Railway, count: usize) -> Result<(), Memory>
        ensures kept { (also : Railway) → outbox_state_of self.new also
            ≡ outbox_state_of self.old also }
        ensures stay_open { (also : Railway) → has_box self.old also ≡ true → has_box self.new also
            ≡ true }
        ensures stay_roomy { (also : Railway) → room_for self.old also ≤ room_for self.new also }
        ensures open { OnOk result (has_box self.new railway ≡ true) }
        ensures room { OnOk result (count ≤ room_for self.new railway) }
        ensures few { OnOk result (last_of (outbox_state_of self.new railway) < 2 ^ 62) }
        ensures err { OnErr result ((also : Railway) → has_box self.new also
            ≡ has_box self.old also) }
    {
        boxes::make_room(&mut self.boxes, &mut self.places, railway, count)
    }

    /// Adds an item for a railway whose box has room for it, and gives its number: 1 for the first one. Takes no memory.
    pub fn put(&mut self, railway: Railway, body: ItemBody) -> u64
        requires room { 0 < room_for self.old railway }
        requires few { last_of (outbox_state_of self.old railway) + 1 < 2 ^ 63 }
        ensures number { result ≡ last_of (outbox_state_of self.old railway) + 1 }
        ensures kept { (also : Railway) → outbox_state_of self.new also
            ≡ (if bytes_eq railway also then with_items (outbox_state_of self.old also) (body ∷ [])
            else outbox_state_of self.old also) }
        ensures room { (also : Railway)
            → room_for self.new also + (if bytes_eq railway also then 1 else 0)
            ≡ room_for self.old also }
        ensures stay_open { (also : Railway) → has_box self.new also ≡ has_box self.old also }
    {
        boxes::put(&mut self.boxes, &mut self.places, railway, body)
    }

    /// Makes room for an item and adds it, and gives its number: 1 for the first one. Where memory is refused, what is kept
    /// for each railway stays. Memory is answered also where the railway had 2^62 items.
    pub fn push(&mut self, railway: Railway, body: ItemBody) -> Result<u64, Memory>
        requires { last_of (outbox_state_of self.old railway) + 1 < 2 ^ 63 }
        ensures number { IfOk result (λ number. number
            ≡ last_of (outbox_state_of self.old railway) + 1) }
        ensures kept { OnOk result ((also : Railway) → outbox_state_of self.new also
            ≡ (if bytes_eq railway also then with_items (outbox_state_of self.old also) (body ∷ [])
            else outbox_state_of self.old also)) }
        ensures err { OnErr result ((also : Railway) → outbox_state_of self.new also
            ≡ outbox_state_of self.old also) }
        ensures shut { OnErr result ((also : Railway) → has_box self.new also
            ≡ has_box self.old also) }
    {
        self.make_room(railway, 1)?;
        Ok(self.put(railway, body))
    }

    /// Drops a railway's items up to this number, and gives the acknowledged number that now stands: a lower number changes
    /// nothing. Takes no memory.
    pub fn ack(&mut self, railway: Railway, number: u64) -> Result<u64, AckAhead>
        ensures when { IsOk result ↔ (number ≤ last_of (outbox_state_of self.old railway)) }
        ensures stands { IfOk result (λ stands. stands
            ≡ max (outbox_state_of self.old railway).acknowledged number) }
        ensures kept { OnOk result ((also : Railway) → outbox_state_of self.new also
            ≡ (if bytes_eq railway also
            then acknowledged_up_to (outbox_state_of self.old also) number
            else outbox_state_of self.old also)) }
        ensures stay_open { (also : Railway) → has_box self.new also ≡ has_box self.old also }
        ensures ahead { IfErr result (λ ahead. ahead.last
            ≡ last_of (outbox_state_of self.old railway)) }
        ensures err { OnErr result (self.new ≡ self.old) }
    {
        let last = self.last(railway);
        if number > last {
            return Err(AckAhead { last });
        }
        Ok(boxes::acknowledge(&mut self.boxes, railway, number))
    }
}
