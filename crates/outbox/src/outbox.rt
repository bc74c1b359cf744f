ghost use Rattle.std.specs.Prelude.{◌≡◌, ◌+◌, ◌<◌, ◌≤◌, ◌^◌, [], ◌∷◌, length, take, drop, max, slice_get, option_copied, IfOk, OnOk};
ghost use Rattle.outbox.specs.OutboxStates.{last_of, new_box, with_items, acknowledged_up_to, first_items, items_from_number};

use std::alloc::Global;
use std::collections::VecDeque;
use std::marker::Model;
use taf_codes::Memory;
use taf_messages::{Item, ItemBody, ItemList};

/// The box of one railway.
#[derive(Drop)]
pub(crate) struct Outbox {
    // The number of the last item that was acknowledged, 0 if there is none.
    acknowledged: u64,
    // The bodies of the items after it, in a ring.
    bodies: VecDeque<ItemBody>,
}

impl Model for Outbox {
    ghost use Rattle.std.specs.Prelude.{◌+◌, ◌-◌, ◌≤◌, ◌^◌};
    ghost use Rattle.std.specs.VecDeque.{deque_capacity, deque_len};
    ghost use Rattle.outbox.specs.OutboxStates.{BoxState};

    ghost Value = { BoxState };

    ghost view = { λ b. record {
      kept = record { acknowledged = b.acknowledged; bodies = b.bodies.items };
      room = deque_capacity b.bodies - deque_len b.bodies;
    } };

    ghost invariant = { λ b. b.acknowledged + deque_len b.bodies ≤ 2 ^ 63 };
}

impl Outbox {
    pub fn new(alloc: Global) -> Outbox
        ensures { result.kept ≡ new_box }
    {
        Outbox {
            acknowledged: 0,
            bodies: VecDeque::new(alloc),
        }
    }

    pub fn acknowledged(&self) -> u64
        ensures { result ≡ self.now.kept.acknowledged }
    {
        self.acknowledged
    }

    pub fn last(&self) -> u64
        ensures value { result ≡ last_of self.now.kept }
        ensures few { result ≤ 2 ^ 63 }
    {
        self.acknowledged + self.bodies.len() as u64
    }

    /// Makes room for so many items. Memory is answered also where the box had 2^62 items.
    pub fn make_room(&mut self, count: usize) -> Result<(), Memory>
        ensures kept { self.new.kept ≡ self.old.kept }
        ensures stay { self.old.room ≤ self.new.room }
        ensures room { OnOk result (count ≤ self.new.room) }
        ensures few { OnOk result (last_of self.new.kept < 2 ^ 62) }
    {
        if self.last() >= 1 << 62 {
            return Err(Memory);
        }
        self.bodies.reserve(count)?;
        Ok(())
    }

    /// Adds an item, for which there is room.
    pub fn put(&mut self, body: ItemBody)
        requires room { 0 < self.old.room }
        requires few { last_of self.old.kept + 1 < 2 ^ 63 }
        ensures kept { self.new.kept ≡ with_items self.old.kept (body ∷ []) }
        ensures room { self.new.room + 1 ≡ self.old.room }
    {
        self.bodies.push_back_reserved(body);
    }

    /// Drops the items up to this number.
    pub fn acknowledge(&mut self, number: u64)
        requires { number ≤ last_of self.old.kept }
        ensures { self.new.kept ≡ acknowledged_up_to self.old.kept number }
    {
        if number > self.acknowledged {
            drop_front(&mut self.bodies, number - self.acknowledged);
            self.acknowledged = number;
        }
    }

    /// The body of the item at this index of those after the acknowledged one, from 0.
    pub fn unacknowledged(&self, index: usize) -> Option<&ItemBody>
        ensures { option_copied result ≡ slice_get self.now.kept.bodies index }
    {
        self.bodies.get(index)
    }

    /// Copies of the first items.
    pub fn first(&self, alloc: Global, limit: u64) -> Result<ItemList, Memory>
        ensures { IfOk result (λ items. items ≡ first_items self.now.kept limit) }
    {
        numbered_items(alloc, self.acknowledged, &self.bodies, limit)
    }
}

// The same body.
#[tactic(auto, using(crate::proofs::CopyLemmas::body_copied))]
fn copy_of(body: &ItemBody) -> Result<ItemBody, Memory>
    ensures { IfOk result (λ copy. copy ≡ body.now) }
{
    Ok(body.clone()?)
}

// Copies of the first bodies, numbered on from the one before.
#[tactic(auto, using(crate::proofs::NumberLemmas::first_numbered, crate::proofs::NumberLemmas::all_numbered))]
fn numbered_items(
    alloc: Global,
    before: u64,
    bodies: &VecDeque<ItemBody>,
    limit: u64,
) -> Result<ItemList, Memory>
    requires { before + length bodies.now.items ≤ 2 ^ 63 }
    ensures { IfOk result
        (λ items. items ≡ items_from_number before (take limit bodies.now.items)) }
{
    let mut items = Vec::with_capacity(alloc, bodies.len().min(limit as usize))?;
    let mut rest = bodies.iter();
    let mut number = before;
    for i in 0..limit {
        let Some(body) = rest.next() else {
            return Ok(ItemList::from_vec(items));
        };
        number += 1;
        let body = copy_of(body)?;
        items.push_reserved(Item { number, body });
    }
    Ok(ItemList::from_vec(items))
}

fn drop_front(bodies: &mut VecDeque<ItemBody>, count: u64)
    requires { count ≤ length bodies.old.items }
    ensures { bodies.new.items ≡ drop count bodies.old.items }
{
    for i in 0..count {
        let _ = bodies.pop_front();
    }
}
