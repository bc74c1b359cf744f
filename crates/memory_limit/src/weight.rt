ghost use Rattle.std.specs.Prelude.{◌≡◌, ◌≤◌, ◌<◌, ◌+◌, IfOk, OnOk, vec_len};

use std::alloc::{AllocError, Global};
use std::marker::Model;

/// All the memory that could be had, but for what was given back.
#[derive(Drop)]
pub struct MemoryLimit {
    large: Vec<Vec<u8>>,
    small: Vec<Vec<u8>>,
    alloc: Global,
}

impl Model for MemoryLimit {
    ghost use Rattle.std.specs.Prelude.{vec_len};
    ghost use Rattle.memory_limit.specs.Blocks.{Blocks};

    ghost Value = { Blocks };

    ghost view = { λ b. record { large = vec_len b.large; small = vec_len b.small } };
}

// How many blocks of each kind are held at most.
const MAX_BLOCKS: usize = 200_000;

// The large blocks are of 2^36 bytes, of half as many, and so on down to the greatest small block.
const GREATEST: usize = 1 << 36;

// The small blocks are of 2^22 bytes, of half as many, and so on down to a few.
const GREATEST_SMALL: usize = 1 << 22;

// What is set aside to be split, while the small blocks are taken.
const SET_ASIDE: usize = 4096;

// What is set aside for the budgets, while the large blocks are taken. The allocator keeps up to seven freed blocks of each
// small size where they lie, some 450 in all, so the room may come to lie in as many pieces and more. One of them is then
// still of more than 2^18 bytes.
const ROOM: usize = 1 << 28;

// How deep the stack grows, in bytes, of the 8 MiB that it has as a rule.
const STACK: usize = 1 << 21;

impl MemoryLimit {
    /// Takes all large blocks, but for room for a budget.
    pub fn new(alloc: Global) -> Result<MemoryLimit, AllocError>
        ensures { IfOk result (λ memory_limit. memory_limit.small ≡ 0) }
    {
        let mut large = Vec::with_capacity(alloc, MAX_BLOCKS)?;
        let small = Vec::with_capacity(alloc, MAX_BLOCKS)?;
        let room: Vec<u8> = Vec::with_capacity(alloc, ROOM)?;
        take_blocks(alloc, &mut large, GREATEST);
        if !grows_stack(large.len()) {
            return Err(AllocError);
        }
        take_halves(alloc, &mut large, GREATEST / 2, 14);
        drop(room);
        Ok(MemoryLimit {
            large,
            small,
            alloc,
        })
    }

    /// Leaves about so many bytes in one piece, and no more. Up to 2^18 of them there is room for, however the memory was used
    /// before, and as a rule up to 2^21.
    pub fn limit_to(&mut self, bytes: usize) -> Result<(), AllocError>
        ensures large { self.new.large ≡ self.old.large }
        ensures none_given_back { self.old.small ≤ self.new.small }
        ensures taken { OnOk result (self.old.small < self.new.small) }
    {
        let budget: Vec<u8> = Vec::with_capacity(self.alloc, SET_ASIDE.saturating_add(bytes))?;
        take_halves(self.alloc, &mut self.small, GREATEST_SMALL, 20);
        drop(budget);
        let block = Vec::with_capacity(self.alloc, SET_ASIDE)?;
        self.small.push(block)?;
        Ok(())
    }

    /// Gives the small blocks back.
    pub fn release(&mut self)
        ensures { self.new ≡ record self.old { small = 0 } }
    {
        self.small.clear();
    }

    /// How many large blocks it holds.
    pub fn large_blocks(&self) -> usize
        ensures { result ≡ self.now.large }
    {
        self.large.len()
    }

    /// How many small blocks it holds.
    pub fn small_blocks(&self) -> usize
        ensures { result ≡ self.now.small }
    {
        self.small.len()
    }
}

// Has the stack grow while the memory below it is free: smaller blocks come to lie there, and a stack that can't grow ends the
// program. Whether it did, so that no compiler leaves it out: the place of the one is known when it runs.
#[inline(never)]
fn grows_stack(place: usize) -> bool {
    let mut frame = [0u8; STACK];
    frame[place % STACK] = 1;
    frame[0] == 0 || place % STACK == 0
}

// Takes blocks of this size, then of half of it, and so on.
fn take_halves(alloc: Global, blocks: &mut Vec<Vec<u8>>, greatest: usize, sizes: u32)
    ensures { vec_len blocks.old ≤ vec_len blocks.new }
{
    let mut size = greatest;
    for _ in 0..sizes {
        take_blocks(alloc, blocks, size);
        size /= 2;
    }
}

// Takes blocks of this size until one is refused.
fn take_blocks(alloc: Global, blocks: &mut Vec<Vec<u8>>, size: usize)
    ensures { vec_len blocks.old ≤ vec_len blocks.new }
{
    for _ in 0..MAX_BLOCKS {
        if blocks.len() >= MAX_BLOCKS {
            return;
        }
        let Ok(block) = Vec::with_capacity(alloc, size) else {
            return;
        };
        let Ok(()) = blocks.push(block) else {
            return;
        };
    }
}
