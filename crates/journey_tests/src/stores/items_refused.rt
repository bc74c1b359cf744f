//! Items that hold memory of their own, pushed while each growth of memory is refused in turn.
use crate::stores::given::{limit, number_of};
use crate::stores::items::{no_items, push};
use memory_limit::MemoryLimit;
use outbox::Outboxes;
use std::alloc::Global;
use std::test::Fail;
use taf_codes::{Memory, Railway};
use taf_messages::{ItemBody, Shared, SubNotice, Wagons};
use taf_moment::Moment;
use wagon_number::WagonNumber;

fn one_wagon(alloc: Global, wagon: WagonNumber) -> Result<Wagons, Memory> {
    let wagons = Vec::from_slice(alloc, &[wagon])?;
    Wagons::new(wagons).ok_or(Memory)
}

// The notice of an infrastructure manager, which holds memory of its own.
fn sub_notice(alloc: Global, wagon: WagonNumber, offerer: Railway) -> Result<ItemBody, Memory> {
    let at = Moment::read("2025-03-01T11:10Z").ok().ok_or(Memory)?;
    let offer = number_of(6)?;
    let wagons = one_wagon(alloc, wagon)?;
    let notice = SubNotice {
        at,
        from: offerer,
        offer,
        offerer,
        wagons,
    };
    let shared = Shared::new(alloc, notice)?;
    Ok(ItemBody::Sub(shared))
}

fn push_notice(
    alloc: Global,
    outboxes: &mut Outboxes,
    railway: Railway,
    wagon: WagonNumber,
) -> Result<(), Memory> {
    let notice = sub_notice(alloc, wagon, railway)?;
    push(outboxes, railway, notice)?;
    Ok(())
}

// Pushes the notice, again with all memory where it is refused and nothing was changed. Tells whether it was.
fn is_refused(
    alloc: Global,
    outboxes: &mut Outboxes,
    memory_limit: &mut MemoryLimit,
    railway: Railway,
    wagon: WagonNumber,
) -> Result<bool, Memory> {
    let before = outboxes.last(railway);
    let pushed = push_notice(alloc, outboxes, railway, wagon);
    if pushed.is_ok() || outboxes.last(railway) != before {
        return Ok(false);
    }
    memory_limit.release();
    push_notice(alloc, outboxes, railway, wagon)?;
    Ok(true)
}

// Pushes forty items to each of two railways with what memory is left, and fetches those of the first. Answers how many
// growths were refused.
fn fill(
    alloc: Global,
    outboxes: &mut Outboxes,
    memory_limit: &mut MemoryLimit,
    railways: [Railway; 2],
    wagon: WagonNumber,
) -> Result<u32, Memory> {
    let mut refused: u32 = 0;
    for number in 0..80usize {
        if is_refused(alloc, outboxes, memory_limit, railways[number % 2], wagon)? {
            refused = refused.saturating_add(1);
        }
    }
    if outboxes.fetch(railways[0], limit(40)?).is_err() {
        refused = refused.saturating_add(1);
    }
    Ok(refused)
}

// Whether a railway has forty items, each the notice with its number.
fn is_filled(
    alloc: Global,
    outboxes: &Outboxes,
    railway: Railway,
    wagon: WagonNumber,
) -> Result<bool, Memory> {
    let wanted = sub_notice(alloc, wagon, railway)?;
    let items = outboxes.fetch(railway, limit(50)?)?;
    let mut number: u64 = 0;
    for item in items.as_slice() {
        number = number.saturating_add(1);
        if item.number != number || item.body != wanted {
            return Ok(false);
        }
    }
    Ok(number == 40)
}

// Whether so many bytes are enough. Fails unless both railways have all items in the end.
fn is_enough(
    alloc: Global,
    memory_limit: &mut MemoryLimit,
    budget: usize,
    railways: [Railway; 2],
    wagon: WagonNumber,
) -> Result<bool, Fail> {
    let mut outboxes = no_items(alloc)?;
    memory_limit.limit_to(budget)?;
    let refused = fill(alloc, &mut outboxes, memory_limit, railways, wagon)?;
    memory_limit.release();
    let is_first = is_filled(alloc, &outboxes, railways[0], wagon)?;
    if is_first && is_filled(alloc, &outboxes, railways[1], wagon)? {
        Ok(refused == 0)
    } else {
        Err(Fail::new(budget))
    }
}

#[test]
fn each_growth_is_refused_in_turn(rt: HostRuntime) -> Result<(), Fail> {
    let railways = [Railway::read("R100")?, Railway::read("I300")?];
    let wagon = WagonNumber::read("218124712173")?;
    let mut memory_limit = MemoryLimit::new(rt.alloc())?;
    for step in 0..4000usize {
        if is_enough(rt.alloc(), &mut memory_limit, step * 64, railways, wagon)? {
            assert!(rt; step > 20);
            return Ok(());
        }
    }
    Err(Fail::new("always refused"))
}
