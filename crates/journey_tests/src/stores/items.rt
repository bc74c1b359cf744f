//! The items of a railway: numbered, fetched and acknowledged.

use crate::stores::given::{limit, railway};
use outbox::{AckAhead, Outboxes};
use std::alloc::Global;
use std::test::Fail;
use taf_codes::{Memory, Railway};
use taf_messages::ItemBody;
use wagon_number::WagonNumber;

// The end of an alert.
fn alert_ends() -> Result<ItemBody, Fail> {
    let wagon = WagonNumber::read("218124712173")?;
    Ok(ItemBody::AlertEnds { wagon })
}

/// Pushes an item where there are few.
pub(crate) fn push(
    outboxes: &mut Outboxes,
    railway: Railway,
    body: ItemBody,
) -> Result<u64, Memory> {
    if outboxes.last(railway) > 100_000 {
        return Err(Memory);
    }
    outboxes.push(railway, body)
}

/// Outboxes without items. They lie on the heap, since what owns outboxes itself takes the prover long.
pub(crate) fn no_items(alloc: Global) -> Result<Box<Outboxes>, Fail> {
    Ok(Box::new(alloc, Outboxes::new(alloc))?)
}

// Pushes so many items to a railway. Fails unless each gets the number after the one before.
fn push_many(outboxes: &mut Outboxes, railway: Railway, count: u64) -> Result<(), Fail> {
    for number in 1..=count {
        if push(outboxes, railway, alert_ends()?)? != number {
            return Err(Fail::new("another number"));
        }
    }
    Ok(())
}

// Outboxes in which a railway has so many items, each of which got the number after the one before.
fn with_items(alloc: Global, railway: Railway, count: u64) -> Result<Box<Outboxes>, Fail> {
    let mut outboxes = no_items(alloc)?;
    push_many(&mut outboxes, railway, count)?;
    Ok(outboxes)
}

// The number of the last of the first items that wait, so many at most. Fails unless they are ends of alerts that follow
// this number and one another.
fn last_fetched(
    outboxes: &Outboxes,
    railway: Railway,
    most: u64,
    before: u64,
) -> Result<u64, Fail> {
    let mut last = before;
    for item in outboxes.fetch(railway, limit(most)?)?.as_slice() {
        last = last.saturating_add(1);
        let is_end = matches!(item.body, ItemBody::AlertEnds { wagon: _ });
        if !is_end || item.number != last {
            return Err(Fail::new("not in order"));
        }
    }
    Ok(last)
}

// A railway, how many items it fetches at most, the numbers before the first and of the last that it is given, which
// number it acknowledges then, and the answer.
static STEPS: [(&str, u64, u64, u64, u64, Result<u64, AckAhead>); 6] = [
    ("R100", 1, 0, 1, 0, Ok(0)),
    ("R100", 2, 0, 2, 1, Ok(1)),
    ("R100", 2, 1, 3, 99, Err(AckAhead { last: 5 })),
    ("R100", 50, 1, 5, 0, Ok(1)),
    ("R999", 50, 0, 0, 0, Ok(0)),
    ("R999", 50, 0, 0, 1, Err(AckAhead { last: 0 })),
];

#[test]
fn items_wait_until_they_are_acknowledged(rt: HostRuntime) -> Result<(), Fail> {
    let owner = Railway::read("R100")?;
    let mut outboxes = with_items(rt.alloc(), owner, 5)?;
    for (code, most, before, last, number, answer) in &STEPS {
        let railway = railway(code)?;
        let is_last = last_fetched(&outboxes, railway, *most, *before)? == *last;
        if !is_last || outboxes.ack(railway, *number) != *answer {
            return Err(Fail::new(*most));
        }
    }
    assert!(rt; outboxes.acknowledged(owner) == 1 && outboxes.last(owner) == 5);
    Ok(())
}

// Puts an item where there is room for it, and gives its number.
fn put(outboxes: &mut Outboxes, railway: Railway, body: ItemBody) -> Result<u64, Memory> {
    outboxes.make_room(railway, 2)?;
    Ok(outboxes.put(railway, body))
}

// Puts three items. Fails where one gets another number than the one after that of the last.
fn put_three(outboxes: &mut Outboxes, railway: Railway) -> Result<(), Fail> {
    for number in 1..4u64 {
        if put(outboxes, railway, alert_ends()?)? != number {
            return Err(Fail::new(number));
        }
    }
    Ok(())
}

#[test]
fn a_box_is_opened_with_its_room(rt: HostRuntime) -> Result<(), Fail> {
    let railway = Railway::read("R100")?;
    let mut outboxes = no_items(rt.alloc())?;
    assert!(rt; !outboxes.has_box(railway));
    outboxes.make_room(railway, 0)?;
    assert!(rt; outboxes.has_box(railway) && outboxes.last(railway) == 0);
    put_three(&mut outboxes, railway)?;
    assert!(rt; last_fetched(&outboxes, railway, 50, 0)? == 3);
    Ok(())
}

// How many items there are, where a railway fetches and acknowledges them until none waits.
fn count_pages(outboxes: &mut Outboxes, railway: Railway) -> Result<u64, Fail> {
    let mut seen = 0;
    for _ in 0..1000u32 {
        let last = last_fetched(outboxes, railway, 50, seen)?;
        if last == seen {
            break;
        }
        seen = last;
        if outboxes.ack(railway, seen) != Ok(seen) {
            return Err(Fail::new("not acknowledged"));
        }
    }
    Ok(seen)
}

#[test]
fn many_items_are_pushed_fetched_and_acknowledged(rt: HostRuntime) -> Result<(), Fail> {
    let railway = Railway::read("R100")?;
    let mut outboxes = with_items(rt.alloc(), railway, 40_003)?;
    assert!(rt; outboxes.last(railway) == 40_003);
    assert!(rt; count_pages(&mut outboxes, railway)? == 40_003);
    assert!(rt; outboxes.acknowledged(railway) == 40_003);
    assert!(rt; outboxes.last(railway) == 40_003);
    Ok(())
}

#[test]
fn many_items_are_acknowledged_at_once(rt: HostRuntime) -> Result<(), Fail> {
    let railway = Railway::read("R100")?;
    let mut outboxes = with_items(rt.alloc(), railway, 40_003)?;
    assert!(rt; outboxes.ack(railway, 40_003) == Ok(40_003));
    assert!(rt; last_fetched(&outboxes, railway, 50, 40_003)? == 40_003);
    assert!(rt; push(&mut outboxes, railway, alert_ends()?)? == 40_004);
    Ok(())
}
