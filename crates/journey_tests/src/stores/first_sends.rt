//! The first sends of messages, found under their senders and numbers.
use crate::stores::given::{number_of, railway};
use memory_limit::MemoryLimit;
use replay_numbers::Seen;
use std::alloc::Global;
use std::test::Fail;
use taf_codes::{Memory, Railway};

// A table without sends. It lies on the heap, since what owns a table itself takes the prover long.
fn nothing_seen(alloc: Global) -> Result<Box<Seen>, Fail> {
    Ok(Box::new(alloc, Seen::new(alloc))?)
}

// Notes a name where it is new.
fn note_new(seen: &mut Seen, by: Railway, number: u64, position: u32) -> Result<(), Memory> {
    let number = number_of(number)?;
    if seen.find(by, number).is_some() {
        return Ok(());
    }
    seen.note(by, number, u64::from(position))
}

// Whether the name is found at this position, or nowhere.
fn is_found(seen: &Seen, code: &str, number: u64, position: Option<u64>) -> Result<bool, Memory> {
    Ok(seen.find(railway(code)?, number_of(number)?) == position)
}

// Notes a new name at a position, where there is room for it.
fn note_reserved(seen: &mut Seen, by: Railway, number: u64, position: u32) -> Result<(), Memory> {
    let number = number_of(number)?;
    match seen.find_or_make_room(by, number)? {
        Some(_) => {}
        None => seen.note_reserved(by, number, u64::from(position)),
    }
    Ok(())
}

// Whether the first number of R100 is found at this position, and that of R101 at the other.
fn are_found(seen: &Seen, first: Option<u64>, other: Option<u64>) -> Result<bool, Memory> {
    Ok(is_found(seen, "R100", 1, first)? && is_found(seen, "R101", 1, other)?)
}

#[test]
fn first_sends_are_found(rt: HostRuntime) -> Result<(), Fail> {
    let mut seen = nothing_seen(rt.alloc())?;
    assert!(rt; are_found(&seen, None, None)?);
    note_new(&mut seen, railway("R100")?, 1, 0)?;
    assert!(rt; are_found(&seen, Some(0), None)?);
    assert!(rt; is_found(&seen, "R100", 2, None)?);
    note_reserved(&mut seen, railway("R101")?, 1, 7)?;
    assert!(rt; are_found(&seen, Some(0), Some(7))?);
    Ok(())
}

// The numbers of messages in the order in which they were sent.
static SENT: [u64; 10] = [5, 2, 6, 9, 7, 70, 1000, 999_999_999_999, 71, 1];

// Where a number is first found among those that were sent.
fn position_of(number: u64) -> Option<u64> {
    let position = SENT.iter().position(|one| *one == number)?;
    Some(position as u64)
}

// Notes the numbers that were sent at their positions.
fn note_sent(seen: &mut Seen, sender: Railway) -> Result<(), Memory> {
    for (position, number) in SENT.iter().enumerate() {
        note_new(seen, sender, *number, position as u32)?;
    }
    Ok(())
}

#[test]
fn numbers_with_gaps_are_found(rt: HostRuntime) -> Result<(), Fail> {
    let sender = Railway::read("R100")?;
    let mut seen = nothing_seen(rt.alloc())?;
    note_sent(&mut seen, sender)?;
    for number in 1..1100u64 {
        if seen.find(sender, number_of(number)?) != position_of(number) {
            return Err(Fail::new(number));
        }
    }
    assert!(rt; seen.find(sender, number_of(999_999_999_999)?) == Some(7));
    Ok(())
}

// Notes the numbers up to 100 with so much memory at hand, and answers how many notes were refused. What was refused is
// noted again with all memory.
fn fill(
    seen: &mut Seen,
    memory_limit: &mut MemoryLimit,
    budget: usize,
    by: Railway,
) -> Result<u32, Memory> {
    let mut refused: u32 = 0;
    memory_limit.limit_to(budget)?;
    for position in 0..100u32 {
        if note_new(seen, by, u64::from(position) + 1, position).is_err() {
            refused = refused.saturating_add(1);
            memory_limit.release();
            note_new(seen, by, u64::from(position) + 1, position)?;
        }
    }
    memory_limit.release();
    Ok(refused)
}

// Whether the numbers up to 100 are noted at their positions, and 101 is not.
fn is_filled(seen: &Seen, by: Railway) -> Result<bool, Memory> {
    for position in 0..100u64 {
        if seen.find(by, number_of(position + 1)?) != Some(position) {
            return Ok(false);
        }
    }
    Ok(seen.find(by, number_of(101)?).is_none())
}

// Whether so many bytes are enough. Fails unless all numbers are noted in the end.
fn is_enough(
    alloc: Global,
    memory_limit: &mut MemoryLimit,
    budget: usize,
    by: Railway,
) -> Result<bool, Fail> {
    let mut seen = nothing_seen(alloc)?;
    let refused = fill(&mut seen, memory_limit, budget, by)?;
    if is_filled(&seen, by)? {
        Ok(refused == 0)
    } else {
        Err(Fail::new(budget))
    }
}

#[test]
fn each_growth_is_refused_in_turn(rt: HostRuntime) -> Result<(), Fail> {
    let by = Railway::read("R100")?;
    let mut memory_limit = MemoryLimit::new(rt.alloc())?;
    for step in 0..4000usize {
        if is_enough(rt.alloc(), &mut memory_limit, step * 16, by)? {
            assert!(rt; step > 20);
            return Ok(());
        }
    }
    Err(Fail::new("always refused"))
}
