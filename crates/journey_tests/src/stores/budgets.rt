//! What a limit leaves.
use memory_limit::MemoryLimit;
use std::alloc::Global;
use std::test::Fail;

// Whether so many bytes can be had.
fn can_be_had(alloc: Global, bytes: usize) -> bool {
    let block: Result<Vec<u8>, _> = Vec::with_capacity(alloc, bytes);
    block.is_ok()
}

// Whether, where so many bytes are left, more is refused and half of them are given, and more is given afterwards.
fn leaves(alloc: Global, memory_limit: &mut MemoryLimit, budget: usize) -> Result<bool, Fail> {
    let past = budget.saturating_add(8192);
    memory_limit.limit_to(budget)?;
    let is_held = memory_limit.small_blocks() > 0;
    let is_refused = !can_be_had(alloc, past);
    let is_given = can_be_had(alloc, budget / 2);
    memory_limit.release();
    Ok(is_held && is_refused && is_given && can_be_had(alloc, past))
}

#[test]
fn what_goes_past_the_budget_is_refused(rt: HostRuntime) -> Result<(), Fail> {
    let mut memory_limit = MemoryLimit::new(rt.alloc())?;
    assert!(rt; memory_limit.large_blocks() > 0);
    assert!(rt; memory_limit.small_blocks() == 0);
    for budget in [0, 64, 1024, 65_536usize] {
        if !leaves(rt.alloc(), &mut memory_limit, budget)? {
            return Err(Fail::new(budget));
        }
    }
    Ok(())
}
