//! Pages of a history.
use history_pages::Pages;
use memory_limit::MemoryLimit;
use std::alloc::{AllocError, Global};
use std::test::Fail;

// Pushes the numbers below 1,025. Fails where one is handed back.
fn push_all(pages: &mut Pages<u32>) -> Result<(), Fail> {
    for number in 0..1025u32 {
        if pages.len() >= 1025 || pages.push(number).is_err() {
            return Err(Fail::new(number));
        }
    }
    Ok(())
}

// Whether the numbers below 1,025 stand under themselves, and nothing behind them.
fn is_a_page_and_one(pages: &Pages<u32>) -> bool {
    let first = pages.get(0) == Some(&0);
    let page = pages.get(1023) == Some(&1023) && pages.get(1024) == Some(&1024);
    let behind = pages.get(1025).is_none() && pages.get(usize::MAX).is_none();
    pages.len() == 1025 && !pages.is_empty() && first && page && behind
}

#[test]
fn a_page_and_one_entry_more(rt: HostRuntime) -> Result<(), Fail> {
    let mut pages = Pages::new(rt.alloc());
    assert!(rt; pages.is_empty());
    push_all(&mut pages)?;
    assert!(rt; is_a_page_and_one(&pages));
    Ok(())
}

// Makes room for the numbers below 2,050 one by one, and pushes each.
fn push_all_reserved(pages: &mut Pages<u32>) -> Result<(), Fail> {
    for number in 0..2050u32 {
        if pages.len() >= 2050 {
            return Err(Fail::new(number));
        }
        pages.reserve()?;
        pages.push_reserved(number);
    }
    Ok(())
}

#[test]
fn room_is_made_beforehand(rt: HostRuntime) -> Result<(), Fail> {
    let mut pages = Pages::new(rt.alloc());
    push_all_reserved(&mut pages)?;
    assert!(rt; pages.len() == 2050);
    assert!(rt; pages.get(2049) == Some(&2049));
    Ok(())
}

// Pushes a number, again with all memory where it is handed back. Tells whether it was.
fn is_handed_back(pages: &mut Pages<u64>, memory_limit: &mut MemoryLimit, number: u64) -> bool {
    if pages.len() >= 2049 {
        return false;
    }
    let Err(back) = pages.push(number) else {
        return false;
    };
    memory_limit.release();
    if pages.len() < 2049 {
        let _ = pages.push(back);
    }
    true
}

// Pushes the numbers up to 2,048 with so much memory at hand, and answers how many pushes were refused.
fn fill(
    pages: &mut Pages<u64>,
    memory_limit: &mut MemoryLimit,
    budget: usize,
) -> Result<u32, AllocError> {
    let mut refused: u32 = 0;
    memory_limit.limit_to(budget)?;
    for number in 0..2049u64 {
        if is_handed_back(pages, memory_limit, number) {
            refused = refused.saturating_add(1);
        }
    }
    memory_limit.release();
    Ok(refused)
}

// Whether the entries are the numbers up to 2,048.
fn is_filled(pages: &Pages<u64>) -> bool {
    for index in 0..2049usize {
        if pages.get(index) != Some(&(index as u64)) {
            return false;
        }
    }
    pages.len() == 2049
}

// Whether so many bytes are enough. Fails unless all numbers are there in the end.
fn is_enough(alloc: Global, memory_limit: &mut MemoryLimit, budget: usize) -> Result<bool, Fail> {
    let mut pages = Pages::new(alloc);
    let refused = fill(&mut pages, memory_limit, budget)?;
    if is_filled(&pages) {
        Ok(refused == 0)
    } else {
        Err(Fail::new(budget))
    }
}

#[test]
fn each_growth_is_refused_in_turn(rt: HostRuntime) -> Result<(), Fail> {
    let mut memory_limit = MemoryLimit::new(rt.alloc())?;
    for step in 0..4000usize {
        if is_enough(rt.alloc(), &mut memory_limit, step * 64)? {
            assert!(rt; step > 300);
            return Ok(());
        }
    }
    Err(Fail::new("always refused"))
}
