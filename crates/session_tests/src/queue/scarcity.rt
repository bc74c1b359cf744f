//! Each growth of a new inbox refused in turn, and all other calls without memory.
ghost use Rattle.std.specs.Prelude.{◌≡◌};
ghost use Rattle.inbox.specs.Rules.{ALL_PARTS};

use crate::queue::jobs::Question;
use inbox::{Inbox, Pass};
use memory_limit::MemoryLimit;
use std::alloc::{AllocError, Global};
use std::sync::Wait;
use std::test::Fail;

// Whether so many bytes are enough for a new inbox of sixteen places.
fn is_enough(
    memory_limit: &mut MemoryLimit,
    rt: &impl Wait,
    alloc: Global,
    left: usize,
) -> Result<bool, AllocError> {
    memory_limit.limit_to(left)?;
    let is_made = Inbox::new(rt, alloc, 16).is_ok();
    memory_limit.release();
    Ok(is_made)
}

// How many budgets are not enough, each of sixteen bytes more than the one before.
fn refused_budgets(
    memory_limit: &mut MemoryLimit,
    rt: &impl Wait,
    alloc: Global,
) -> Result<usize, Fail> {
    for step in 0..100_000usize {
        if is_enough(memory_limit, rt, alloc, step * 16)? {
            return Ok(step);
        }
    }
    Err(Fail::new("always refused"))
}

// With no memory left, puts a job by one pass, takes it by another and closes the inbox. Whether it came, and none is left.
fn passes_a_job_on(
    memory_limit: &mut MemoryLimit,
    rt: &impl Wait,
    alloc: Global,
    inbox: Inbox,
    pass: Pass,
) -> Result<bool, Fail>
    requires own { pass.inbox ≡ inbox.id }
    requires all { pass.parts ≡ ALL_PARTS }
{
    let question = Question::new()?;
    let mut pass = pass;
    let mut passes = Vec::with_capacity(alloc, 2)?;
    memory_limit.limit_to(0)?;
    let mut other = inbox.split_pass(rt, &mut pass)?;
    let is_put = inbox.put(rt, &mut pass, question.job(0, 0)).is_ok();
    let taken = inbox.take(rt, &mut other);
    passes.push_reserved(pass);
    passes.push_reserved(other);
    let is_empty = inbox.close(rt, passes).next(rt).is_none();
    memory_limit.release();
    Ok(is_put && taken == Some(question.job(0, 0)) && is_empty)
}

#[test]
fn only_a_new_inbox_takes_memory(rt: HostRuntime) -> Result<(), Fail> {
    let alloc = rt.alloc();
    let mut memory_limit = MemoryLimit::new(alloc)?;
    assert!(rt; refused_budgets(&mut memory_limit, &rt, alloc)? > 16);
    let (inbox, pass) = Inbox::new(&rt, alloc, 16)?;
    assert!(rt; passes_a_job_on(&mut memory_limit, &rt, alloc, inbox, pass)?);
    Ok(())
}
