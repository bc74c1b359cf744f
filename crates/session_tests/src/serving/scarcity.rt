//! Each growth of serving refused in turn.
ghost use Rattle.std.specs.Prelude.{◌≡◌};
ghost use Rattle.session_lines.specs.States.{new_state};

use crate::serving::ends::{Ends, Served};
use crate::serving::served::{example, is_whole};
use crate::serving::streams::FAR;
use memory_limit::MemoryLimit;
use session_serving::SessionFault;
use std::alloc::Global;
use std::test::Fail;
use test_scripts::{Script, count_lines};

const NO_MEMORY: &[u8] = b"{\"fault\":\"no_memory\"}";

// Whether each line was answered by one line, some of which say that memory was refused.
fn is_answered(served: &Served, script: &Script) -> bool {
    served.end == Ok(())
        && served.left == 0
        && served.told <= served.sent
        && count_lines(&served.output) == count_lines(&script.wanted)
        && served
            .output
            .split(|byte| *byte == b'\n')
            .any(|line| line == NO_MEMORY)
}

// Whether no memory was refused. Fails unless each line was answered by one line.
fn has_enough(served: &Served, script: &Script) -> Result<bool, Fail> {
    if is_whole(served, script) {
        return Ok(true);
    }
    if is_answered(served, script) {
        return Ok(false);
    }
    Err(Fail::new("another end"))
}

// Serves the example once more, of which nothing was read when memory was refused. Fails unless all is answered.
fn serve_again(alloc: Global, ends: Ends<'_>, script: &Script) -> Result<bool, Fail>
    requires session { ends.session ≡ new_state 3 }
    requires port { ends.port.id ≡ 3 }
{
    if is_whole(&ends.serve_to_end(alloc), script) {
        return Ok(false);
    }
    Err(Fail::new("another end"))
}

// Whether so many bytes are enough to serve the example.
fn is_enough(
    alloc: Global,
    memory_limit: &mut MemoryLimit,
    script: &Script,
    left: usize,
) -> Result<bool, Fail> {
    let output = Vec::with_capacity(alloc, 4096)?;
    let mut ends = Ends::new(alloc, &script.input, output, FAR)?;
    memory_limit.limit_to(left)?;
    let end = ends.serve(alloc);
    memory_limit.release();
    match end {
        Err(SessionFault::Memory) => serve_again(alloc, ends, script),
        _ => has_enough(&ends.ended(end), script),
    }
}

// How many budgets aren't enough, each of sixteen bytes more than the one before.
fn count_budgets(
    alloc: Global,
    memory_limit: &mut MemoryLimit,
    script: &Script,
) -> Result<usize, Fail> {
    for step in 0..100_000usize {
        if is_enough(alloc, memory_limit, script, step * 16)? {
            return Ok(step);
        }
    }
    Err(Fail::new("always refused"))
}

// Serves the example with ample memory, so that the stack has its depth: it can't grow where no address space is left.
fn serve_amply(alloc: Global, script: &Script) -> Result<(), Fail> {
    let ends = Ends::new(alloc, &script.input, Vec::new(alloc), FAR)?;
    if is_whole(&ends.serve_to_end(alloc), script) {
        return Ok(());
    }
    Err(Fail::new("another end"))
}

// The room for a line and for what is pending alone is more than eight thousand times sixteen bytes.
#[test]
fn each_growth_is_refused_in_turn(rt: HostRuntime) -> Result<(), Fail> {
    let script = example(rt.alloc())?;
    serve_amply(rt.alloc(), &script)?;
    let mut memory_limit = MemoryLimit::new(rt.alloc())?;
    let budgets = count_budgets(rt.alloc(), &mut memory_limit, &script)?;
    assert!(rt; budgets > 8192, "{budgets}");
    Ok(())
}
