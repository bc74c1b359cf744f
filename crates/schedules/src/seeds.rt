//! Schedules of many seeds.

use crate::counts::Counts;
use crate::draws::Draws;
use crate::fault::{ScheduleFault, SeedFault};
use crate::scarcity::Scarcity;
use crate::schedule::Schedule;
use memory_limit::MemoryLimit;
use std::alloc::Global;

// Runs the schedule of a seed.
fn run(alloc: Global, draws: Draws, scarcity: Scarcity<'_>) -> Result<Counts, ScheduleFault> {
    let mut schedule = Schedule::new(alloc, draws, scarcity)?;
    schedule.run()?;
    schedule.check()
}

// Runs the schedule of a seed. Memory is scarce now and then in two schedules of three.
fn run_seed(
    alloc: Global,
    memory_limit: &mut MemoryLimit,
    seed: u64,
) -> Result<Counts, ScheduleFault> {
    let mut draws = Draws::new(seed);
    let scarcity = match draws.below(3) {
        0 => Scarcity::Never,
        times => Scarcity::OnceIn(10 * times, memory_limit),
    };
    run(alloc, draws, scarcity)
}

/// Runs the schedules of so many seeds, from the first one on, and gives how much was tried. Ends at the first seed in whose
/// schedule something is wrong. The first one is scheduled twice, at first with ample memory: then the stack has its depth, which
/// can't grow where no address space is left.
pub fn run_seeds(alloc: Global, first: u64, count: u64) -> Result<Counts, SeedFault> {
    let found = |seed: u64, fault: ScheduleFault| SeedFault { seed, fault };
    if let Err(fault) = run(alloc, Draws::new(first), Scarcity::Never) {
        return Err(found(first, fault));
    }
    let Ok(mut memory_limit) = MemoryLimit::new(alloc) else {
        return Err(found(first, ScheduleFault::Memory));
    };
    let mut counts = Counts::default();
    for place in 0..count {
        let seed = first.wrapping_add(place);
        match run_seed(alloc, &mut memory_limit, seed) {
            Ok(more) => counts.add(more),
            Err(fault) => return Err(found(seed, fault)),
        }
    }
    Ok(counts)
}
