//! Copies of a plan of sixty wagons.

use crate::measured::Measured;
use crate::{samples, trips};
use anyhow::{Result, bail};
use std::alloc::Global;
use std::time::{Clock, Instant};
use trip_plan::Plan;
use wagon_number::WagonNumber;

fn wagon(alloc: Global, trip: u64) -> Result<WagonNumber> {
    let text = trips::wagon(alloc, trip)?;
    Ok(WagonNumber::read(&text)?)
}

fn sixty_wagons(alloc: Global) -> Result<Vec<WagonNumber>> {
    let mut wagons = Vec::new(alloc);
    for trip in 0..60u64 {
        wagons.push(wagon(alloc, trip)?)?;
    }
    Ok(wagons)
}

// A plan of sixty wagons on the legs of the sample.
fn long_plan(alloc: Global) -> Result<Plan> {
    let sample = samples::plan(alloc)?;
    let wagons = sixty_wagons(alloc)?;
    anew(alloc, &sample, wagons.as_slice())
}

// A plan as this one, with these wagons, in memory of its own.
fn anew(alloc: Global, plan: &Plan, wagons: &[WagonNumber]) -> Result<Plan> {
    Ok(Plan::new(
        alloc,
        plan.lead(),
        plan.consignment(),
        plan.load(),
        wagons,
        plan.legs(),
        plan.commit(),
    )?)
}

/// Copies that share what they hold, as the hub makes them.
pub(crate) fn shared(clock: &impl Clock, alloc: Global, count: u64) -> Result<Measured> {
    let plan = long_plan(alloc)?;
    let start = Instant::now(clock)?;
    for _ in 0..count {
        let copy = plan.copy()?;
        if copy.wagons().is_empty() {
            bail!("the copy has no wagons");
        }
    }
    Measured::since(clock, start, count)
}

/// The same plan made again, with its rules checked, in memory of its own.
pub(crate) fn made(clock: &impl Clock, alloc: Global, count: u64) -> Result<Measured> {
    let plan = long_plan(alloc)?;
    let start = Instant::now(clock)?;
    for _ in 0..count {
        let copy = anew(alloc, &plan, plan.wagons())?;
        if copy.wagons().is_empty() {
            bail!("the plan has no wagons");
        }
    }
    Measured::since(clock, start, count)
}
