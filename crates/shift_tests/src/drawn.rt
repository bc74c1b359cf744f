//! Sessions and workers that take turns in an order that is drawn, and sessions that come and go.

use schedules::{Counts, run_seeds};
use std::test::Fail;

// The seeds are those from 1 to this.
const SEEDS: u64 = 200;

// Whether all that goes wrong in schedules did.
fn has_all(counts: Counts) -> bool {
    let ended_early = [
        counts.strangers,
        counts.broken,
        counts.broken_off,
        counts.returned,
    ];
    counts.full_lanes > 0 && counts.refusals > 0 && ended_early.iter().all(|count| *count > 0)
}

#[test]
fn drawn_orders_mean_lock_step(rt: HostRuntime) -> Result<(), Fail> {
    let counts = run_seeds(rt.alloc(), 1, SEEDS)?;
    assert!(rt; has_all(counts), "{counts}");
    Ok(())
}
