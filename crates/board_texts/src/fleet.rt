//! What is seen of the fleet, part by part.
ghost use Rattle.std.specs.Prelude.{◌≡◌, ◌++◌, map, IfOk, OnOk};
ghost use Rattle.board_texts.specs.Lines.{IsFleetSeen, summary};

use hub_answers::ShownWagon;
use hub_shared::{HubLooks, LookFault};
use std::alloc::Global;
use taf_codes::{Memory, Railway};
use taf_messages::Listed;

/// How many wagons are looked at at a time.
pub const PART: usize = 256;

// What a railway may see of so many wagons, in their order, part by part, each without its events.
pub(crate) fn fleet_seen<V: HubLooks>(
    alloc: Global,
    hub: &V,
    by: Railway,
    wagons: usize,
) -> Result<Vec<ShownWagon>, LookFault>
    ensures { IfOk result (λ seen. IsFleetSeen by wagons seen.items) }
{
    let mut seen = Vec::new(alloc);
    for part in 0..wagons.div_ceil(PART) {
        let shown = hub.fleet(by, part * PART, PART)?;
        add_summaries(alloc, &mut seen, shown)?;
    }
    Ok(seen)
}

// Adds the summaries of these wagons.
fn add_summaries(
    alloc: Global,
    seen: &mut Vec<ShownWagon>,
    shown: Vec<ShownWagon>,
) -> Result<(), Memory>
    ensures { OnOk result (seen.new.items ≡ seen.old.items ++ map summary shown.items) }
{
    for wagon in shown {
        seen.push(without_events(alloc, wagon))?;
    }
    Ok(())
}

// The wagon without the events of its record.
fn without_events(alloc: Global, wagon: ShownWagon) -> ShownWagon
    ensures { result ≡ summary wagon }
{
    let mut shown = wagon;
    shown.wimo.events = Listed::from_vec(Vec::new(alloc));
    shown
}
