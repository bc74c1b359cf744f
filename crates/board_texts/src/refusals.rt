//! Why calls were refused, part by part.
ghost use Rattle.std.specs.Prelude.{◌≡◌, ◌++◌, IfOk, OnOk};
ghost use Rattle.board_texts.specs.Lines.{AreRefusalsSeen};

use hub_shared::{HubLooks, LookFault};
use std::alloc::Global;
use taf_codes::Memory;
use taf_messages::Why;

// How many calls are looked at at a time.
const PART: usize = 8192;

/// Why calls were refused, those that were, of so many calls, in their order, part by part.
pub fn refusals_seen<V: HubLooks>(
    alloc: Global,
    hub: &V,
    calls: usize,
) -> Result<Vec<Why>, LookFault>
    ensures { IfOk result (λ whys. AreRefusalsSeen calls whys.items) }
{
    let mut seen = Vec::new(alloc);
    for part in 0..calls.div_ceil(PART) {
        let whys = hub.refusals(alloc, part * PART, PART)?;
        add_all(&mut seen, whys.as_slice())?;
    }
    Ok(seen)
}

// Adds these reasons.
fn add_all(seen: &mut Vec<Why>, whys: &[Why]) -> Result<(), Memory>
    ensures { OnOk result (seen.new.items ≡ seen.old.items ++ whys.now) }
{
    Ok(seen.extend_from_slice(whys)?)
}
