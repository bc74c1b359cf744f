//! The wagons that are shown.
ghost use Rattle.std.specs.Prelude.{◌≡◌, IfOk};
ghost use Rattle.hub_model.specs.Histories.{state_of};
ghost use Rattle.board_file.specs.Files.{all_planned, seen_by};

use hub_answers::ShownWagon;
use hub_core::Hub;
use std::alloc::Global;
use taf_codes::{Memory, Railway};

/// What the railway may see, or with no railway all planned wagons, each with its record and its legs.
#[tactic(auto, using(std::proofs::lemmas::List::take_all))]
pub(crate) fn seen_by(
    alloc: Global,
    hub: &Hub,
    by: &Option<Railway>,
) -> Result<Vec<ShownWagon>, Memory>
    ensures { IfOk result (λ seen. seen.items ≡ seen_by (state_of hub.now) by.now) }
{
    match by {
        Some(by) => hub.shown_part(*by, 0, hub.wagon_count()),
        None => all_planned(alloc, hub),
    }
}

// All planned wagons, each as its lead may see it.
fn all_planned(alloc: Global, hub: &Hub) -> Result<Vec<ShownWagon>, Memory>
    ensures { IfOk result (λ seen. seen.items ≡ all_planned (state_of hub.now)) }
{
    let view = hub.view()?;
    let records = view.records();
    let mut seen = Vec::with_capacity(alloc, records.len())?;
    for record in records {
        if let Some(shown) = hub.shown_wagon(record.lead, record.wagon)? {
            seen.push(shown)?;
        }
    }
    Ok(seen)
}
