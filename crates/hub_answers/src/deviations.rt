//! The wagons of a plan that are expected late (4.2.6).
ghost use Rattle.std.specs.Prelude.{◌≡◌, ◌&&◌, IfOk, None, if◌then◌else◌};
ghost use Rattle.eti_chain.specs.Estimates.{is_late};
ghost use Rattle.wimo.specs.Records.{record_of};
ghost use Rattle.hub_model.specs.Replies as of;
ghost use Rattle.hub_model.specs.Units.{is_on_plan};
ghost use Rattle.hub_tables.specs.TableStates.{table_state};

use crate::asking::refusal_reply;
use hub_tables::Tables;
use std::alloc::Global;
use taf_codes::{ConsignmentId, Memory, Railway};
use taf_messages::{Listed, Record, Reply, Shared, Why};
use trip_plan::Plan;
use wagon_number::WagonNumber;

/// The reply to a railway that asks for the deviations of a consignment. Its lead gets the records,
/// in the plan's order, of the wagons that are expected after what was promised to the customer and
/// whose journey begins with the plan; any other railway gets why it gets none. A refusal names no
/// wagon. The only error is that memory was refused.
pub fn deviation(
    alloc: Global,
    tables: &Tables,
    by: Railway,
    consignment: ConsignmentId,
) -> Result<Reply, Memory>
    ensures { let s = table_state tables.now in
        IfOk result (λ r. r ≡ of.deviation_reply s by (s.plan_of consignment)) }
{
    let Some(plan) = tables.plan(consignment) else {
        return refusal_reply(alloc, Why::UnknownConsignment, None);
    };
    if plan.lead() == by {
        let late = deviating_records(alloc, tables, plan)?;
        Ok(Reply::Many(Shared::new(alloc, Listed::from_vec(late))?))
    } else {
        refusal_reply(alloc, Why::NotYours, None)
    }
}

// The late wagons of the plan that are still on it, in the plan's order.
fn deviating_records(alloc: Global, tables: &Tables, plan: &Plan) -> Result<Vec<Record>, Memory>
    ensures { IfOk result (λ v. v.items ≡ of.deviating_records (table_state tables.now) plan.now) }
{
    let mut late = Vec::new(alloc);
    for wagon in plan.wagons() {
        if let Some(deviation) = deviating_record(alloc, tables, plan, *wagon)? {
            late.push(deviation)?;
        }
    }
    Ok(late)
}

// The record of the wagon, if it is late and still on the plan.
fn deviating_record(
    alloc: Global,
    tables: &Tables,
    plan: &Plan,
    wagon: WagonNumber,
) -> Result<Option<Record>, Memory>
    ensures { let events = (table_state tables.now).journey wagon in
        let deviates = is_late events && is_on_plan events plan.now in
        IfOk result (λ r. r ≡ (if deviates then record_of wagon events else None)) }
{
    match tables.wagon(wagon) {
        Some(found) if found.estimates().late() && found.is_on(plan) => {
            let shown = wimo::record_with(alloc, found.track(), &found.estimates())?;
            Ok(Some(shown))
        }
        _ => Ok(None),
    }
}
