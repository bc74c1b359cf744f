//! The records of planned wagons (4.2.11).
ghost use Rattle.std.specs.Prelude.{◌≡◌, ◌<◌, length, take, drop, slice_get, Some, IfOk};
ghost use Rattle.wimo.specs.Records.{record_of};
ghost use Rattle.wagon_number.specs.declared.number.WagonNumber.{WagonNumber};
ghost use Rattle.hub_model.specs.Replies as of;
ghost use Rattle.hub_tables.specs.TableStates.{table_state};

use hub_tables::Tables;
use std::alloc::Global;
use taf_codes::Memory;
use taf_messages::Record;

/// The records of planned wagons, in the order of their first plans: from this place of the order on, which is counted from
/// 0, and at most so many. The only error is that memory was refused.
pub fn view_part(
    alloc: Global,
    tables: &Tables,
    from: usize,
    most: usize,
) -> Result<Vec<Record>, Memory>
    ensures { let s = table_state tables.now in
        IfOk result (λ v. v.items ≡ of.records_of s (take most (drop from s.fleet))) }
{
    let count = tables.fleet_len().saturating_sub(from).min(most);
    let mut records = Vec::with_capacity(alloc, count)?;
    for i in 0..count {
        records.push(record_at(alloc, tables, from + i)?)?;
    }
    Ok(records)
}

// The record of the wagon at this place of the fleet, from 0.
fn record_at(alloc: Global, tables: &Tables, i: usize) -> Result<Record, Memory>
    requires { i < length (table_state tables.now).fleet }
    ensures { let s = table_state tables.now in
        IfOk result (λ r. (w : WagonNumber) → slice_get s.fleet i ≡ Some w
        → record_of w (s.journey w) ≡ Some r) }
{
    match tables.at(i) {
        Some((_, wagon)) => wimo::record_with(alloc, wagon.track(), &wagon.estimates()),
        None => unreachable!(),
    }
}
