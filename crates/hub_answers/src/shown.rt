//! What a railway is shown of the fleet (4.2.11).
ghost use Rattle.std.specs.Prelude.{◌≡◌, ◌<◌, if◌then◌else◌, length, take, drop, slice_get, Some, None, IfOk};
ghost use Rattle.wagon_number.specs.declared.number.WagonNumber.{WagonNumber};
ghost use Rattle.wimo.specs.Records.{may_see};
ghost use Rattle.hub_answers.specs.Shown as shown;
ghost use Rattle.hub_tables.specs.TableStates.{table_state};

use hub_tables::{Tables, Wagon};
use std::alloc::Global;
use taf_codes::{Memory, Railway};
use taf_messages::{Listed, Record};
use trip_plan::Leg;
use wagon_number::WagonNumber;

/// A wagon as a railway is shown it: its record, and the legs of its journey in their order, with their minutes as they are now.
#[derive(Drop)]
pub struct ShownWagon {
    pub wimo: Record,
    pub legs: Listed<Leg>,
}

/// What a railway may see of planned wagons, in the order of their first plans: of at most so many wagons, from this place of the
/// order on, which is counted from 0. The only error is that memory was refused.
pub fn shown_part(
    alloc: Global,
    tables: &Tables,
    by: Railway,
    from: usize,
    most: usize,
) -> Result<Vec<ShownWagon>, Memory>
    ensures { let s = table_state tables.now in
        IfOk result (λ v. v.items ≡ shown.shown_to s by (take most (drop from s.fleet))) }
{
    let count = tables.fleet_len().saturating_sub(from).min(most);
    let mut wagons = Vec::new(alloc);
    for i in 0..count {
        if let Some(shown) = shown_at(alloc, tables, by, from + i)? {
            wagons.push(shown)?;
        }
    }
    Ok(wagons)
}

/// A wagon as a railway is shown it; `None` where it has no plan, or the railway may not see it. The only error is that memory was
/// refused.
pub fn shown_wagon(
    alloc: Global,
    tables: &Tables,
    by: Railway,
    wagon: WagonNumber,
) -> Result<Option<ShownWagon>, Memory>
    ensures { IfOk result (λ r. r ≡ shown.shown_of (table_state tables.now) by wagon) }
{
    match tables.wagon(wagon) {
        Some(wagon) => shown_if_seen(alloc, wagon, by),
        None => Ok(None),
    }
}

// A wagon of the tables, if the railway may see it.
fn shown_if_seen(alloc: Global, wagon: &Wagon, by: Railway) -> Result<Option<ShownWagon>, Memory>
    ensures { IfOk result (λ r. r ≡ (if may_see wagon.now.events by
        then shown.shown_wagon wagon.now.events wagon.now.wagon else None)) }
{
    if !wimo::may_see(wagon.track(), by) {
        return Ok(None);
    }
    let shown = with_legs(alloc, wagon)?;
    Ok(Some(shown))
}

// The wagon at this place of the fleet, if the railway may see it.
fn shown_at(
    alloc: Global,
    tables: &Tables,
    by: Railway,
    i: usize,
) -> Result<Option<ShownWagon>, Memory>
    requires { i < length (table_state tables.now).fleet }
    ensures { let s = table_state tables.now in IfOk result (λ r. (w : WagonNumber)
        → slice_get s.fleet i ≡ Some w → r ≡ shown.shown_of s by w) }
{
    match tables.at(i) {
        Some((_, wagon)) => shown_if_seen(alloc, wagon, by),
        None => unreachable!(),
    }
}

// The record of a wagon, beside its legs.
fn with_legs(alloc: Global, wagon: &Wagon) -> Result<ShownWagon, Memory>
    ensures { IfOk result
        (λ r. shown.shown_wagon wagon.now.events wagon.now.wagon ≡ Some r) }
{
    let wimo = wimo::record_with(alloc, wagon.track(), &wagon.estimates())?;
    let mut legs = Vec::new(alloc);
    legs.extend_from_slice(wagon.track().legs())?;
    let legs = Listed::from_vec(legs);
    Ok(ShownWagon { wimo, legs })
}
