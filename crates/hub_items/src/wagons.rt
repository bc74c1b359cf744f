//! The estimates and alerts of the wagons that a message names.
ghost use Rattle.std.specs.Prelude.{◌≡◌, ◌++◌, [], IfOk, OnOk, false, true, flat_map};
ghost use Rattle.trip_plan.specs.Rules.{has};
ghost use Rattle.taf_messages.specs.declared.message.Body.TheVariants as body;
ghost use Rattle.eti_chain.specs.Estimates.{is_late};
ghost use Rattle.hub_model.specs.HubState.{named_wagons};
ghost use Rattle.hub_tables.specs.TableStates.{continues_journeys, table_state};
ghost use Rattle.hub_items.specs.MessageItems.{MayBeAccepted, alerts_at, estimates_at, state_before};

use crate::acceptable::Acceptable;
use crate::alerts::put_alerts;
use crate::estimates::put_estimates;
use crate::wagon_change::WagonChange;
use hub_model::AddressedItem;
use hub_tables::Tables;
use taf_codes::Memory;
use taf_messages::{Body, ItemBody};
use trip_plan::Plan;
use wagon_number::WagonNumber;

/// Adds the estimates that are news, and then the alerts, of the wagons that the message names.
#[tactic(auto, using(crate::proofs::PlanLemmas::planned_none, crate::proofs::ChangeLemmas::continues_unless_plan))]
pub(crate) fn put_of_wagons(
    items: &mut Vec<AddressedItem>,
    from: Acceptable<'_>,
) -> Result<(), Memory>
    requires { MayBeAccepted from }
    ensures { let s = state_before from.entry in
        let m = from.entry.message.now in
        OnOk result (items.new.items ≡ items.old.items
        ++ (flat_map (estimates_at s m) (named_wagons s.offer m)
        ++ flat_map (alerts_at s m) (named_wagons s.offer m))) }
{
    if let Body::Plan(plan) = from.message.body() {
        return Ok(put_alert_ends(items, from, plan)?);
    }
    let may_alert = put_each_estimates(items, from)?;
    if may_alert {
        return Ok(put_each_alerts(items, from)?);
    }
    Ok(())
}

// The estimates of the wagons whose journeys went on. Gives whether an alert of a wagon may begin or end.
fn put_each_estimates(items: &mut Vec<AddressedItem>, from: Acceptable<'_>) -> Result<bool, Memory>
    requires acceptable { MayBeAccepted from }
    requires goes_on { continues_journeys from.message.now.body ≡ true }
    ensures put { let s = state_before from.entry in
        let m = from.entry.message.now in
        OnOk result (items.new.items ≡ items.old.items
        ++ flat_map (estimates_at s m) (named_wagons s.offer m)) }
    ensures kept { let s = state_before from.entry in
        let m = from.entry.message.now in
        IfOk result (λ may_alert. may_alert ≡ false
        → flat_map (alerts_at s m) (named_wagons s.offer m) ≡ []) }
{
    let mut may_alert = false;
    for change in from.changes {
        may_alert = put_estimates(items, &WagonChange::of(from, change))? | may_alert;
    }
    Ok(may_alert)
}

// Their alerts.
#[inline(never)]
fn put_each_alerts(items: &mut Vec<AddressedItem>, from: Acceptable<'_>) -> Result<(), Memory>
    requires acceptable { MayBeAccepted from }
    requires goes_on { continues_journeys from.message.now.body ≡ true }
    ensures { let s = state_before from.entry in
        let m = from.entry.message.now in
        OnOk result (items.new.items ≡ items.old.items
        ++ flat_map (alerts_at s m) (named_wagons s.offer m)) }
{
    for change in from.changes {
        put_alerts(items, &WagonChange::of(from, change))?;
    }
    Ok(())
}

// The alerts of the wagons that a message plans. It gives no estimate, and ends the alert of the journey before.
#[inline(never)]
fn put_alert_ends(
    items: &mut Vec<AddressedItem>,
    from: Acceptable<'_>,
    plan: &Plan,
) -> Result<(), Memory>
    requires acceptable { MayBeAccepted from }
    requires plan { from.message.now.body ≡ body.Plan plan.now }
    ensures { let s = state_before from.entry in
        let m = from.entry.message.now in
        OnOk result (items.new.items ≡ items.old.items
        ++ flat_map (alerts_at s m) (named_wagons s.offer m)) }
{
    for wagon in plan.wagons() {
        put_alert_end(items, from, plan, *wagon)?;
    }
    Ok(())
}

// Adds the end of the wagon's alert for the lead of the plan, where the wagon is late.
fn put_alert_end(
    items: &mut Vec<AddressedItem>,
    from: Acceptable<'_>,
    plan: &Plan,
    wagon: WagonNumber,
) -> Result<(), Memory>
    requires acceptable { MayBeAccepted from }
    requires plan { from.message.now.body ≡ body.Plan plan.now }
    requires is_named { has plan.now.wagons wagon ≡ true }
    ensures { OnOk result (items.new.items ≡ items.old.items
        ++ alerts_at (state_before from.entry) from.entry.message.now wagon) }
{
    if is_late(from.tables, wagon) {
        items.push(AddressedItem {
            to: plan.lead(),
            body: ItemBody::AlertEnds { wagon },
        })?;
    }
    Ok(())
}

// The wagon is expected after what was promised.
fn is_late(tables: &Tables, wagon: WagonNumber) -> bool
    ensures { result ≡ is_late ((table_state tables.now).journey wagon) }
{
    match tables.wagon(wagon) {
        Some(found) => found.estimates().late(),
        None => false,
    }
}
