//! The estimates that are news (4.2.6).
ghost use Rattle.std.specs.Prelude.{◌≡◌, ◌++◌, ◌<◌, [], IfOk, OnOk, false, option_to_list};
ghost use Rattle.hub_model.specs.Items as of;
ghost use Rattle.eti_chain.specs.Estimates as chain;
ghost use Rattle.hub_items.specs.Transitions.{news_of};

use crate::wagon_change::WagonChange;
use hub_model::AddressedItem;
use taf_codes::Memory;
use taf_messages::{EstimateAt, ItemBody, LegIndex};
use taf_moment::Moment;

/// Adds the items of the estimates that are news; legs behind the wagon have none. Gives whether an alert may begin or end, which
/// is seen from the last estimates.
#[tactic(auto, using(crate::proofs::NewsLemmas::news_of_each, crate::proofs::NewsLemmas::no_alert_items))]
pub(crate) fn put_estimates(
    items: &mut Vec<AddressedItem>,
    change: &WagonChange<'_>,
) -> Result<bool, Memory>
    ensures put { OnOk result (items.new.items ≡ items.old.items
        ++ of.estimate_items change.now.before change.now.after change.now.wagon) }
    ensures kept { IfOk result (λ may_alert. may_alert ≡ false
        → of.alert_items change.now.before change.now.after change.now.wagon ≡ []) }
{
    if change.keeps_estimates() {
        return Ok(false);
    }
    let (before, after) = (change.estimates_before(), change.estimates_after());
    let first = change.leg_index_before().min(change.leg_index_after());
    let mut each_before = before.in_turn_from(first);
    let mut each_after = after.in_turn_from(first);
    let legs = change.leg_count();
    for leg in first..legs {
        let was = each_before.next_estimate();
        let at = each_after.next_estimate();
        put_of_leg(items, change, leg, was, at)?;
    }
    if change.legs_before().len() != legs {
        return Ok(true);
    }
    let was_late = before.is_late_with(each_before.eta());
    Ok(was_late != after.is_late_with(each_after.eta()))
}

// Adds the item of a leg's estimate, if there is one and it is news.
fn put_of_leg(
    items: &mut Vec<AddressedItem>,
    change: &WagonChange<'_>,
    leg: usize,
    was: Option<Moment>,
    at: Option<Moment>,
) -> Result<(), Memory>
    requires few { leg < 8 }
    requires before { was ≡ chain.estimate change.now.before leg }
    requires after { at ≡ chain.estimate change.now.after leg }
    ensures { OnOk result (items.new.items ≡ items.old.items ++ news_of change.now leg) }
{
    if let Some(item) = news_of_leg(change, leg, was, at) {
        items.push(item)?;
    }
    Ok(())
}

// The item of a leg's estimate, if there is one and it is news.
fn news_of_leg(
    change: &WagonChange<'_>,
    leg: usize,
    was: Option<Moment>,
    at: Option<Moment>,
) -> Option<AddressedItem>
    requires few { leg < 8 }
    requires before { was ≡ chain.estimate change.now.before leg }
    requires after { at ≡ chain.estimate change.now.after leg }
    ensures { option_to_list result ≡ news_of change.now leg }
{
    let at = at?;
    let leg = LegIndex::new(leg as u64)?;
    let estimate = EstimateAt { leg, at };
    if is_news(change, was, &estimate) {
        estimate_item(change, &estimate)
    } else {
        None
    }
}

// The estimate is not what it was, or the next leg has another railway, or there was or is no next leg.
fn is_news(change: &WagonChange<'_>, was: Option<Moment>, estimate: &EstimateAt) -> bool
    requires { was ≡ chain.estimate change.now.before estimate.now.leg }
    ensures { result ≡ of.is_news change.now.before change.now.after estimate.now }
{
    let next = estimate.leg.get() as usize + 1;
    was != Some(estimate.at) || change.runner_before(next) != change.runner_after(next)
}

// The estimate for the railway of the next leg, or of the last leg for the lead.
fn estimate_item(change: &WagonChange<'_>, estimate: &EstimateAt) -> Option<AddressedItem>
    ensures { option_to_list result
        ≡ of.estimate_item change.now.after change.now.wagon estimate.now }
{
    let wagon = change.wagon();
    let EstimateAt { leg, at } = *estimate;
    let next = leg.get() as usize + 1;
    if next == change.leg_count() {
        Some(AddressedItem {
            to: change.lead()?,
            body: ItemBody::Eta { wagon, at },
        })
    } else {
        Some(AddressedItem {
            to: change.runner_after(next)?,
            body: ItemBody::Eti { wagon, leg, at },
        })
    }
}
