//! The notices of a message, and the sub notice (4.2.8).
ghost use Rattle.std.specs.Prelude.{◌≡◌, ◌++◌, IfOk, OnOk, option_to_list};
ghost use Rattle.taf_messages.specs.declared.message.Body.TheVariants as body;
ghost use Rattle.hub_model.specs.HubState.{journey_after};
ghost use Rattle.hub_model.specs.Items as of;
ghost use Rattle.hub_items.specs.MessageItems.{MayBeAccepted, state_before};
ghost use Rattle.hub_items.specs.Notices.{with_notices};

use crate::acceptable::Acceptable;
use crate::each::{put_for_leads, put_for_runners, put_notice, put_notice_if_any};
use crate::receivers::{movement_receivers, withdrawal_receivers};
use crate::wagon_change::WagonChange;
use hub_model::AddressedItem;
use std::alloc::Global;
use taf_codes::{Memory, Railway};
use taf_messages::{Body, ItemBody, Message, Shared, SubNotice, TrainAnswer};
use trip_plan::Leg;

/// Adds the notices of a message, and the sub notice.
pub(crate) fn put_notices(
    alloc: Global,
    items: &mut Vec<AddressedItem>,
    from: Acceptable<'_>,
    notice: &Shared<Message>,
) -> Result<(), Memory>
    requires { MayBeAccepted from }
    ensures { let s = state_before from.entry in
        let m = from.entry.message.now in
        OnOk result (items.new.items ≡ with_notices notice.now
        (of.notice_receivers s (journey_after s m) m.by m.body) items.old.items
        ++ of.sub_items m.by m.body) }
{
    match from.message.body() {
        Body::LegTime { .. } => Ok(()),
        Body::Movement(movement) => {
            let change = WagonChange::alone(from, movement.wagon);
            let receiver = movement_receivers(&change, movement.what);
            Ok(put_notice_if_any(items, notice, receiver)?)
        }
        Body::EtiAsk { wagon } => {
            let change = WagonChange::alone(from, *wagon);
            Ok(put_notice_if_any(items, notice, change.responsible())?)
        }
        Body::Offer(offer) => Ok(put_notice(items, notice, offer.get().to)?),
        Body::Withdraw { offer, .. } => {
            let asked = withdrawal_receivers(from.tables, from.message.by(), *offer);
            Ok(put_notice_if_any(items, notice, asked)?)
        }
        Body::Plan(plan) => Ok(put_for_runners(items, notice, plan.legs())?),
        Body::Answer(answer) => put_of_answer(alloc, items, from, notice, answer.get()),
        Body::Reroute { wagon, route } => {
            let change = WagonChange::alone(from, *wagon);
            Ok(put_of_route(items, notice, &change, route.legs())?)
        }
    }
}

// Adds the notice of new legs: for the current leg's railway, and those of the legs taken away and set.
#[inline(never)]
#[tactic(auto, using(crate::proofs::NoticeLemmas::runner_listed))]
fn put_of_route(
    items: &mut Vec<AddressedItem>,
    notice: &Shared<Message>,
    change: &WagonChange<'_>,
    route: &[Leg],
) -> Result<(), Memory>
    ensures { OnOk result (items.new.items ≡ with_notices notice.now
        (of.route_receivers change.now.before route.now) items.old.items) }
{
    let current = change.leg_index_before();
    put_notice_if_any(items, notice, change.runner_before(current))?;
    put_for_runners(items, notice, &change.legs_before()[current + 1..])?;
    Ok(put_for_runners(items, notice, route)?)
}

// Adds the notices of an answer, for who made the offer and for the leads of the wagons, and the sub notice.
#[inline(never)]
fn put_of_answer(
    alloc: Global,
    items: &mut Vec<AddressedItem>,
    from: Acceptable<'_>,
    notice: &Shared<Message>,
    answer: &TrainAnswer,
) -> Result<(), Memory>
    requires acceptable { MayBeAccepted from }
    requires answer { from.message.now.body ≡ body.Answer answer.now }
    ensures { let s = state_before from.entry in
        let m = from.entry.message.now in
        OnOk result (items.new.items ≡ with_notices notice.now
        (of.notice_receivers s (journey_after s m) m.by m.body) items.old.items
        ++ of.sub_items m.by m.body) }
{
    put_notice(items, notice, answer.offerer)?;
    put_for_leads(items, notice, from.tables, answer.received.as_slice())?;
    put_for_leads(items, notice, from.tables, answer.refused.as_slice())?;
    Ok(put_sub_notice(alloc, items, from.message.by(), from.message.body())?)
}

// Adds the sub notice, if there is one.
fn put_sub_notice(
    alloc: Global,
    items: &mut Vec<AddressedItem>,
    by: Railway,
    says: &Body,
) -> Result<(), Memory>
    ensures { OnOk result (items.new.items ≡ items.old.items ++ of.sub_items by says.now) }
{
    if let Some(item) = sub_notice(alloc, by, says)? {
        items.push(item)?;
    }
    Ok(())
}

// The item for the manager, where a manager is named and a wagon was received.
fn sub_notice(alloc: Global, by: Railway, says: &Body) -> Result<Option<AddressedItem>, Memory>
    ensures { IfOk result (λ o. option_to_list o ≡ of.sub_items by says.now) }
{
    let Body::Answer(answer) = says else {
        return Ok(None);
    };
    let answer = answer.get();
    match answer.manager {
        Some(manager) if !answer.received.as_slice().is_empty() => {
            Ok(Some(sub_item(alloc, by, answer, manager)?))
        }
        _ => Ok(None),
    }
}

// The sub notice of an answer that received wagons.
fn sub_item(
    alloc: Global,
    by: Railway,
    answer: &TrainAnswer,
    manager: Railway,
) -> Result<AddressedItem, Memory>
    ensures { IfOk result (λ i. i ≡ of.sub_item by answer.now manager) }
{
    let sub = SubNotice {
        at: answer.at,
        from: by,
        offer: answer.offer,
        offerer: answer.offerer,
        wagons: answer.received.clone()?,
    };
    Ok(AddressedItem {
        to: manager,
        body: ItemBody::Sub(Shared::new(alloc, sub)?),
    })
}
