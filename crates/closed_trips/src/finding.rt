//! Which trips are closed.
use crate::closed_names::ClosedNames;
use crate::groups::Groups;
use crate::name::Name;
use hub_core::Hub;
use seeded_state::SeededState;
use std::alloc::Global;
use taf_codes::{Memory, Railway};
use taf_messages::{Body, Call, ItemBody, Message, Stage};
use trip_plan::Plan;
use wagon_number::WagonNumber;

/// The names of the trips of a hub that are closed, in tables that hash so. Names that a message has together are of one trip. A trip
/// is closed once all its wagons are delivered, none of its offers is open, and all its items are acknowledged.
///
/// Nothing is promised of these names: [`are_closed`](crate::are_closed) tests them, and whoever carries a hub over compares the items.
pub fn find_closed_names(
    alloc: Global,
    hasher: SeededState,
    hub: &Hub,
) -> Result<ClosedNames, Memory> {
    let mut groups = Groups::new(alloc, hasher);
    add_messages(hub, &mut groups)?;
    mark_wagons(hub, &mut groups)?;
    mark_items(hub, &mut groups)?;
    groups.closed(alloc, hasher)
}

// Adds the names of all messages, and marks the offers that are open.
fn add_messages(hub: &Hub, groups: &mut Groups) -> Result<(), Memory> {
    for i in 0..hub.len() {
        if let Some(entry) = hub.entry(i) {
            if let Call::Send(message) = &entry.call {
                add_message(hub, groups, message.get())?;
            }
        }
    }
    Ok(())
}

fn add_message(hub: &Hub, groups: &mut Groups, message: &Message) -> Result<(), Memory> {
    let own = groups.add(Name::Message(message.by(), message.no()))?;
    match message.body() {
        Body::Plan(plan) => join_plan(groups, own, plan)?,
        Body::Movement(movement) => groups.join(own, Name::Wagon(movement.wagon))?,
        Body::EtiAsk { wagon } => groups.join(own, Name::Wagon(*wagon))?,
        Body::LegTime { wagon, .. } => groups.join(own, Name::Wagon(*wagon))?,
        Body::Reroute { wagon, .. } => groups.join(own, Name::Wagon(*wagon))?,
        Body::Offer(offer) => join_wagons(groups, own, offer.get().wagons.as_slice())?,
        Body::Answer(answer) => {
            let answer = answer.get();
            groups.join(own, Name::Message(answer.offerer, answer.offer))?;
            join_wagons(groups, own, answer.received.as_slice())?;
            join_wagons(groups, own, answer.refused.as_slice())?;
        }
        Body::Withdraw { offer, .. } => groups.join(own, Name::Message(message.by(), *offer))?,
    }
    if hub.is_open(message.by(), message.no()) {
        groups.mark_open(Name::Message(message.by(), message.no()));
    }
    Ok(())
}

fn join_plan(groups: &mut Groups, own: usize, plan: &Plan) -> Result<(), Memory> {
    groups.join(own, Name::Consignment(plan.consignment()))?;
    join_wagons(groups, own, plan.wagons())?;
    for load in plan.units() {
        groups.join(own, Name::Unit(load.unit))?;
        groups.join(own, Name::Wagon(load.wagon))?;
    }
    Ok(())
}

fn join_wagons(groups: &mut Groups, own: usize, wagons: &[WagonNumber]) -> Result<(), Memory> {
    for wagon in wagons {
        groups.join(own, Name::Wagon(*wagon))?;
    }
    Ok(())
}

// Marks the wagons that are not delivered.
fn mark_wagons(hub: &Hub, groups: &mut Groups) -> Result<(), Memory> {
    for i in 0..hub.wagon_count() {
        let part = hub.view_part(i, 1)?;
        for record in part.records() {
            if record.stage != Stage::Delivered {
                groups.mark_open(Name::Wagon(record.wagon));
            }
        }
    }
    Ok(())
}

// Marks what items are about that are not acknowledged.
fn mark_items(hub: &Hub, groups: &mut Groups) -> Result<(), Memory> {
    let railways = hub.railways()?;
    for railway in railways.as_slice() {
        mark_items_of(hub, groups, *railway);
    }
    Ok(())
}

fn mark_items_of(hub: &Hub, groups: &mut Groups, railway: Railway) {
    let count = hub
        .item_count(railway)
        .saturating_sub(hub.acknowledged(railway));
    for i in 0..count as usize {
        if let Some(item) = hub.unacknowledged(railway, i) {
            groups.mark_open(name_in(item));
        }
    }
}

// A name of the trip that an item is about.
fn name_in(item: &ItemBody) -> Name {
    match item {
        ItemBody::Notice(message) => Name::Message(message.get().by(), message.get().no()),
        ItemBody::Sub(notice) => Name::Message(notice.get().offerer, notice.get().offer),
        ItemBody::Eti { wagon, .. } => Name::Wagon(*wagon),
        ItemBody::Eta { wagon, .. } => Name::Wagon(*wagon),
        ItemBody::AlertBegins { wagon, .. } => Name::Wagon(*wagon),
        ItemBody::AlertEnds { wagon } => Name::Wagon(*wagon),
    }
}
