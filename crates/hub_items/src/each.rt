//! The notice of a message, for each railway that it concerns once.
ghost use Rattle.std.specs.Prelude.{◌≡◌, ◌∷◌, [], OnOk, flat_map, option_to_list};
ghost use Rattle.journey.specs.Legs.{lead_of};
ghost use Rattle.hub_model.specs.Items.{runners};
ghost use Rattle.hub_tables.specs.TableStates.{table_state};
ghost use Rattle.hub_items.specs.Notices.{has_item_for, with_notices};

use hub_model::AddressedItem;
use hub_tables::Tables;
use taf_codes::{Memory, Railway};
use taf_messages::{ItemBody, Message, Shared};
use trip_plan::Leg;
use wagon_number::WagonNumber;

/// Adds the notice of the message for the railway, unless an item of the list goes to it.
pub(crate) fn put_notice(
    items: &mut Vec<AddressedItem>,
    notice: &Shared<Message>,
    railway: Railway,
) -> Result<(), Memory>
    ensures { OnOk result (items.new.items
        ≡ with_notices notice.now (railway ∷ []) items.old.items) }
{
    if has_item_for(items, railway) {
        return Ok(());
    }
    let body = ItemBody::Notice(notice.clone()?);
    items.push(AddressedItem { to: railway, body })?;
    Ok(())
}

/// Whether an item of the list goes to the railway.
pub(crate) fn has_item_for(items: &[AddressedItem], railway: Railway) -> bool
    ensures { result ≡ has_item_for items.now railway }
{
    items.iter().any(|item| item.to == railway)
}

/// Adds it for the railway, if there is one.
pub(crate) fn put_notice_if_any(
    items: &mut Vec<AddressedItem>,
    notice: &Shared<Message>,
    railway: Option<Railway>,
) -> Result<(), Memory>
    ensures { OnOk result (items.new.items
        ≡ with_notices notice.now (option_to_list railway) items.old.items) }
{
    match railway {
        Some(railway) => put_notice(items, notice, railway),
        None => Ok(()),
    }
}

/// Adds it for the railways of these legs.
pub(crate) fn put_for_runners(
    items: &mut Vec<AddressedItem>,
    notice: &Shared<Message>,
    legs: &[Leg],
) -> Result<(), Memory>
    ensures { OnOk result (items.new.items
        ≡ with_notices notice.now (runners legs.now) items.old.items) }
{
    for leg in legs {
        put_notice(items, notice, leg.ru)?;
    }
    Ok(())
}

/// Adds it for the leads of those of these wagons that were planned.
pub(crate) fn put_for_leads(
    items: &mut Vec<AddressedItem>,
    notice: &Shared<Message>,
    tables: &Tables,
    wagons: &[WagonNumber],
) -> Result<(), Memory>
    ensures { OnOk result (items.new.items ≡ with_notices notice.now
        (flat_map (λ w. option_to_list (lead_of ((table_state tables.now).journey w))) wagons.now)
        items.old.items) }
{
    for wagon in wagons {
        put_notice_if_any(items, notice, lead_of(tables, *wagon))?;
    }
    Ok(())
}

// The lead of a wagon, if it was planned.
fn lead_of(tables: &Tables, wagon: WagonNumber) -> Option<Railway>
    ensures { result ≡ lead_of ((table_state tables.now).journey wagon) }
{
    match tables.wagon(wagon) {
        Some(found) => found.track().journey_state().lead,
        None => None,
    }
}
