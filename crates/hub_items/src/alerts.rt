//! The alerts of wagons that are late.
ghost use Rattle.std.specs.Prelude.{◌≡◌, ◌++◌, OnOk, map, option_to_list};
ghost use Rattle.hub_model.specs.Items as of;
ghost use Rattle.journey.specs.Legs.{lead_of};

use crate::wagon_change::WagonChange;
use hub_model::AddressedItem;
use taf_codes::{Memory, Railway};
use taf_messages::ItemBody;

/// Adds the items of the alert that begins or ends with the event, if one does.
pub(crate) fn put_alerts(
    items: &mut Vec<AddressedItem>,
    change: &WagonChange<'_>,
) -> Result<(), Memory>
    ensures { OnOk result (items.new.items ≡ items.old.items
        ++ of.alert_items change.now.before change.now.after change.now.wagon) }
{
    if let Some(says) = alert(change) {
        put_to(items, &says, change.lead())?;
        put_to(items, &says, also_alerted(change))?;
    }
    Ok(())
}

// Adds the item for the railway, if there is one.
fn put_to(
    items: &mut Vec<AddressedItem>,
    says: &ItemBody,
    railway: Option<Railway>,
) -> Result<(), Memory>
    ensures { OnOk result (items.new.items ≡ items.old.items
        ++ map (λ r. record { to = r; body = says.now }) (option_to_list railway)) }
{
    if let Some(to) = railway {
        let body = says.clone()?;
        items.push(AddressedItem { to, body })?;
    }
    Ok(())
}

// An alert begins or ends, or neither.
fn alert(change: &WagonChange<'_>) -> Option<ItemBody>
    ensures { result ≡ of.alert change.now.before change.now.after change.now.wagon }
{
    let wagon = change.wagon();
    let was_late = change.estimates_before().late();
    match change.estimates_after().late_by() {
        Some(_) if was_late => None,
        Some(late_by) => Some(ItemBody::AlertBegins { wagon, late_by }),
        None if was_late => Some(ItemBody::AlertEnds { wagon }),
        None => None,
    }
}

// Who is alerted beside the lead: the railway that answers for the wagon, if it is another one.
fn also_alerted(change: &WagonChange<'_>) -> Option<Railway>
    ensures { option_to_list (lead_of change.now.after) ++ option_to_list result
        ≡ of.alert_receivers change.now.after }
{
    match (change.lead(), change.responsible()) {
        (Some(lead), Some(responsible)) => (responsible != lead).then_some(responsible),
        (None, responsible) => responsible,
        (_, None) => None,
    }
}
