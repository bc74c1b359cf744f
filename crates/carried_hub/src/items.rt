//! Whether two hubs have the same items for their railways.
ghost use Rattle.std.specs.Prelude.{◌≡◌, ◌↔◌, length, All, IfOk, IsTrue};
ghost use Rattle.taf_codes.specs.declared.code.Railway.{Railway};
ghost use Rattle.hub_model.specs.Histories.{state_of};
ghost use Rattle.carry_over.specs.Acknowledged.{unacknowledged};
ghost use Rattle.carried_hub.specs.Carried.{HaveSameItems, HasSameItems};

use hub_core::Hub;
use taf_codes::{Memory, Railway};
use taf_messages::ItemBody;

/// Whether each railway has the same unacknowledged items in both hubs, in the same order.
pub(crate) fn have_same_items(hub: &Hub, other: &Hub) -> Result<bool, Memory>
    ensures { IfOk result (λ same. IsTrue same
        → HaveSameItems (state_of hub.now) (state_of other.now)) }
{
    let railways = hub.railways()?;
    let others = other.railways()?;
    if !all_have_same_items(hub, other, &railways) {
        return Ok(false);
    }
    Ok(all_have_same_items(hub, other, &others))
}

// Whether each of these railways has.
fn all_have_same_items(hub: &Hub, other: &Hub, railways: &[Railway]) -> bool
    ensures { IsTrue result
        → All (HasSameItems (state_of hub.now) (state_of other.now)) railways.now }
{
    railways
        .iter()
        .all(|railway| has_same_items(hub, other, *railway))
}

// Whether the railway has.
fn has_same_items(hub: &Hub, other: &Hub, railway: Railway) -> bool
    ensures { IsTrue result → HasSameItems (state_of hub.now) (state_of other.now) railway }
{
    let count = unacknowledged_count(hub, railway);
    if count != unacknowledged_count(other, railway) {
        return false;
    }
    for i in 0..count {
        let Some(item) = hub.unacknowledged(railway, i) else {
            return false;
        };
        let Some(other_item) = other.unacknowledged(railway, i) else {
            return false;
        };
        if !is_same_body(item, other_item) {
            return false;
        }
    }
    true
}

/// How many items the railway has not acknowledged.
pub(crate) fn unacknowledged_count(hub: &Hub, railway: Railway) -> usize
    ensures { result ≡ length (unacknowledged (state_of hub.now) railway) }
{
    let acknowledged = hub.acknowledged(railway);
    hub.item_count(railway).saturating_sub(acknowledged) as usize
}

// Whether the two are the same, as `==` finds.
fn is_same_body(body: &ItemBody, other: &ItemBody) -> bool
    ensures { IsTrue result ↔ (body.now ≡ other.now) }
{
    body == other
}
