//! The items of an accepted message.
ghost use Rattle.std.specs.Prelude.{◌≡◌, [], OnOk, not, filter, bytes_eq};
ghost use Rattle.hub_model.specs.Items as of;
ghost use Rattle.hub_tables.specs.TableStates.{IsAcceptable};
ghost use Rattle.hub_tables.specs.Changes.{HasGoneOn, known_before};
ghost use Rattle.hub_items.specs.MessageItems.{MayBeAccepted, all_items, state_before};

use crate::acceptable::Acceptable;
use crate::each::has_item_for;
use crate::notices::put_notices;
use crate::wagons::put_of_wagons;
use hub_model::AddressedItem;
use hub_tables::{Change, Tables};
use std::alloc::Global;
use taf_codes::{Memory, Railway};
use taf_messages::{Message, Shared};

/// Puts what an acceptable message makes for the railways into the list, in order; nothing goes to its own sender. In the
/// tables the journeys of its wagons have gone on by it, with these changes. What the list had before is dropped, and its memory
/// is used again.
pub fn put_items(
    alloc: Global,
    items: &mut Vec<AddressedItem>,
    tables: &Tables,
    message: &Shared<Message>,
    changes: &[Change],
) -> Result<(), Memory>
    requires acceptable { IsAcceptable (known_before tables.now changes.now) message.now }
    requires gone_on { HasGoneOn (known_before tables.now changes.now) tables.now message.now
        changes.now }
    ensures { OnOk result (items.new.items
        ≡ of.items_of (known_before tables.now changes.now) message.now) }
{
    items.clear();
    let sent = message.get();
    let from = Acceptable {
        tables,
        message: sent,
        changes,
    };
    put_all(alloc, items, from, message)?;
    keep_others(items, sent.by());
    Ok(())
}

// Puts the items of an acceptable message into an empty list, with those for its own sender. Its notices share it.
fn put_all(
    alloc: Global,
    items: &mut Vec<AddressedItem>,
    from: Acceptable<'_>,
    notice: &Shared<Message>,
) -> Result<(), Memory>
    requires acceptable { MayBeAccepted from }
    requires notice { notice.now ≡ from.message.now }
    requires empty { items.old.items ≡ [] }
    ensures { OnOk result (items.new.items
        ≡ all_items (state_before from.entry) from.entry.message.now) }
{
    put_notices(alloc, items, from, notice)?;
    Ok(put_of_wagons(items, from)?)
}

// Takes the items for the sender out, where there are any.
fn keep_others(items: &mut Vec<AddressedItem>, sender: Railway)
    ensures { items.new.items ≡ filter (λ i. not (bytes_eq i.to sender)) items.old.items }
{
    if has_item_for(items, sender) {
        items.retain(|item| item.to != sender);
    }
}
