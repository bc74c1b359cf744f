//! Items on their way into the outboxes.
ghost use Rattle.std.specs.Prelude.{◌≡◌, ◌<◌, ◌^◌, length, OnOk};
ghost use Rattle.taf_codes.specs.declared.code.Railway.{Railway};
ghost use Rattle.outbox.specs.OutboxStates.{outbox_state_of, with_items};
ghost use Rattle.hub_model.specs.Items.{items_to};
ghost use Rattle.hub_core.specs.Delivery.{AreReady};

use hub_model::AddressedItem;
use outbox::Outboxes;
use taf_codes::Memory;

/// Makes room for these items in the boxes of their railways: in each for all of them, however they are spread. What is
/// kept in the boxes stays. Memory is answered also where a box had 2^62 items.
pub(crate) fn make_room_for(outboxes: &mut Outboxes, items: &[AddressedItem]) -> Result<(), Memory>
    ensures kept { (r : Railway) → outbox_state_of outboxes.new r ≡ outbox_state_of outboxes.old r }
    ensures ready { OnOk result (AreReady outboxes.new (2 ^ 62) (length items.now) items.now) }
{
    for item in items {
        outboxes.make_room(item.to, items.len())?;
    }
    Ok(())
}

/// Moves the items out of the list into the boxes of their railways. It takes no memory, and the list keeps its own.
pub(crate) fn deliver(outboxes: &mut Outboxes, items: &mut Vec<AddressedItem>)
    requires ready { AreReady outboxes.old (2 ^ 62) (length items.old.items) items.old.items }
    requires few { length items.old.items < 2 ^ 62 }
    ensures { (r : Railway) → outbox_state_of outboxes.new r
        ≡ with_items (outbox_state_of outboxes.old r) (items_to r items.old.items) }
{
    for item in items.drain(..) {
        let _number = outboxes.put(item.to, item.body);
    }
}
