//! New messages that are accepted: first all that may be refused memory, then steps that cannot fail.
ghost use Rattle.std.specs.Prelude.{◌≡◌, ◌<◌, ◌^◌, length, OnErr, OnOk};
ghost use Rattle.taf_codes.specs.declared.code.Railway.{Railway};
ghost use Rattle.outbox.specs.OutboxStates.{outbox_state_of};
ghost use Rattle.taf_messages.specs.declared.call.Call.TheVariants as call;
ghost use Rattle.hub_model.specs.Items as of;
ghost use Rattle.hub_model.specs.Updates.{after_acceptance};
ghost use Rattle.hub_tables.specs.TableStates.{table_part, table_state, IsAcceptable};
ghost use Rattle.hub_tables.specs.Changes.{HasGoneOn};
ghost use Rattle.hub_core.specs.States.{Applies, IsNew, MayAccept, known_before_changes};
ghost use Rattle.hub_core.specs.Delivery.{AreReady};

use crate::delivery::{deliver, make_room_for};
use crate::state::{State, enter_send};
use hub_items::put_items;
use hub_model::items_and_events_are_bounded;
use memory_ahead::ask_ahead;
use outbox::boxes_keep_the_lists;
use std::alloc::Global;
use taf_codes::Memory;
use taf_messages::{Message, Reply, Shared};

// After so many calls the allocator is asked ahead for what the next ones take.
const CALLS_ASKED_FOR: usize = 4096;

// Makes the items of a message by which journeys have gone on, makes room for them and for one entry more, and completes what
// the message changes of the tables. Where memory is refused, nothing that is looked up changes.
fn prepare(alloc: Global, state: &mut State, message: &Shared<Message>) -> Result<(), Memory>
    requires acceptable { IsAcceptable (known_before_changes state.old) message.now }
    requires gone_on { HasGoneOn (known_before_changes state.old) state.old.tables message.now
        state.old.changes.items }
    ensures entries { state.new.history.entries ≡ state.old.history.entries }
    ensures seen { state.new.seen ≡ state.old.seen }
    ensures boxes { (r : Railway) → outbox_state_of state.new.outboxes r
        ≡ outbox_state_of state.old.outboxes r }
    ensures changes { state.new.changes.items ≡ state.old.changes.items }
    ensures items { OnOk result (state.new.items.items
        ≡ of.items_of (known_before_changes state.old) message.now) }
    ensures tables { OnOk result (table_state state.new.tables
        ≡ table_part (after_acceptance (known_before_changes state.old) message.now)) }
    ensures ready { OnOk result (AreReady state.new.outboxes (2 ^ 62)
        (length state.new.items.items) state.new.items.items) }
    ensures room { OnOk result (0 < state.new.history.spare) }
    ensures err { OnErr result (table_state state.new.tables ≡ table_state state.old.tables) }
{
    put_items(
        alloc,
        &mut state.items,
        &state.tables,
        message,
        &state.changes,
    )?;
    make_room_for(&mut state.outboxes, &state.items)?;
    state.history.reserve()?;
    state.tables.complete(alloc, message.get(), &state.changes)
}

/// Accepts a new message by which the journeys of its wagons have gone on: all that can be refused memory comes first, and then
/// what cannot. Where memory is refused, the journeys are taken back.
pub(crate) fn accept(
    alloc: Global,
    state: &mut State,
    message: Shared<Message>,
) -> Result<Reply, Memory>
    requires ready { MayAccept state.old }
    requires new { IsNew state.old message }
    requires acceptable { IsAcceptable (known_before_changes state.old) message }
    requires gone_on { HasGoneOn (known_before_changes state.old) state.old.tables message
        state.old.changes.items }
    ensures { Applies state.old state.new (call.Send message) result }
{
    boxes_keep_the_lists();
    items_and_events_are_bounded();
    if state.history.len() % CALLS_ASKED_FOR == 0 {
        ask_ahead(alloc);
    }
    if let Err(refused) = prepare(alloc, state, &message) {
        state.tables.take_back(&mut state.changes);
        return Err(refused);
    }
    deliver(&mut state.outboxes, &mut state.items);
    let no = message.get().no();
    enter_send(state, message, Reply::Accepted { no });
    Ok(Reply::Accepted { no })
}
