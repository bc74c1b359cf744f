//! The hub's state: all that it keeps.
ghost use Rattle.std.specs.Prelude.{◌≡◌, ℕ, ◌<◌, [], ◌∷◌, ◌++◌, length, Some, if◌then◌else◌};
ghost use Rattle.taf_codes.specs.declared.code.Railway.{Railway};
ghost use Rattle.replay_numbers.specs.Names.{same_name};
ghost use Rattle.replay_numbers.specs.SentPositions.{position_of};
ghost use Rattle.hub_model.specs.Updates.{after};
ghost use Rattle.hub_model.specs.Histories.{answer, state_of};
ghost use Rattle.hub_core.specs.States.{Applies, IsConsistent, IsNew, MayTake, SendKeepsLimits, entry_of};

use history_pages::Pages;
use hub_model::{AddressedItem, Entry};
use hub_tables::{Change, Tables};
use outbox::Outboxes;
use replay_numbers::Seen;
use seeded_state::SeededState;
use std::alloc::Global;
use taf_codes::Memory;
use taf_messages::{Call, Message, Reply, Shared, copy_reply};

/// What the hub keeps: its history, the tables by which it looks things up, and lists that it uses again.
#[derive(Drop)]
pub(crate) struct State {
    pub history: Pages<Entry>,
    pub tables: Tables,
    pub seen: Seen,
    pub outboxes: Outboxes,
    // Of the message that is being taken: the changes of journeys, and the items. Between calls they mean nothing, and only the
    // memory of the lists is kept.
    pub changes: Vec<Change>,
    pub items: Vec<AddressedItem>,
}

impl State {
    /// The state of a hub that has taken no call, and whose tables hash so.
    pub fn with_hasher(alloc: Global, hasher: SeededState) -> State
        ensures history { result.history.entries ≡ [] }
        ensures kept { IsConsistent result }
    {
        State {
            history: Pages::new(alloc),
            tables: Tables::with_hasher(alloc, hasher),
            seen: Seen::with_hasher(alloc, hasher),
            outboxes: Outboxes::with_hasher(alloc, hasher),
            changes: Vec::new(alloc),
            items: Vec::new(alloc),
        }
    }
}

/// Enters a call with its answer, which changes nothing that is looked up. Gives the reply.
pub(crate) fn append_entry(state: &mut State, call: Call, reply: Reply) -> Result<Reply, Memory>
    requires ready { MayTake state.old }
    requires answered { reply ≡ answer state.old.history.entries call }
    requires quiet { after (state_of state.old.history.entries)
        (record { call = call; reply = reply }) ≡ state_of state.old.history.entries }
    requires limits { SendKeepsLimits call }
    ensures { Applies state.old state.new call result }
{
    let reply_copy = copy_reply(&reply)?;
    state.history.reserve()?;
    state.history.push_reserved(Entry { call, reply });
    Ok(reply_copy)
}

/// Enters a new message with its reply, and notes its name. There is room for both.
#[inline(always)]
pub(crate) fn enter_send(state: &mut State, message: Shared<Message>, reply: Reply)
    requires new { IsNew state.old message }
    requires few { length state.old.history.entries < 1000000 }
    requires room { 0 < state.old.history.spare }
    ensures entries { state.new.history.entries ≡ state.old.history.entries
        ++ entry_of (record { message = message; reply = reply }) ∷ [] }
    ensures seen { (by : Railway) (n : ℕ) → position_of state.new.seen by n
        ≡ (if same_name message.by message.no by n then Some (length state.old.history.entries)
        else position_of state.old.seen by n) }
    ensures tables { state.new.tables ≡ state.old.tables }
    ensures outboxes { state.new.outboxes ≡ state.old.outboxes }
{
    let content = message.get().content();
    let position = state.history.len() as u64;
    state.seen.note_reserved(content.by, content.no, position);
    let call = Call::Send(message);
    state.history.push_reserved(Entry { call, reply });
}
