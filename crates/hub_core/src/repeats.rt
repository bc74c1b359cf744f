//! Messages that were sent before.
ghost use Rattle.std.specs.Prelude.{◌≡◌, IfOk, Some};
ghost use Rattle.taf_messages.specs.declared.call.Call.TheVariants as call;
ghost use Rattle.replay_numbers.specs.SentPositions.{position_of};
ghost use Rattle.hub_model.specs.Histories.{answer};
ghost use Rattle.hub_core.specs.States.{Applies, IsConsistent, KeepsLimits, MayTake};

use crate::state::{State, append_entry};
use crate::verdicts::refusal_of;
use hub_model::Fault;
use std::alloc::Global;
use taf_codes::Memory;
use taf_messages::{Call, Message, Reply, Shared, Why, copy_reply, same};

// The reply to a message whose number its sender used before: the same reply again to the same
// message, and a refusal to another one.
fn repeat_reply(
    alloc: Global,
    state: &State,
    position: u64,
    message: &Message,
) -> Result<Reply, Memory>
    requires kept { IsConsistent state.now }
    requires sent_before { position_of state.now.seen message.now.by message.now.no
        ≡ Some position }
    ensures { IfOk result (λ r. r ≡ answer state.now.history.entries (call.Send message.now)) }
{
    let entry = match state.history.get(position as usize) {
        Some(entry) => entry,
        None => unreachable!(),
    };
    match &entry.call {
        Call::Send(first) => {
            if same(first.get(), message) {
                copy_reply(&entry.reply)
            } else {
                let reused = Fault {
                    why: Why::NumberReused,
                    wagon: None,
                };
                refusal_of(alloc, message.no(), reused)
            }
        }
        _ => unreachable!(),
    }
}

/// Takes a message whose number was used before: the same message gets the reply that it got then, another is refused.
#[inline(never)]
pub(crate) fn apply_repeat(
    alloc: Global,
    state: &mut State,
    position: u64,
    message: Shared<Message>,
) -> Result<Reply, Memory>
    requires ready { MayTake state.old }
    requires sent_before { position_of state.old.seen message.by message.no ≡ Some position }
    requires limits { KeepsLimits message }
    ensures { Applies state.old state.new (call.Send message) result }
{
    let reply = repeat_reply(alloc, state, position, message.get())?;
    append_entry(state, Call::Send(message), reply)
}
