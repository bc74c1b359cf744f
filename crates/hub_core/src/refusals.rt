//! New messages that are refused.
ghost use Rattle.std.specs.Prelude.{◌≡◌, Some};
ghost use Rattle.taf_messages.specs.declared.call.Call.TheVariants as call;
ghost use Rattle.hub_model.specs.Faults.{fault};
ghost use Rattle.hub_tables.specs.TableStates.{table_state};
ghost use Rattle.hub_core.specs.States.{Applies, IsNew, MayTake};

use crate::state::{State, enter_send};
use crate::verdicts::refusal_of;
use hub_model::Fault;
use std::alloc::Global;
use taf_codes::Memory;
use taf_messages::{Message, Reply, Shared, copy_reply};

/// Takes a new message that has a fault.
#[inline(never)]
pub(crate) fn refuse(
    alloc: Global,
    state: &mut State,
    message: Shared<Message>,
    found: Fault,
) -> Result<Reply, Memory>
    requires ready { MayTake state.old }
    requires new { IsNew state.old message }
    requires fault { fault (table_state state.old.tables) message ≡ Some found }
    ensures { Applies state.old state.new (call.Send message) result }
{
    let reply = refusal_of(alloc, message.get().no(), found)?;
    let reply_copy = copy_reply(&reply)?;
    state.history.reserve()?;
    enter_send(state, message, reply);
    Ok(reply_copy)
}
