//! What each call does to the state.
ghost use Rattle.hub_core.specs.States.{Applies, MayTake};

use crate::ack::apply_ack;
use crate::ask::apply_question;
use crate::send::apply_send;
use crate::state::State;
use std::alloc::Global;
use taf_codes::Memory;
use taf_messages::{Call, Reply};

/// Takes a call, and gives the reply. Where memory is refused, nothing that is looked up changes.
#[inline(always)]
pub(crate) fn apply_call(alloc: Global, state: &mut State, call: Call) -> Result<Reply, Memory>
    requires ready { MayTake state.old }
    ensures { Applies state.old state.new call result }
{
    match call {
        Call::Send(message) => apply_send(alloc, state, message),
        Call::Ack { by, item } => apply_ack(alloc, state, by, item),
        Call::Ask { .. } | Call::AskUnit { .. } | Call::Deviation { .. } | Call::Fetch { .. } => {
            apply_question(alloc, state, call)
        }
    }
}
