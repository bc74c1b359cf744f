//! Questions: they change nothing that is looked up.
ghost use Rattle.std.specs.Prelude.{◌≡◌, IfOk, true};
ghost use Rattle.hub_model.specs.Histories.{answer};
ghost use Rattle.hub_core.specs.Questions.{is_question};
ghost use Rattle.hub_core.specs.States.{Applies, IsConsistent, MayTake};

use crate::state::{State, append_entry};
use hub_answers::{ask, ask_unit, deviation};
use outbox::boxes_keep_the_lists;
use std::alloc::Global;
use taf_codes::Memory;
use taf_messages::{Call, Reply, Shared};

/// Takes a question: it is entered with its reply.
#[inline(never)]
pub(crate) fn apply_question(alloc: Global, state: &mut State, call: Call) -> Result<Reply, Memory>
    requires ready { MayTake state.old }
    requires question { is_question call ≡ true }
    ensures { Applies state.old state.new call result }
{
    let reply = reply_to(alloc, state, &call)?;
    append_entry(state, call, reply)
}

// The reply to a question.
fn reply_to(alloc: Global, state: &State, call: &Call) -> Result<Reply, Memory>
    requires kept { IsConsistent state.now }
    requires question { is_question call.now ≡ true }
    ensures { IfOk result (λ r. r ≡ answer state.now.history.entries call.now) }
{
    match call {
        Call::Ask { by, wagon } => ask(alloc, &state.tables, *by, *wagon),
        Call::AskUnit { by, unit } => ask_unit(alloc, &state.tables, *by, *unit),
        Call::Deviation { by, consignment } => deviation(alloc, &state.tables, *by, *consignment),
        Call::Fetch { by, limit } => {
            boxes_keep_the_lists();
            let items = state.outboxes.fetch(*by, *limit)?;
            Ok(Reply::Items(Shared::new(alloc, items)?))
        }
        Call::Send(_) | Call::Ack { .. } => unreachable!(),
    }
}
