//! Acknowledgements.
ghost use Rattle.taf_messages.specs.declared.call.Call.TheVariants as call;
ghost use Rattle.hub_core.specs.States.{Applies, MayTake};

use crate::state::{State, append_entry};
use hub_model::Entry;
use outbox::boxes_keep_the_lists;
use std::alloc::Global;
use taf_codes::{Memory, Railway};
use taf_messages::{Call, ItemNumber, Refusal, Reply, Shared, Why};

/// Takes an acknowledgement. The items up to its number are dropped.
pub(crate) fn apply_ack(
    alloc: Global,
    state: &mut State,
    by: Railway,
    item: ItemNumber,
) -> Result<Reply, Memory>
    requires ready { MayTake state.old }
    ensures { Applies state.old state.new (call.Ack by item) result }
{
    boxes_keep_the_lists();
    state.history.reserve()?;
    let call = Call::Ack { by, item };
    match state.outboxes.ack(by, item.get()) {
        Ok(stands) => {
            let reply = Reply::Acknowledged(stands);
            state.history.push_reserved(Entry { call, reply });
            Ok(Reply::Acknowledged(stands))
        }
        Err(ahead) => {
            let refusal = Refusal {
                no: None,
                why: Why::AckAhead,
                wagon: None,
                last: Some(ahead.last),
            };
            let reply = Reply::Refused(Shared::new(alloc, refusal)?);
            append_entry(state, call, reply)
        }
    }
}
