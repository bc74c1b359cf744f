//! Messages: each is new, or was sent before.
ghost use Rattle.std.specs.Prelude.{None};
ghost use Rattle.taf_messages.specs.declared.call.Call.TheVariants as call;
ghost use Rattle.hub_core.specs.States.{Applies, IsNew, KeepsLimits, MayTake};

use crate::acceptance::accept;
use crate::refusals::refuse;
use crate::repeats::apply_repeat;
use crate::state::State;
use hub_model::{estimates_fit, offers_are_in_order};
use outbox::boxes_keep_the_lists;
use std::alloc::Global;
use taf_codes::Memory;
use taf_messages::{Body, Message, Reply, Shared};

// The moment that a message gives is of the calendar, as each `Moment` is, and its lists keep their limits, as each `Plan`,
// `OfferedWagons` and `Wagons` does.
fn note_limits(message: &Message)
    ensures { KeepsLimits message.now }
{
    if let Some(at) = message.body().moment() {
        let _minutes = at.minutes();
    }
    let _lengths = match message.body() {
        Body::Plan(plan) => (plan.legs().len(), plan.wagons().len()),
        Body::Offer(offer) => (0, offer.get().wagons.as_slice().len()),
        Body::Answer(answer) => {
            let answer = answer.get();
            (
                answer.received.as_slice().len(),
                answer.refused.as_slice().len(),
            )
        }
        _ => (0, 0),
    };
}

// Takes a message whose name is new.
fn apply_new(alloc: Global, state: &mut State, message: Shared<Message>) -> Result<Reply, Memory>
    requires ready { MayTake state.old }
    requires new { IsNew state.old message }
    ensures { Applies state.old state.new (call.Send message) result }
{
    boxes_keep_the_lists();
    estimates_fit();
    offers_are_in_order();
    match state.tables.take(alloc, message.get(), &mut state.changes)? {
        None => accept(alloc, state, message),
        Some(found) => refuse(alloc, state, message, found),
    }
}

/// Takes a message, new or sent before.
#[inline(always)]
pub(crate) fn apply_send(
    alloc: Global,
    state: &mut State,
    message: Shared<Message>,
) -> Result<Reply, Memory>
    requires ready { MayTake state.old }
    ensures { Applies state.old state.new (call.Send message) result }
{
    let sent = message.get();
    note_limits(sent);
    match state.seen.find_or_make_room(sent.by(), sent.no())? {
        Some(position) => apply_repeat(alloc, state, position, message),
        None => apply_new(alloc, state, message),
    }
}
