//! Whether what is left behind is closed.
ghost use Rattle.std.specs.Prelude.{◌≡◌, map, take, All, IfOk, IsTrue};
ghost use Rattle.hub_model.specs.Histories.{state_of};
ghost use Rattle.hub_model.specs.Laws.{IsSend};
ghost use Rattle.hub_model.specs.Replies.{records_of, view};
ghost use Rattle.carry_over.specs.Names.{Divide, IsOnOneSide};
ghost use Rattle.closed_trips.specs.ClosedNames.{names_but};
ghost use Rattle.closed_trips.specs.Closed.{AreClosed, StaysOrIsDelivered, StaysOrIsNotOpen};

use crate::closed_names::ClosedNames;
use crate::sides::is_on_one_side;
use hub_core::Hub;
use taf_codes::Memory;
use taf_messages::{Call, Message, Record, Stage};

/// Whether the names are those of closed trips: each message of the hub names things on one side alone, and of what is left behind
/// each wagon is delivered and no offer is open.
pub fn are_closed(hub: &Hub, names: &ClosedNames) -> Result<bool, Memory>
    ensures { IfOk result (λ closed. IsTrue closed → AreClosed (names_but names.now) (map (λ e. e.call) hub.now)) }
{
    hub.history_is_legal();
    Ok(are_messages_closed(hub, names) && are_wagons_delivered(hub, names)?)
}

// Whether each message is on one side, and none that is left behind is an open offer.
fn are_messages_closed(hub: &Hub, names: &ClosedNames) -> bool
    ensures divided { IsTrue result → Divide (names_but names.now) (map (λ e. e.call) hub.now) }
    ensures not_open { IsTrue result
        → All (IsSend (StaysOrIsNotOpen (names_but names.now) (state_of hub.now))) (map (λ e. e.call) hub.now) }
{
    for i in 0..hub.len() {
        let Some(entry) = hub.entry(i) else {
            unreachable!();
        };
        if !is_call_closed(hub, names, &entry.call) {
            return false;
        }
    }
    true
}

// Whether a call is no message, or one that is on one side and, if it is left behind, no open offer.
fn is_call_closed(hub: &Hub, names: &ClosedNames, call: &Call) -> bool
    ensures side { IsTrue result → IsSend (IsOnOneSide (names_but names.now)) call.now }
    ensures not_open { IsTrue result
        → IsSend (StaysOrIsNotOpen (names_but names.now) (state_of hub.now)) call.now }
{
    match call {
        Call::Send(message) => is_message_closed(hub, names, message.get()),
        _ => true,
    }
}

fn is_message_closed(hub: &Hub, names: &ClosedNames, message: &Message) -> bool
    ensures side { IsTrue result → IsOnOneSide (names_but names.now) message.now }
    ensures not_open { IsTrue result → StaysOrIsNotOpen (names_but names.now) (state_of hub.now) message.now }
{
    let (by, no) = (message.by(), message.no());
    is_on_one_side(names, message) && (names.keeps_message(by, no) || !hub.is_open(by, no))
}

// Whether each wagon that is left behind is delivered.
fn are_wagons_delivered(hub: &Hub, names: &ClosedNames) -> Result<bool, Memory>
    ensures { IfOk result (λ delivered. IsTrue delivered
        → All (StaysOrIsDelivered (names_but names.now)) (view (state_of hub.now))) }
{
    for i in 0..hub.wagon_count() {
        let part = hub.view_part(i, 1)?;
        if !are_delivered(names, part.records()) {
            return Ok(false);
        }
    }
    Ok(true)
}

fn are_delivered(names: &ClosedNames, records: &[Record]) -> bool
    ensures { IsTrue result → All (StaysOrIsDelivered (names_but names.now)) records.now }
{
    records.iter().all(|record| is_delivered(names, record))
}

fn is_delivered(names: &ClosedNames, shown: &Record) -> bool
    ensures { IsTrue result → StaysOrIsDelivered (names_but names.now) shown.now }
{
    names.keeps_wagon(shown.wagon) || shown.stage == Stage::Delivered
}
