//! What may be wrong with a message as a whole.
ghost use Rattle.std.specs.Prelude.{◌≡◌, ℕ};
ghost use Rattle.taf_codes.specs.declared.code.Railway.{Railway};
ghost use Rattle.taf_messages.specs.declared.message.Body.TheVariants as body;
ghost use Rattle.hub_model.specs.Faults.{whole_fault};
ghost use Rattle.hub_tables.specs.TableStates.{table_state};

use crate::tables::Tables;
use taf_codes::Railway;
use taf_messages::{Body, MessageNumber, TrainAnswer, Why};
use trip_plan::Plan;

/// Why the message as a whole is refused, if it is.
pub(crate) fn whole_fault(tables: &Tables, by: Railway, says: &Body) -> Option<Why>
    ensures { result ≡ whole_fault (table_state tables.now) by says.now }
{
    match says {
        Body::Plan(plan) => plan_fault(tables, plan),
        Body::Answer(answer) => answer_fault(tables, by, answer.get()),
        Body::Withdraw { offer, .. } => withdraw_fault(tables, by, *offer),
        Body::Movement(_)
        | Body::EtiAsk { .. }
        | Body::LegTime { .. }
        | Body::Offer(_)
        | Body::Reroute { .. } => None,
    }
}

// A plan needs a consignment of its own.
fn plan_fault(tables: &Tables, plan: &Plan) -> Option<Why>
    ensures { (by : Railway) → result
        ≡ whole_fault (table_state tables.now) by (body.Plan plan.now) }
{
    if tables.plan(plan.consignment()).is_some() {
        Some(Why::ConsignmentTaken)
    } else {
        None
    }
}

// An answer needs an open offer to its sender, and all wagons of it.
fn answer_fault(tables: &Tables, by: Railway, answer: &TrainAnswer) -> Option<Why>
    ensures { result ≡ whole_fault (table_state tables.now) by (body.Answer answer.now) }
{
    let Some(offer) = tables.offer(answer.offerer, answer.offer) else {
        return Some(Why::UnknownOffer);
    };
    if offer.to != by {
        Some(Why::NotYours)
    } else if !tables.is_open(answer.offerer, answer.offer) {
        Some(Why::OfferClosed)
    } else if !offer.matches(&answer.received, &answer.refused) {
        Some(Why::ListsDiffer)
    } else {
        None
    }
}

// A withdrawal needs an open offer of its sender.
fn withdraw_fault(tables: &Tables, by: Railway, offer: MessageNumber) -> Option<Why>
    ensures { (at : ℕ) → result ≡ whole_fault (table_state tables.now) by (body.Withdraw at offer) }
{
    if tables.offer(by, offer).is_none() {
        Some(Why::UnknownOffer)
    } else if !tables.is_open(by, offer) {
        Some(Why::OfferClosed)
    } else {
        None
    }
}
