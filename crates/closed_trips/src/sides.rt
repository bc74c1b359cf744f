//! On which side a message is.
ghost use Rattle.std.specs.Prelude.{◌≡◌, IsTrue};
ghost use Rattle.taf_codes.specs.declared.code.Railway.{Railway};
ghost use Rattle.carry_over.specs.Names.{IsOnOneSide};
ghost use Rattle.taf_messages.specs.declared.message.Body.TheVariants as body;
ghost use Rattle.closed_trips.specs.ClosedNames.{names_but};
ghost use Rattle.closed_trips.specs.Sides.{is_on, are_wagons_on, are_loads_on, is_body_on, is_on_one_side};

use crate::closed_names::ClosedNames;
use taf_codes::Railway;
use taf_messages::{Body, Message, TrainAnswer};
use trip_plan::{Plan, UnitLoad};
use wagon_number::WagonNumber;

/// Whether all that the message names stays, if the message does, and none of it if the message doesn't.
pub fn is_on_one_side(names: &ClosedNames, message: &Message) -> bool
    ensures test { result ≡ is_on_one_side (names_but names.now) message.now }
    ensures side { IsTrue result → IsOnOneSide (names_but names.now) message.now }
{
    let side = names.keeps_message(message.by(), message.no());
    is_body_on(names, side, message.by(), message.body())
}

// Whether all that the message of this sender names is on this side.
fn is_body_on(names: &ClosedNames, side: bool, by: Railway, body: &Body) -> bool
    ensures { result ≡ is_body_on (names_but names.now) side by body.now }
{
    match body {
        Body::Plan(plan) => is_plan_on(names, side, plan),
        Body::Movement(movement) => is_on(side, names.keeps_wagon(movement.wagon)),
        Body::EtiAsk { wagon } => is_on(side, names.keeps_wagon(*wagon)),
        Body::LegTime { wagon, .. } => is_on(side, names.keeps_wagon(*wagon)),
        Body::Offer(offer) => are_wagons_on(names, side, offer.get().wagons.as_slice()),
        Body::Answer(answer) => is_answer_on(names, side, answer.get()),
        Body::Withdraw { offer, .. } => is_on(side, names.keeps_message(by, *offer)),
        Body::Reroute { wagon, .. } => is_on(side, names.keeps_wagon(*wagon)),
    }
}

fn is_plan_on(names: &ClosedNames, side: bool, plan: &Plan) -> bool
    ensures { result ≡ is_body_on (names_but names.now) side plan.now.lead (body.Plan plan.now) }
{
    is_on(side, names.keeps_consignment(plan.consignment()))
        && are_wagons_on(names, side, plan.wagons())
        && are_loads_on(names, side, plan.units())
}

fn is_answer_on(names: &ClosedNames, side: bool, answer: &TrainAnswer) -> bool
    ensures { (by : Railway) → result ≡ is_body_on (names_but names.now) side by (body.Answer answer.now) }
{
    is_on(side, names.keeps_message(answer.offerer, answer.offer))
        && are_wagons_on(names, side, answer.received.as_slice())
        && are_wagons_on(names, side, answer.refused.as_slice())
}

fn are_wagons_on(names: &ClosedNames, side: bool, wagons: &[WagonNumber]) -> bool
    ensures { result ≡ are_wagons_on (names_but names.now) side wagons.now }
{
    wagons
        .iter()
        .all(|wagon| is_on(side, names.keeps_wagon(*wagon)))
}

fn are_loads_on(names: &ClosedNames, side: bool, loads: &[UnitLoad]) -> bool
    ensures { result ≡ are_loads_on (names_but names.now) side loads.now }
{
    loads.iter().all(|load| is_on(side, names.keeps_unit(load.unit))
        && is_on(side, names.keeps_wagon(load.wagon)))
}

// Whether what stays, or doesn't, is on this side.
fn is_on(side: bool, stays: bool) -> bool
    ensures { result ≡ is_on side stays }
{
    if side { stays } else { !stays }
}
