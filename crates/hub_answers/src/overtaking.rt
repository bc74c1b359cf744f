//! Messages that may come in either order.
ghost use Rattle.std.specs.Prelude.{◌≡◌};
ghost use Rattle.std.specs.List.{list_any};
ghost use Rattle.trip_plan.specs.Rules.{loads};
ghost use Rattle.replay_numbers.specs.Names.{same_name};
ghost use Rattle.hub_model.specs.Overtaking as of;
ghost use Rattle.hub_tables.specs.TableStates.{table_state};

use crate::affected::AffectedWagons;
use hub_tables::{Tables, units_in};
use taf_codes::{ConsignmentId, Railway, UnitCode};
use taf_messages::{Body, Message, MessageNumber};
use trip_plan::UnitLoad;

/// Whether the two messages share no wagon, intermodal unit, consignment, offer or name, so that
/// they get the same replies in either order. An answer also counts with the wagons of its offer,
/// and any message with the units on its wagons. Takes no memory.
pub fn apart(tables: &Tables, first: &Message, second: &Message) -> bool
    ensures { result ≡ of.is_apart (table_state tables.now) first.now second.now }
{
    !AffectedWagons::of(tables, first).share_wagon_with(&AffectedWagons::of(tables, second))
        && !loads_affected(tables, first, second)
        && !loads_affected(tables, second, first)
        && !both_same(consignment_in(first.body()), consignment_in(second.body()))
        && !both_same(offer_named(first), offer_named(second))
        && !same_name(first, second)
}

// Whether the first message loads a unit that the second counts with.
fn loads_affected(tables: &Tables, first: &Message, second: &Message) -> bool
    ensures { result ≡ of.loads_affected (table_state tables.now) first.now second.now }
{
    any_affected(tables, second, units_in(first.body()))
}

// Whether the message counts with one of the units.
fn any_affected(tables: &Tables, message: &Message, loads: &[UnitLoad]) -> bool
    ensures { result ≡ list_any (λ l. of.affects_unit (table_state tables.now) message.now l.unit)
        loads.now }
{
    loads
        .iter()
        .any(|load| affects_unit(tables, message, load.unit))
}

// Whether the message loads the unit, or counts with the unit's wagon.
fn affects_unit(tables: &Tables, message: &Message, unit: UnitCode) -> bool
    ensures { result ≡ of.affects_unit (table_state tables.now) message.now unit }
{
    if loads(units_in(message.body()), unit) {
        return true;
    }
    match tables.unit_wagon(unit) {
        Some(wagon) => AffectedWagons::of(tables, message).has(wagon),
        None => false,
    }
}

// Whether the unit is among these loads.
fn loads(units: &[UnitLoad], unit: UnitCode) -> bool
    ensures { result ≡ loads units.now unit }
{
    units.iter().any(|load| load.unit == unit)
}

// The consignment of a plan.
fn consignment_in(body: &Body) -> Option<ConsignmentId>
    ensures { result ≡ of.consignment_in body.now }
{
    match body {
        Body::Plan(plan) => Some(plan.consignment()),
        _ => None,
    }
}

// The name of the offer that a message makes, answers or withdraws.
fn offer_named(message: &Message) -> Option<(Railway, MessageNumber)>
    ensures { result ≡ of.offer_named message.now message.now.body }
{
    match message.body() {
        Body::Offer(_) => Some((message.by(), message.no())),
        Body::Answer(answer) => Some((answer.get().offerer, answer.get().offer)),
        Body::Withdraw { offer, .. } => Some((message.by(), *offer)),
        _ => None,
    }
}

// Whether both are there, and are the same.
fn both_same<T: PartialEq + Copy>(first: Option<T>, second: Option<T>) -> bool
    ensures { result ≡ of.both_same T.eq first second }
{
    match (first, second) {
        (Some(one), Some(other)) => one == other,
        _ => false,
    }
}

// Whether the messages have the same name.
fn same_name(first: &Message, second: &Message) -> bool
    ensures { result ≡ same_name first.now.by first.now.no second.now.by second.now.no }
{
    first.by() == second.by() && first.no() == second.no()
}
