//! The wagons that a message counts with.
ghost use Rattle.std.specs.Prelude.{◌≡◌, [], ◌∷◌, ◌++◌};
ghost use Rattle.std.specs.List.{list_any};
ghost use Rattle.trip_plan.specs.Rules.{has};
ghost use Rattle.interchange.specs.Offers.{wagons_of};
ghost use Rattle.hub_model.specs.Overtaking.{affected_wagons, have_common_wagon};
ghost use Rattle.hub_tables.specs.TableStates.{table_state};

use hub_tables::{Tables, has};
use std::marker::Model;
use std::slice;
use taf_messages::{Body, Message, TrainAnswer};
use wagon_number::WagonNumber;

/// The wagons that a message names and, of an answer, those of its offer. It borrows them.
#[derive(Drop)]
pub(crate) struct AffectedWagons<'a> {
    named_wagons: &'a [WagonNumber],
    also_named: &'a [WagonNumber],
    offered: &'a [WagonNumber],
}

impl<'a> Model for AffectedWagons<'a> {
    ghost use Rattle.std.specs.Prelude.{List, ℕ, ◌++◌};

    ghost Value = { List ℕ };

    ghost view = { λ c. c.named_wagons.now ++ c.also_named.now ++ c.offered.now };
}

impl<'a> AffectedWagons<'a> {
    /// The wagons that the message counts with.
    pub(crate) fn of(tables: &'a Tables, message: &'a Message) -> AffectedWagons<'a>
        ensures { result ≡ affected_wagons (table_state tables.now) message.now message.now.body }
    {
        match message.body() {
            Body::Plan(plan) => AffectedWagons::listed(plan.wagons()),
            Body::Movement(movement) => AffectedWagons::one(&movement.wagon),
            Body::EtiAsk { wagon } => AffectedWagons::one(wagon),
            Body::LegTime { wagon, .. } => AffectedWagons::one(wagon),
            Body::Reroute { wagon, .. } => AffectedWagons::one(wagon),
            Body::Offer(offer) => AffectedWagons::listed(offer.get().wagons.as_slice()),
            Body::Answer(answer) => AffectedWagons::answered(tables, answer.get()),
            Body::Withdraw { offer, .. } => AffectedWagons::listed(tables.offered_wagons(
                message.by(),
                *offer,
            )),
        }
    }

    // The wagons of one list.
    fn listed(wagons: &'a [WagonNumber]) -> AffectedWagons<'a>
        ensures { result ≡ wagons.now }
    {
        AffectedWagons {
            named_wagons: wagons,
            also_named: &[],
            offered: &[],
        }
    }

    // The wagons of an answer, and those of the offer that it answers.
    fn answered(tables: &'a Tables, answer: &'a TrainAnswer) -> AffectedWagons<'a>
        ensures { result ≡ answer.now.received ++ answer.now.refused
            ++ wagons_of ((table_state tables.now).offer answer.now.offerer answer.now.offer) }
    {
        AffectedWagons {
            named_wagons: answer.received.as_slice(),
            also_named: answer.refused.as_slice(),
            offered: tables.offered_wagons(answer.offerer, answer.offer),
        }
    }

    // One wagon.
    fn one(wagon: &'a WagonNumber) -> AffectedWagons<'a>
        ensures { result ≡ wagon.now ∷ [] }
    {
        AffectedWagons::listed(slice::from_ref(wagon))
    }

    /// Whether the wagon is among them.
    pub(crate) fn has(&self, wagon: WagonNumber) -> bool
        ensures { result ≡ has self.now wagon }
    {
        has(self.named_wagons, wagon) || has(self.also_named, wagon) || has(self.offered, wagon)
    }

    /// Whether one of them is among the others.
    pub(crate) fn share_wagon_with(&self, others: &AffectedWagons) -> bool
        ensures { result ≡ have_common_wagon self.now others.now }
    {
        any_in(self.named_wagons, others)
            || any_in(self.also_named, others)
            || any_in(self.offered, others)
    }
}

// Whether one of these wagons is among the others.
fn any_in(wagons: &[WagonNumber], others: &AffectedWagons) -> bool
    ensures { result ≡ list_any (has others.now) wagons.now }
{
    wagons.iter().any(|wagon| others.has(*wagon))
}
