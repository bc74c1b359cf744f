//! How the tables take a plan and an offer: first all that may be refused memory, then steps that cannot fail.
ghost use Rattle.std.specs.Prelude.{◌≡◌, ◌≤◌, ℕ, IfOk, None, OnErr, OnOk, length, map, unwrap_or};
ghost use Rattle.std.specs.Map.{update_all};
ghost use Rattle.std.specs.Option.{option_or};
ghost use Rattle.indexmap.specs.IndexMap.{get, insert_all, spare};
ghost use Rattle.taf_codes.specs.declared.code.Railway.{Railway};
ghost use Rattle.taf_messages.specs.declared.message.Body.TheVariants as says;
ghost use Rattle.interchange.specs.OfferTable.{offer_of, is_standing};
ghost use Rattle.hub_model.specs.Updates.{offer_given, opening_given};
ghost use Rattle.hub_tables.specs.TableStates.{IsAcceptable, table_state};
ghost use Rattle.hub_tables.specs.Acceptance.{HasAccepted};

use crate::tables::Tables;
use indexmap::IndexMap;
use interchange::{Offer, Offers};
use seeded_state::SeededState;
use std::alloc::Global;
use std::hash::Hash;
use taf_codes::{Memory, UnitCode};
use taf_messages::{Message, TrainOffer};
use trip_plan::{Plan, UnitLoad};

impl Tables {
    /// A plan: its journeys begin, and it is found by its consignment and by its units.
    pub(crate) fn accept_plan(
        &mut self,
        alloc: Global,
        message: &Message,
        plan: &Plan,
    ) -> Result<(), Memory>
        requires acceptable { IsAcceptable (table_state self.old) message.now }
        requires plan { message.now.body ≡ says.Plan plan.now }
        ensures ok { OnOk result (HasAccepted (table_state self.old) self.new message.now) }
        ensures err { OnErr result (self.new ≡ self.old) }
    {
        let begun = self.begun(alloc, message, plan.wagons())?;
        let units = unit_plans(alloc, plan, plan.units())?;
        let copy = plan.copy()?;
        self.wagons.reserve(begun.len())?;
        self.plans.reserve(1)?;
        self.units.reserve(units.len())?;
        enter(&mut self.wagons, begun);
        let _before = self.plans.insert(plan.consignment(), copy).unwrap();
        enter(&mut self.units, units);
        Ok(())
    }
}

/// Makes the offer of a message, whose name is new. Where memory is refused, the offers stay.
pub(crate) fn accept_offer(
    offers: &mut Offers,
    message: &Message,
    offer: &TrainOffer,
) -> Result<(), Memory>
    requires new { offer_of offers.old message.now.by message.now.no ≡ None }
    requires offer { message.now.body ≡ says.Offer offer.now }
    ensures finds { OnOk result ((by : Railway) (n : ℕ) → offer_of offers.new by n
        ≡ option_or (offer_given message.now message.now.body by n) (offer_of offers.old by n)) }
    ensures opens { OnOk result ((by : Railway) (n : ℕ) → is_standing offers.new by n
        ≡ unwrap_or (opening_given message.now message.now.body by n)
        (is_standing offers.old by n)) }
    ensures err { OnErr result (offers.new.offers ≡ offers.old.offers) }
{
    let made = made_by(message, offer)?;
    offers.open_offer(made)
}

// Enters each value under its key, in turn. There has to be room for all.
fn enter<K: Eq + Hash + Drop, V: Drop>(
    table: &mut IndexMap<K, V, SeededState>,
    entries: Vec<(K, V)>,
)
    requires { length entries.items ≤ spare table.old }
    ensures entries { table.new.entries ≡ insert_all K.eq table.old.entries entries.items }
    ensures values { (key : K) → get K.eq table.new key
        ≡ update_all K.eq (get K.eq table.old) entries.items key }
{
    for (key, value) in entries {
        let _before = table.insert(key, value).unwrap();
    }
}

// Each unit with a copy of the plan.
fn unit_plans(
    alloc: Global,
    plan: &Plan,
    units: &[UnitLoad],
) -> Result<Vec<(UnitCode, Plan)>, Memory>
    ensures { IfOk result (λ v. v.items ≡ map (λ l. (l.unit, plan.now)) units.now) }
{
    let mut plans = Vec::with_capacity(alloc, units.len())?;
    for loaded in units {
        plans.push((loaded.unit, plan.copy()?))?;
    }
    Ok(plans)
}

// The offer that the message makes.
fn made_by(message: &Message, offer: &TrainOffer) -> Result<Offer, Memory>
    ensures { IfOk result (λ o. o
        ≡ record {
          by = message.now.by;
          no = message.now.no;
          to = offer.now.to;
          place
              = offer.now.place;
          wagons = offer.now.wagons;
        }) }
{
    Ok(Offer {
        by: message.by(),
        no: message.no(),
        to: offer.to,
        place: offer.place,
        wagons: offer.wagons.clone()?,
    })
}
