ghost use Rattle.std.specs.Prelude.{◌≡◌, [], IfSome, IfNone, is_none, slice_get, Some, length, ◌≤◌};
ghost use Rattle.std.specs.Option.{option_copied};
ghost use Rattle.hub_model.specs.HubState.{new_state};
ghost use Rattle.hub_model.specs.Faults.{is_unknown};
ghost use Rattle.hub_tables.specs.TableStates.{table_state};

use crate::wagon::Wagon;
use indexmap::IndexMap;
use interchange::{Offer, Offers};
use seeded_state::SeededState;
use std::alloc::Global;
use std::marker::Model;
use taf_codes::{ConsignmentId, Railway, UnitCode};
use taf_messages::MessageNumber;
use trip_plan::Plan;
use wagon_number::WagonNumber;

/// What the hub looks up: wagons, plans and offers. All but [`Tables::take`] and [`Tables::complete`] take no memory.
#[derive(Drop)]
pub struct Tables {
    /// In the order of their first plans.
    pub(crate) wagons: IndexMap<WagonNumber, Wagon, SeededState>,
    pub(crate) plans: IndexMap<ConsignmentId, Plan, SeededState>,
    pub(crate) units: IndexMap<UnitCode, Plan, SeededState>,
    pub(crate) offers: Offers,
}

impl Model for Tables {
    ghost use Rattle.hub_tables.specs.TableStates.{TableEntries, AreJourneyEntries};

    ghost Value = { TableEntries };

    ghost view = { λ t. record {
      wagons = t.wagons.entries;
      plans = t.plans.entries;
      units = t.units.entries;
      offers = t.offers;
    } };

    ghost invariant = { λ t. AreJourneyEntries t.wagons.entries };
}

impl Tables {
    /// No wagon, no plan and no offer, in tables that hash so. Takes no memory.
    pub fn with_hasher(alloc: Global, hasher: SeededState) -> Tables
        ensures { table_state result ≡ new_state }
    {
        Tables {
            wagons: IndexMap::with_hasher(alloc, hasher),
            plans: IndexMap::with_hasher(alloc, hasher),
            units: IndexMap::with_hasher(alloc, hasher),
            offers: Offers::with_hasher(alloc, hasher),
        }
    }

    /// The wagon of this number with its journey, if an accepted plan names it.
    pub fn wagon(&self, wagon: WagonNumber) -> Option<&Wagon>
        ensures found { IfSome result (λ w. w.now
            ≡ record { wagon = wagon; events = (table_state self.now).journey wagon }) }
        ensures none { IfNone result ((table_state self.now).journey wagon ≡ []) }
        ensures known { is_unknown ((table_state self.now).journey wagon) ≡ is_none result }
    {
        self.wagons.get(&wagon)
    }

    /// The same wagon, with its position in the fleet.
    pub(crate) fn find(&self, wagon: WagonNumber) -> Option<(usize, &Wagon)>
        ensures position { IfSome result
            (λ p. slice_get (table_state self.now).fleet p.0 ≡ Some wagon) }
        ensures found { IfSome result (λ p. p.1.now
            ≡ record { wagon = wagon; events = (table_state self.now).journey wagon }) }
        ensures known { is_unknown ((table_state self.now).journey wagon) ≡ is_none result }
    {
        match self.wagons.get_full(&wagon) {
            Some((position, _, found)) => Some((position, found)),
            None => None,
        }
    }

    /// The accepted plan of a consignment.
    pub fn plan(&self, consignment: ConsignmentId) -> Option<&Plan>
        ensures { option_copied result ≡ (table_state self.now).plan_of consignment }
    {
        self.plans.get(&consignment)
    }

    /// The last accepted plan that loads the intermodal unit.
    pub fn unit_plan(&self, unit: UnitCode) -> Option<&Plan>
        ensures { option_copied result ≡ (table_state self.now).unit_plan unit }
    {
        self.units.get(&unit)
    }

    /// The accepted offer of this name.
    pub fn offer(&self, by: Railway, no: MessageNumber) -> Option<&Offer>
        ensures { option_copied result ≡ (table_state self.now).offer by no }
    {
        self.offers.find(by, no)
    }

    /// Whether there is an offer of this name that is neither answered nor withdrawn.
    pub fn is_open(&self, by: Railway, no: MessageNumber) -> bool
        ensures { result ≡ (table_state self.now).is_open by no }
    {
        self.offers.is_open(by, no)
    }

    /// How many wagons were planned, each counted once.
    pub fn fleet_len(&self) -> usize
        ensures { result ≡ length (table_state self.now).fleet }
    {
        self.wagons.len()
    }

    /// The wagon at this place of the fleet, from 0, in the order of first plans.
    pub fn at(&self, i: usize) -> Option<(WagonNumber, &Wagon)>
        ensures found { IfSome result (λ p. slice_get (table_state self.now).fleet i ≡ Some p.0) }
        ensures journey { IfSome result (λ p. p.1.now
            ≡ record { wagon = p.0; events = (table_state self.now).journey p.0 }) }
        ensures none { IfNone result (length (table_state self.now).fleet ≤ i) }
    {
        match self.wagons.get_index(i) {
            Some((number, wagon)) => Some((*number, wagon)),
            None => None,
        }
    }
}
