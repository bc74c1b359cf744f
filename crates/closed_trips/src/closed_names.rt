//! The names of closed trips.
ghost use Rattle.std.specs.Prelude.{◌≡◌, [], ◌∷◌, OnOk};
ghost use Rattle.closed_trips.specs.ClosedNames.{names_but};

use indexmap::IndexSet;
use seeded_state::SeededState;
use std::alloc::Global;
use std::marker::Model;
use taf_codes::{ConsignmentId, Memory, Railway, UnitCode};
use taf_messages::MessageNumber;
use wagon_number::WagonNumber;

/// The names of closed trips: of their wagons, consignments, intermodal units and messages. All other names stay: they are those of
/// `names_but`.
#[derive(Drop)]
pub struct ClosedNames {
    wagons: IndexSet<WagonNumber, SeededState>,
    consignments: IndexSet<ConsignmentId, SeededState>,
    units: IndexSet<UnitCode, SeededState>,
    messages: IndexSet<(Railway, MessageNumber), SeededState>,
}

impl Model for ClosedNames {
    ghost use Rattle.closed_trips.specs.ClosedNames.{ClosedNames};

    ghost Value = { ClosedNames };

    ghost view = { λ c. record {
      wagons = c.wagons.keys;
      consignments = c.consignments.keys;
      units = c.units.keys;
      messages = c.messages.keys;
    } };
}

impl ClosedNames {
    /// No name, in tables that hash so: all names stay. Takes no memory.
    pub fn new(alloc: Global, hasher: SeededState) -> ClosedNames
        ensures { result ≡ record { wagons = []; consignments = []; units = []; messages = [] } }
    {
        ClosedNames {
            wagons: IndexSet::with_hasher(alloc, hasher),
            consignments: IndexSet::with_hasher(alloc, hasher),
            units: IndexSet::with_hasher(alloc, hasher),
            messages: IndexSet::with_hasher(alloc, hasher),
        }
    }

    /// Whether the wagon stays.
    pub fn keeps_wagon(&self, wagon: WagonNumber) -> bool
        ensures { result ≡ (names_but self.now).wagon wagon }
    {
        !self.wagons.contains(&wagon)
    }

    /// Whether the consignment stays.
    pub fn keeps_consignment(&self, consignment: ConsignmentId) -> bool
        ensures { result ≡ (names_but self.now).consignment consignment }
    {
        !self.consignments.contains(&consignment)
    }

    /// Whether the intermodal unit stays.
    pub fn keeps_unit(&self, unit: UnitCode) -> bool
        ensures { result ≡ (names_but self.now).unit unit }
    {
        !self.units.contains(&unit)
    }

    /// Whether the message of this sender and number stays, and with it the offer that it makes.
    pub fn keeps_message(&self, by: Railway, no: MessageNumber) -> bool
        ensures { result ≡ (names_but self.now).message by no }
    {
        !self.messages.contains(&(by, no))
    }

    /// Adds a wagon.
    pub(crate) fn add_wagon(&mut self, wagon: WagonNumber) -> Result<(), Memory> {
        self.wagons.insert(wagon)?;
        Ok(())
    }

    /// Adds a consignment.
    pub(crate) fn add_consignment(&mut self, consignment: ConsignmentId) -> Result<(), Memory> {
        self.consignments.insert(consignment)?;
        Ok(())
    }

    /// Adds an intermodal unit.
    pub(crate) fn add_unit(&mut self, unit: UnitCode) -> Result<(), Memory> {
        self.units.insert(unit)?;
        Ok(())
    }

    /// Adds a message.
    pub(crate) fn add_message(&mut self, by: Railway, no: MessageNumber) -> Result<(), Memory> {
        self.messages.insert((by, no))?;
        Ok(())
    }
}
