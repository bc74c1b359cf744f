ghost use Rattle.std.specs.Prelude.{◌≡◌, ◌<◌, ◌≤◌, [], length, slice_get, option_copied, IfOk};
ghost use Rattle.trip_plan.specs.Trip.{Plans, IsPlan, broken_rule};

use crate::fault::PlanFault;
use crate::parts::{Leg, Load, UnitLoad};
use crate::rules;
use std::alloc::{AllocError, Global};
use std::marker::Model;
use std::sync::Arc;
use taf_codes::{ConsignmentId, Memory, Railway};
use taf_moment::Moment;
use wagon_number::WagonNumber;

/// What a plan is made of.
#[derive(Debug, Drop)]
pub struct PlanParts {
    pub lead: Railway,
    pub consignment: ConsignmentId,
    pub load: Load,
    /// The moment that was promised to the customer.
    pub commit: Moment,
    pub wagons: Vec<WagonNumber>,
    pub legs: Vec<Leg>,
    /// The intermodal units, and the wagons that they are loaded on.
    pub units: Vec<UnitLoad>,
}

/// A plan without a fault. Copies share what it says.
#[derive(Debug, Drop)]
pub struct Plan {
    parts: Arc<PlanParts>,
}

impl Model for Plan {
    ghost use Rattle.trip_plan.specs.Trip.{Trip};

    ghost Value = { Trip };

    ghost use Rattle.trip_plan.specs.Trip.{IsPlan};
    ghost use Rattle.trip_plan.specs.Making.{trip_of};

    ghost view = { λ a. trip_of a.parts.value };

    ghost invariant = { λ a. IsPlan (trip_of a.parts.value) };
}

impl Plan {
    ghost use Rattle.trip_plan.specs.Making.{trip_of};

    /// The plan of wagons without intermodal units.
    pub fn new(
        alloc: Global,
        lead: Railway,
        consignment: ConsignmentId,
        load: Load,
        wagons: &[WagonNumber],
        legs: &[Leg],
        commit: Moment,
    ) -> Result<Plan, PlanFault>
        ensures { Plans result
            (record {
              lead = lead;
              consignment = consignment;
              load = load;
              commit = commit;
              wagons
                  = wagons.now;
              legs = legs.now;
              units = [];
            }) }
    {
        Plan::with_units(alloc, lead, consignment, load, wagons, legs, &[], commit)
    }

    /// The plan of wagons on which these intermodal units are loaded.
    pub fn with_units(
        alloc: Global,
        lead: Railway,
        consignment: ConsignmentId,
        load: Load,
        wagons: &[WagonNumber],
        legs: &[Leg],
        units: &[UnitLoad],
        commit: Moment,
    ) -> Result<Plan, PlanFault>
        requires { length units.now ≤ 120 }
        ensures { Plans result
            (record {
              lead = lead;
              consignment = consignment;
              load = load;
              commit = commit;
              wagons
                  = wagons.now;
              legs = legs.now;
              units = units.now;
            }) }
    {
        if let Some(code) = broken_rule(wagons, legs, units) {
            return Err(PlanFault::BadPlan(code));
        }
        let parts = PlanParts {
            lead,
            consignment,
            load,
            commit,
            wagons: Vec::from_slice(alloc, wagons)?,
            legs: Vec::from_slice(alloc, legs)?,
            units: Vec::from_slice(alloc, units)?,
        };
        parts.share(alloc)
    }

    /// The plan with these parts, which are not copied.
    pub fn from_parts(alloc: Global, parts: PlanParts) -> Result<Plan, PlanFault>
        requires { length parts.units.items ≤ 120 }
        ensures { Plans result (trip_of parts) }
    {
        match broken_rule(&parts.wagons, &parts.legs, &parts.units) {
            Some(code) => Err(PlanFault::BadPlan(code)),
            None => parts.share(alloc),
        }
    }

    /// The lead railway undertaking.
    pub fn lead(&self) -> Railway
        ensures { result ≡ self.now.lead }
    {
        self.parts.lead
    }

    pub fn consignment(&self) -> ConsignmentId
        ensures { result ≡ self.now.consignment }
    {
        self.parts.consignment
    }

    pub fn load(&self) -> Load
        ensures { result ≡ self.now.load }
    {
        self.parts.load
    }

    /// The moment that was promised to the customer.
    pub fn commit(&self) -> Moment
        ensures { result ≡ self.now.commit }
    {
        self.parts.commit
    }

    /// The wagons in their order: 1 to 60, all different.
    pub fn wagons(&self) -> &[WagonNumber]
        ensures value { result.now ≡ self.now.wagons }
        ensures some { 0 < length result.now }
        ensures few { length result.now ≤ 60 }
    {
        self.parts.wagons.as_slice()
    }

    /// The legs in their order: 1 to 8.
    pub fn legs(&self) -> &[Leg]
        ensures value { result.now ≡ self.now.legs }
        ensures some { 0 < length result.now }
        ensures few { length result.now ≤ 8 }
    {
        self.parts.legs.as_slice()
    }

    /// The leg at this place, from 0 on.
    pub fn leg(&self, i: usize) -> Option<&Leg>
        ensures { option_copied result ≡ slice_get self.now.legs i }
    {
        self.parts.legs.get(i)
    }

    /// The intermodal units in their order: at most 120.
    pub fn units(&self) -> &[UnitLoad]
        ensures { result.now ≡ self.now.units }
    {
        self.parts.units.as_slice()
    }

    /// The same plan. It shares what the plan says.
    pub fn copy(&self) -> Result<Plan, Memory>
        ensures { IfOk result (λ copy. copy ≡ self.now) }
    {
        match Arc::try_clone(&self.parts) {
            Ok(parts) => Ok(Plan { parts }),
            Err(AllocError) => Err(Memory),
        }
    }
}

impl Clone for Plan {
    ghost is_clone = { λ a b. b ≡ a };

    fn clone(&self) -> Result<Plan, AllocError> {
        self.copy().map_err(|_| AllocError)
    }
}

impl PartialEq for Plan {
    ghost use Rattle.trip_plan.specs.Content.{same_plan};
    ghost use Rattle.trip_plan.specs.SameContent.{plans-is_equivalence};
    ghost use Rattle.std.specs.Cmp.{partial_equiv_from_equiv};

    ghost eq = { same_plan };

    ghost laws = { partial_equiv_from_equiv plans-is_equivalence };

    fn eq(&self, other: &Plan) -> bool {
        self.parts.same_terms(&other.parts) && self.parts.same_lists(&other.parts)
    }
}

impl Eq for Plan {
    ghost use Rattle.trip_plan.specs.SameContent.{plans-is_equivalence};

    ghost laws = { plans-is_equivalence };
}

impl PlanParts {
    ghost use Rattle.trip_plan.specs.Making.{trip_of};
    ghost use Rattle.trip_plan.specs.Content.{same_terms, same_lists};

    fn same_terms(&self, other: &PlanParts) -> bool
        ensures { result ≡ same_terms (trip_of self.now) (trip_of other.now) }
    {
        self.lead == other.lead
            && self.consignment == other.consignment
            && self.load == other.load
            && self.commit == other.commit
    }

    fn same_lists(&self, other: &PlanParts) -> bool
        ensures { result ≡ same_lists (trip_of self.now) (trip_of other.now) }
    {
        self.wagons == other.wagons && self.legs == other.legs && self.units == other.units
    }

    // The plan of parts that break no rule.
    fn share(self, alloc: Global) -> Result<Plan, PlanFault>
        requires { IsPlan (trip_of self) }
        ensures { Plans result (trip_of self) }
    {
        match Arc::new(alloc, self) {
            Ok(parts) => Ok(Plan { parts }),
            Err(_) => Err(PlanFault::Memory),
        }
    }
}

// The code of the first rule that the parts of a plan break.
fn broken_rule(wagons: &[WagonNumber], legs: &[Leg], units: &[UnitLoad]) -> Option<u8>
    ensures { result ≡ broken_rule wagons.now legs.now units.now }
{
    if legs.is_empty() || legs.len() > 8 {
        Some(1)
    } else if !rules::are_connected(legs) {
        Some(2)
    } else if !rules::change_railway(legs) {
        Some(3)
    } else if wagons.is_empty() || wagons.len() > 60 {
        Some(4)
    } else if !rules::all_differ(wagons) {
        Some(5)
    } else if !rules::take_time(legs) {
        Some(6)
    } else if !rules::units_differ(units) {
        Some(7)
    } else if !rules::are_aboard(wagons, units) {
        Some(8)
    } else {
        None
    }
}
