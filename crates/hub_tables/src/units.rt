//! Where the intermodal units are (4.2.11).
ghost use Rattle.std.specs.Prelude.{◌≡◌};
ghost use Rattle.hub_model.specs.Units as of;
ghost use Rattle.hub_tables.specs.TableStates.{table_state};

use crate::tables::Tables;
use taf_codes::UnitCode;
use taf_messages::Body;
use trip_plan::{Plan, UnitLoad};
use wagon_number::WagonNumber;

/// The units that a message loads.
pub fn units_in(says: &Body) -> &[UnitLoad]
    ensures { result.now ≡ of.units_in says.now }
{
    match says {
        Body::Plan(plan) => plan.units(),
        _ => &[],
    }
}

// The wagon that a plan loads the unit on.
fn loaded_on(plan: &Plan, unit: UnitCode) -> Option<WagonNumber>
    ensures { result ≡ of.loaded_on plan.now unit }
{
    plan.units()
        .iter()
        .find(|load| load.unit == unit)
        .map(|load| load.wagon)
}

impl Tables {
    /// The wagon of an intermodal unit: the one that the last accepted plan with the unit loads it on, while the wagon's
    /// journey begins with this plan. None where no plan loads the unit, and once its wagon has another plan.
    pub fn unit_wagon(&self, unit: UnitCode) -> Option<WagonNumber>
        ensures { result ≡ of.unit_wagon (table_state self.now) unit }
    {
        let plan = self.unit_plan(unit)?;
        self.wagon_by(plan, loaded_on(plan, unit))
    }

    // That wagon, if its journey begins with the plan.
    fn wagon_by(&self, plan: &Plan, wagon: Option<WagonNumber>) -> Option<WagonNumber>
        ensures { result ≡ of.wagon_by (table_state self.now).journey plan.now wagon }
    {
        let wagon = wagon?;
        match self.wagon(wagon) {
            Some(found) if found.is_on(plan) => Some(wagon),
            _ => None,
        }
    }
}
