//! Wagons and intermodal units of a plan that are busy (4.2.11).
ghost use Rattle.std.specs.Prelude.{◌≡◌, None};
ghost use Rattle.taf_messages.specs.declared.message.Body.TheVariants as says;
ghost use Rattle.hub_model.specs.Units as of;
ghost use Rattle.hub_model.specs.Faults.{fault, unit_fault, whole_fault};
ghost use Rattle.hub_tables.specs.TableStates.{table_state};

use crate::tables::Tables;
use crate::wagon_checks::{first_busy, is_delivered};
use hub_model::Fault;
use taf_codes::UnitCode;
use taf_messages::{Message, Why};
use trip_plan::{Plan, UnitLoad};

/// Why a plan that is not refused as a whole is refused: its first wagon that is busy, or else its first unit.
#[inline(never)]
pub(crate) fn busy_fault(tables: &Tables, message: &Message, plan: &Plan) -> Option<Fault>
    requires whole { whole_fault (table_state tables.now) message.now.by message.now.body ≡ None }
    requires plan { message.now.body ≡ says.Plan plan.now }
    ensures { fault (table_state tables.now) message.now ≡ result }
{
    let _message = message;
    match first_busy(tables, plan.wagons()) {
        Some(wagon) => Some(Fault {
            why: Why::WagonBusy,
            wagon: Some(wagon),
        }),
        None => unit_fault(tables, plan.units()),
    }
}

// The first unit that is busy, at the wagon that it is to be loaded on.
fn unit_fault(tables: &Tables, units: &[UnitLoad]) -> Option<Fault>
    ensures { result ≡ unit_fault (table_state tables.now) units.now }
{
    for load in units {
        if is_unit_busy(tables, load.unit) {
            return Some(Fault {
                why: Why::UnitBusy,
                wagon: Some(load.wagon),
            });
        }
    }
    None
}

// It has a wagon whose journey has no delivery.
fn is_unit_busy(tables: &Tables, unit: UnitCode) -> bool
    ensures { result ≡ of.is_unit_busy (table_state tables.now) unit }
{
    match tables.unit_wagon(unit) {
        Some(wagon) => !is_delivered(tables, wagon),
        None => false,
    }
}
