//! Who gets the notice of a movement, and that of a withdrawal.
ghost use Rattle.std.specs.Prelude.{◌≡◌, option_to_list};
ghost use Rattle.hub_model.specs.Common.{asked_by};
ghost use Rattle.hub_model.specs.Items as of;
ghost use Rattle.hub_tables.specs.TableStates.{table_state};

use crate::wagon_change::WagonChange;
use hub_tables::Tables;
use taf_codes::Railway;
use taf_messages::{MessageNumber, MovementKind};

/// Who gets the notice of a movement.
pub(crate) fn movement_receivers(change: &WagonChange<'_>, what: MovementKind) -> Option<Railway>
    ensures { option_to_list result ≡ of.movement_receivers change.now.after what }
{
    match what {
        MovementKind::Release => change.runner_after(0),
        MovementKind::Estimate => None,
        MovementKind::Departure
        | MovementKind::YardArrival { .. }
        | MovementKind::YardDeparture { .. }
        | MovementKind::Exception { .. }
        | MovementKind::Arrival
        | MovementKind::Delivery => change.lead(),
    }
}

/// Who gets the notice of a withdrawal: the railway that the offer asks.
pub(crate) fn withdrawal_receivers(
    tables: &Tables,
    by: Railway,
    offer: MessageNumber,
) -> Option<Railway>
    ensures { result ≡ asked_by ((table_state tables.now).offer by offer) }
{
    tables.offer(by, offer).map(|found| found.to)
}
