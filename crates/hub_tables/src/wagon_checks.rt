//! What may be wrong with one wagon that a message names.
ghost use Rattle.std.specs.Prelude.{◌≡◌, ◌&&◌, ◌++◌, ◌∷◌, [], None, Some, not, if◌then◌else◌};
ghost use Rattle.std.specs.List.{find};
ghost use Rattle.std.specs.Option.{option_or};
ghost use Rattle.journey.specs.Stages as stages;
ghost use Rattle.journey.specs.Checks.{refusal};
ghost use Rattle.eti_chain.specs.Estimates as estimates;
ghost use Rattle.hub_model.specs.Faults.{is_busy};
ghost use Rattle.hub_tables.specs.TableStates.{table_state};

use crate::tables::Tables;
use crate::wagon::Wagon;
use journey::{Event, EventBody};
use taf_messages::{MovementKind, Why};
use wagon_number::WagonNumber;

/// The first of a plan's wagons that is busy: a wagon is planned anew once it is delivered.
pub(crate) fn first_busy(tables: &Tables, wagons: &[WagonNumber]) -> Option<WagonNumber>
    ensures { result ≡ find (λ w. is_busy ((table_state tables.now).journey w)) wagons.now }
{
    for wagon in wagons {
        if is_busy(tables, *wagon) {
            return Some(*wagon);
        }
    }
    None
}

// It has a journey without delivery.
fn is_busy(tables: &Tables, wagon: WagonNumber) -> bool
    ensures { result ≡ is_busy ((table_state tables.now).journey wagon) }
{
    match tables.wagon(wagon) {
        Some(found) => !found.track().journey_state().is_delivered,
        None => false,
    }
}

/// Whether the wagon was delivered.
pub(crate) fn is_delivered(tables: &Tables, wagon: WagonNumber) -> bool
    ensures { result ≡ stages.is_delivered ((table_state tables.now).journey wagon) }
{
    match tables.wagon(wagon) {
        Some(found) => found.track().journey_state().is_delivered,
        None => false,
    }
}

/// Why a wagon that is known may not have the event: by its own events, or since an estimate would pass the calendar.
#[inline(always)]
pub(crate) fn event_fault(wagon: &Wagon, event: &Event) -> Option<Why>
    ensures { result ≡ option_or (refusal wagon.now.events event.now.by event.now.body)
        (if estimates.is_calendar_checked event.now.body && not
        (estimates.fits (wagon.now.events ++ event.now ∷ [])) then Some Why.BeyondCalendar
        else None) }
{
    match wagon.track().admits(event) {
        Some(why) => Some(why),
        None if is_beyond(wagon, event) => Some(Why::BeyondCalendar),
        None => None,
    }
}

// With the event, which its journey admits, an estimate of the wagon would pass the calendar.
fn is_beyond(wagon: &Wagon, event: &Event) -> bool
    requires { refusal wagon.now.events event.now.by event.now.body ≡ None }
    ensures { result ≡ (estimates.is_calendar_checked event.now.body && not
        (estimates.fits (wagon.now.events ++ event.now ∷ []))) }
{
    is_calendar_checked(&event.body) && wagon.estimates().would_pass_calendar(wagon.track(), event)
}

// An event that is refused where it would make an estimate pass the calendar.
fn is_calendar_checked(says: &EventBody) -> bool
    ensures { result ≡ estimates.is_calendar_checked says.now }
{
    match says {
        EventBody::Moved(what) => is_checked_movement(*what),
        EventBody::LegTimed { .. } | EventBody::Answered { .. } | EventBody::Rerouted(_) => true,
        EventBody::Planned(_)
        | EventBody::EstimateAsked
        | EventBody::Offered { .. }
        | EventBody::Withdrawn { .. } => false,
    }
}

// The same of a movement.
fn is_checked_movement(what: MovementKind) -> bool
    ensures { result ≡ estimates.is_calendar_checked (EventBody.Moved what) }
{
    matches!(
        what,
        MovementKind::Release
            | MovementKind::Departure
            | MovementKind::Exception { .. }
            | MovementKind::Estimate
    )
}
