ghost use Rattle.std.specs.Prelude.{◌≡◌, ◌<◌, ◌≤◌, ◌+◌, ◌^◌, bytes_eq, true, Some, IfOk};
ghost use Rattle.std.specs.List.{list_any};
ghost use Rattle.journey.specs.Checks.{is_lead};
ghost use Rattle.journey.specs.Legs.{HasRoom, HaveRoom};
ghost use Rattle.journey.specs.JourneyStates.{journey_state};
ghost use Rattle.eti_chain.specs.EstimateStates.{estimates_state};
ghost use Rattle.eti_chain.specs.Estimates as of;
ghost use Rattle.wimo.specs.Records as records;

use eti_chain::Estimates;
use journey::{Event, EventBody, Track};
use std::alloc::{AllocError, Global};
use taf_codes::{Memory, Railway};
use taf_messages::{
    EstimateAt, EstimateList, LegIndex, Listed, Record, RecordEvent, RecordEventKind, RecordEvents,
    Stage, Status, Units,
};
use trip_plan::{Leg, Load, UnitLoad};
use wagon_number::WagonNumber;

/// What is shown of a wagon: its record, from its track, of which no estimate passes the calendar. It walks the events
/// for the estimates; [`record_with`] is for a caller that has them.
pub fn record_of(alloc: Global, track: &Track) -> Result<Record, Memory>
    requires { of.fits track.now.events ≡ true }
    ensures { IfOk result (λ r. records.record_of track.now.wagon track.now.events ≡ Some r) }
{
    record_with(alloc, track, &Estimates::of(track))
}

/// The same record, from the track and its estimates.
pub fn record_with(
    alloc: Global,
    track: &Track,
    estimates: &Estimates<'_>,
) -> Result<Record, Memory>
    requires { estimates.now ≡ estimates_state track.now.events }
    ensures { IfOk result (λ r. records.record_of track.now.wagon track.now.events ≡ Some r) }
{
    let plan = track.plan();
    let stage = track.stage();
    let eta = estimates.eta();
    Ok(Record {
        wagon: track.wagon(),
        lead: plan.lead(),
        consignment: plan.consignment(),
        load: plan.load(),
        commit: plan.commit(),
        stage,
        status: status(stage, plan.load()),
        leg: leg_number(track.leg_index()),
        place: track.place(),
        responsible: track.responsible(),
        estimates: estimates_of(alloc, track, estimates)?,
        eta,
        late: estimates.is_late_with(eta),
        events: events_of(alloc, track.events())?,
        units: units_on(alloc, plan.units(), track.wagon())?,
    })
}

/// Whether the railway may see the wagon's record: the lead and the railways of the legs may.
pub fn may_see(track: &Track, by: Railway) -> bool
    ensures { result ≡ records.may_see track.now.events by }
{
    is_lead(track, by) || runs_a_leg(track.legs(), by)
}

fn is_lead(track: &Track, by: Railway) -> bool
    ensures { result ≡ is_lead (journey_state track.now.events) by }
{
    track.journey_state().lead == Some(by)
}

fn runs_a_leg(legs: &[Leg], by: Railway) -> bool
    ensures { result ≡ list_any (λ l. bytes_eq l.ru by) legs.now }
{
    legs.iter().any(|leg| leg.ru == by)
}

fn status(stage: Stage, load: Load) -> Status
    ensures { result ≡ records.status stage load }
{
    match stage {
        Stage::Planned | Stage::Released => by_load(load, Status::Loading, Status::FleetControl),
        Stage::Delivered => by_load(load, Status::Unloading, Status::FleetControl),
        _ => by_load(load, Status::LoadedOnJourney, Status::EmptyOnJourney),
    }
}

fn by_load(load: Load, loaded: Status, empty: Status) -> Status
    ensures { result ≡ records.by_load load loaded empty }
{
    match load {
        Load::Loaded => loaded,
        Load::Empty => empty,
    }
}

fn leg_number(leg: usize) -> LegIndex
    requires { leg < 8 }
    ensures { result ≡ leg }
{
    match LegIndex::new(leg as u64) {
        Some(leg) => leg,
        None => unreachable!(),
    }
}

// All estimates, by their legs.
fn estimates_of(
    alloc: Global,
    track: &Track,
    estimates: &Estimates<'_>,
) -> Result<EstimateList, AllocError>
    requires { estimates.now ≡ estimates_state track.now.events }
    ensures { IfOk result (λ l. l ≡ of.estimates track.now.events) }
{
    let legs = track.legs().len();
    let mut shown = Vec::with_capacity(alloc, legs)?;
    let mut each = estimates.in_turn_from(0);
    for leg in 0..legs {
        if let Some(at) = each.next_estimate() {
            let leg = leg_number(leg);
            shown.push(EstimateAt { leg, at })?;
        }
    }
    Ok(Listed::from_vec(shown))
}

// The events as they are shown.
fn events_of(alloc: Global, events: &[Event]) -> Result<RecordEvents, AllocError>
    requires { HaveRoom 0 events.now }
    ensures { IfOk result (λ l. l ≡ records.record_events 0 events.now) }
{
    let mut shown = Vec::with_capacity(alloc, events.len())?;
    let mut current = 0;
    for event in events {
        let what = shown_as(current, &event.body);
        shown.push_reserved(recorded(event, what));
        current = event.body.leg_index_after(current);
    }
    Ok(Listed::from_vec(shown))
}

// An event of which this is shown.
fn recorded(event: &Event, what: RecordEventKind) -> RecordEvent
    ensures { result ≡ record
        { by = event.now.by; no = event.now.no; at = event.now.at; what = what } }
{
    RecordEvent {
        by: event.by,
        no: event.no,
        at: event.at,
        what,
    }
}

fn shown_as(current: usize, body: &EventBody) -> RecordEventKind
    requires { HasRoom current body.now }
    ensures { result ≡ records.event_kind_on current body.now }
{
    match body {
        EventBody::Planned(_) => RecordEventKind::Planned,
        EventBody::Moved(what) => RecordEventKind::Moved(*what),
        EventBody::EstimateAsked => RecordEventKind::EstimateAsked,
        EventBody::LegTimed { leg, minutes } => RecordEventKind::LegTimed {
            leg: *leg,
            minutes: *minutes,
        },
        EventBody::Offered { place, to: _ } => RecordEventKind::Offered { place: *place },
        EventBody::Answered { place: _, received } => RecordEventKind::Answered {
            received: *received,
        },
        EventBody::Withdrawn { place: _ } => RecordEventKind::Withdrawn,
        EventBody::Rerouted(route) => {
            let _legs = route.legs();
            RecordEventKind::Rerouted {
                leg: leg_number(current + 1),
            }
        }
    }
}

// The units that are loaded on the wagon, in the plan's order.
fn units_on(alloc: Global, loads: &[UnitLoad], wagon: WagonNumber) -> Result<Units, AllocError>
    ensures { IfOk result (λ l. l ≡ records.units_among loads.now wagon) }
{
    let mut units = Vec::new(alloc);
    for loaded in loads {
        if loaded.wagon == wagon {
            units.push(loaded.unit)?;
        }
    }
    Ok(Listed::from_vec(units))
}
