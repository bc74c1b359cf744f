//! Texts of records.
use crate::checks::{is_text, shown};
use crate::parts::{ONE, consignment, moment, place, railway, wagon, within, within32};
use reply_writer::write_record;
use std::alloc::Global;
use std::test::Fail;
use taf_codes::UnitCode;
use taf_messages::{
    EstimateAt, EstimateList, Listed, MovementKind, Record, RecordEvent, RecordEventKind, Stage,
    Status,
};
use taf_moment::Moment;
use trip_plan::Load;

fn estimates(alloc: Global, times: &[&str]) -> Result<EstimateList, Fail> {
    let mut estimates = Vec::new(alloc);
    for time in times {
        let leg = within32(estimates.len() as u64)?;
        let at = moment(time)?;
        estimates.push(EstimateAt { leg, at })?;
    }
    Ok(Listed::from_vec(estimates))
}

fn event(
    by: &str,
    no: u64,
    at: Option<Moment>,
    what: RecordEventKind,
) -> Result<RecordEvent, Fail> {
    let by = railway(by)?;
    let no = within(no)?;
    Ok(RecordEvent { by, no, at, what })
}

fn movement(by: &str, no: u64, time: &str, what: MovementKind) -> Result<RecordEvent, Fail> {
    let at = moment(time)?;
    event(by, no, Some(at), RecordEventKind::Moved(what))
}

// The record of the first wagon as it is planned, with nothing in its lists.
fn bare(alloc: Global) -> Result<Record, Fail> {
    let wagon = wagon(ONE)?;
    let lead = railway("R100")?;
    let consignment = consignment("C-1")?;
    let commit = moment("2025-03-01T15:30Z")?;
    let leg = within32(0)?;
    let place = Some(place("DE00001")?);
    Ok(Record {
        wagon,
        lead,
        consignment,
        load: Load::Loaded,
        commit,
        stage: Stage::Planned,
        status: Status::Loading,
        leg,
        place,
        responsible: None,
        estimates: Listed::from_vec(Vec::new(alloc)),
        eta: None,
        late: false,
        events: Listed::from_vec(Vec::new(alloc)),
        units: Listed::from_vec(Vec::new(alloc)),
    })
}

// The record as it is planned, with a unit and these events.
fn planned_with(alloc: Global, events: &[RecordEvent]) -> Result<Record, Fail> {
    let units = Vec::from_slice(alloc, &[UnitCode::read("CSQU3054383")?])?;
    let events = Vec::from_slice(alloc, events)?;
    let mut planned = bare(alloc)?;
    planned.events = Listed::from_vec(events);
    planned.units = Listed::from_vec(units);
    Ok(planned)
}

// The first events of the first wagon's journey: its plan, release and departure, and a delay.
fn journey() -> Result<[RecordEvent; 4], Fail> {
    let delay = MovementKind::Exception {
        delay: within32(45)?,
    };
    Ok([
        event("R100", 1, None, RecordEventKind::Planned)?,
        movement("R100", 2, "2025-03-01T05:30Z", MovementKind::Release)?,
        movement("R101", 1, "2025-03-01T06:00Z", MovementKind::Departure)?,
        movement("R101", 2, "2025-03-01T07:00Z", delay)?,
    ])
}

/// The record of the first wagon as it is planned, with a unit.
pub(crate) fn planned(alloc: Global) -> Result<Record, Fail> {
    planned_with(alloc, &journey()?[..1])
}

/// The record of the first wagon, which runs late if it was delayed.
pub(crate) fn running(alloc: Global, late: bool) -> Result<Record, Fail> {
    let times = if late {
        ["2025-03-01T11:45Z", "2025-03-01T15:45Z"]
    } else {
        ["2025-03-01T11:00Z", "2025-03-01T15:00Z"]
    };
    let journey = journey()?;
    let events = if late { &journey[..] } else { &journey[..3] };
    let eta = Some(moment(times[1])?);
    let responsible = Some(railway("R101")?);
    let estimates = estimates(alloc, &times)?;
    let events = Vec::from_slice(alloc, events)?;
    let mut running = bare(alloc)?;
    running.estimates = estimates;
    running.events = Listed::from_vec(events);
    running.stage = Stage::Running;
    running.status = Status::LoadedOnJourney;
    running.place = None;
    running.responsible = responsible;
    running.eta = eta;
    running.late = late;
    Ok(running)
}

pub(crate) const RUNNING: &str =
    r#"{"commit":"2025-03-01T15:30Z","consignment":"C-1","estimates":[{"at":"2025-03-01T11:00Z","leg":0},{"at":"2025-03-01T15:00Z","leg":1}],"eta":"2025-03-01T15:00Z","events":[{"by":"R100","kind":"plan","no":1},{"at":"2025-03-01T05:30Z","by":"R100","kind":"release","no":2},{"at":"2025-03-01T06:00Z","by":"R101","kind":"depart","no":1}],"late":false,"lead":"R100","leg":0,"load":"loaded","place":null,"responsible":"R101","stage":"running","status":"loaded_on_journey","wagon":"218124712173"}"#;

pub(crate) const LATE: &str =
    r#"{"commit":"2025-03-01T15:30Z","consignment":"C-1","estimates":[{"at":"2025-03-01T11:45Z","leg":0},{"at":"2025-03-01T15:45Z","leg":1}],"eta":"2025-03-01T15:45Z","events":[{"by":"R100","kind":"plan","no":1},{"at":"2025-03-01T05:30Z","by":"R100","kind":"release","no":2},{"at":"2025-03-01T06:00Z","by":"R101","kind":"depart","no":1},{"at":"2025-03-01T07:00Z","by":"R101","delay":45,"kind":"exception","no":2}],"late":true,"lead":"R100","leg":0,"load":"loaded","place":null,"responsible":"R101","stage":"running","status":"loaded_on_journey","wagon":"218124712173"}"#;

static PLANNED: &str =
    r#"{"commit":"2025-03-01T15:30Z","consignment":"C-1","estimates":[],"eta":null,"events":[{"by":"R100","kind":"plan","no":1}],"late":false,"lead":"R100","leg":0,"load":"loaded","place":"DE00001","responsible":null,"stage":"planned","status":"loading","units":["CSQU3054383"],"wagon":"218124712173"}"#;

// Fails unless the record of the wagon, late or not, has this text.
fn is_running_text(alloc: Global, late: bool, text: &str) -> Result<(), Fail> {
    is_text(write_record(alloc, &running(alloc, late)?), text)
}

#[test]
fn texts_of_records(rt: HostRuntime) -> Result<(), Fail> {
    is_running_text(rt.alloc(), false, RUNNING)?;
    is_running_text(rt.alloc(), true, LATE)?;
    is_text(write_record(rt.alloc(), &planned(rt.alloc())?), PLANNED)
}

// Fails unless the text of the record has this part.
fn has_part(alloc: Global, known: &Record, part: &str) -> Result<(), Fail> {
    let written = write_record(alloc, known)?;
    if shown(&written).contains(part) {
        Ok(())
    } else {
        Err(Fail::new(part))
    }
}

// Adds the third message of R100, as each of these.
fn add_events(
    events: &mut Vec<RecordEvent>,
    at: Option<Moment>,
    kinds: &[RecordEventKind],
) -> Result<(), Fail> {
    for what in kinds {
        events.push(event("R100", 3, at, *what)?)?;
    }
    Ok(())
}

// The kinds of events that have no moment.
fn kinds_without_a_moment() -> Result<[RecordEventKind; 4], Fail> {
    let leg = within32(1)?;
    let minutes = within32(200)?;
    Ok([
        RecordEventKind::Planned,
        RecordEventKind::EstimateAsked,
        RecordEventKind::LegTimed { leg, minutes },
        RecordEventKind::Rerouted { leg },
    ])
}

const WITHOUT_A_FIELD: [RecordEventKind; 8] = [
    RecordEventKind::Moved(MovementKind::Release),
    RecordEventKind::Moved(MovementKind::Departure),
    RecordEventKind::Moved(MovementKind::Estimate),
    RecordEventKind::Moved(MovementKind::Arrival),
    RecordEventKind::Moved(MovementKind::Delivery),
    RecordEventKind::Withdrawn,
    RecordEventKind::Answered { received: true },
    RecordEventKind::Answered { received: false },
];

// The kinds that have a moment and a field beside it.
fn kinds_with_a_field() -> Result<[RecordEventKind; 4], Fail> {
    let place = place("AT00002")?;
    let delay = within32(45)?;
    Ok([
        RecordEventKind::Moved(MovementKind::YardArrival { place }),
        RecordEventKind::Moved(MovementKind::YardDeparture { place }),
        RecordEventKind::Moved(MovementKind::Exception { delay }),
        RecordEventKind::Offered { place },
    ])
}

fn events_of_each_kind(alloc: Global) -> Result<Vec<RecordEvent>, Fail> {
    let without_a_moment = kinds_without_a_moment()?;
    let with_a_field = kinds_with_a_field()?;
    let at = Some(moment("2025-03-01T11:10Z")?);
    let mut events = Vec::new(alloc);
    add_events(&mut events, None, &without_a_moment)?;
    add_events(&mut events, at, &WITHOUT_A_FIELD)?;
    add_events(&mut events, at, &with_a_field)?;
    Ok(events)
}

// Each kind of event, with what it shows beside its sender, number and moment.
#[test]
fn texts_of_events(rt: HostRuntime) -> Result<(), Fail> {
    let known = planned_with(rt.alloc(), &events_of_each_kind(rt.alloc())?)?;
    has_part(rt.alloc(), &known, EVENTS)
}

static EVENTS: &str =
    r#""events":[{"by":"R100","kind":"plan","no":3},{"by":"R100","kind":"eti_ask","no":3},{"by":"R100","kind":"leg_time","leg":1,"minutes":200,"no":3},{"by":"R100","kind":"reroute","leg":1,"no":3},{"at":"2025-03-01T11:10Z","by":"R100","kind":"release","no":3},{"at":"2025-03-01T11:10Z","by":"R100","kind":"depart","no":3},{"at":"2025-03-01T11:10Z","by":"R100","kind":"eti","no":3},{"at":"2025-03-01T11:10Z","by":"R100","kind":"arrival","no":3},{"at":"2025-03-01T11:10Z","by":"R100","kind":"delivery","no":3},{"at":"2025-03-01T11:10Z","by":"R100","kind":"withdraw","no":3},{"at":"2025-03-01T11:10Z","by":"R100","kind":"answer","no":3,"received":true},{"at":"2025-03-01T11:10Z","by":"R100","kind":"answer","no":3,"received":false},{"at":"2025-03-01T11:10Z","by":"R100","kind":"yard_in","no":3,"place":"AT00002"},{"at":"2025-03-01T11:10Z","by":"R100","kind":"yard_out","no":3,"place":"AT00002"},{"at":"2025-03-01T11:10Z","by":"R100","delay":45,"kind":"exception","no":3},{"at":"2025-03-01T11:10Z","by":"R100","kind":"offer","no":3,"place":"AT00002"}],"late""#;

static STAGES: &str =
    r#""load":"empty","place":"DE00001","responsible":null,"stage":"planned","status":"loading","units"
"load":"empty","place":"DE00001","responsible":null,"stage":"released","status":"fleet_control","units"
"load":"empty","place":"DE00001","responsible":null,"stage":"running","status":"loaded_on_journey","units"
"load":"empty","place":"DE00001","responsible":null,"stage":"in_yard","status":"empty_on_journey","units"
"load":"empty","place":"DE00001","responsible":null,"stage":"offered","status":"loaded_on_journey","units"
"load":"empty","place":"DE00001","responsible":null,"stage":"arrived","status":"empty_on_journey","units"
"load":"empty","place":"DE00001","responsible":null,"stage":"delivered","status":"unloading","units""#;

static STAGES_AND_STATUSES: [(Stage, Status); 7] = [
    (Stage::Planned, Status::Loading),
    (Stage::Released, Status::FleetControl),
    (Stage::Running, Status::LoadedOnJourney),
    (Stage::InYard, Status::EmptyOnJourney),
    (Stage::Offered, Status::LoadedOnJourney),
    (Stage::Arrived, Status::EmptyOnJourney),
    (Stage::Delivered, Status::Unloading),
];

// Fails unless the text of an empty wagon's record of this stage and status has this part.
fn has_stage(alloc: Global, stage: Stage, status: Status, part: &str) -> Result<(), Fail> {
    let mut known = planned(alloc)?;
    known.stage = stage;
    known.status = status;
    known.load = Load::Empty;
    has_part(alloc, &known, part)
}

#[test]
fn stages_and_statuses(rt: HostRuntime) -> Result<(), Fail> {
    let mut parts = STAGES.lines();
    for (stage, status) in &STAGES_AND_STATUSES {
        let Some(part) = parts.next() else {
            return Err(Fail::new("no part"));
        };
        has_stage(rt.alloc(), *stage, *status, part)?;
    }
    Ok(())
}
