use crate::script::{Run, event, leg, moment, planned, wagon};
use eti_chain::Estimates;
use journey::Track;
use reply_writer::write_record;
use std::alloc::Global;
use std::test::Fail;
use taf_codes::Railway;
use taf_messages::{Stage, Status};
use taf_moment::Moment;
use trip_plan::{Leg, Load};
use wimo::may_see;

static LEGS: &str = "R101:DE00001:AT00002:300 R102:AT00002:IT00003:240";

// A loaded wagon of two on both legs. It lies on the heap, since what owns a run itself takes the prover long.
fn opened(alloc: Global) -> Result<Box<Run>, Fail> {
    let wagons = [wagon("218124712173")?, wagon("338478961232")?];
    let plan = planned(alloc, Load::Loaded, &wagons, LEGS)?;
    Ok(Box::new(alloc, Run::open(alloc, wagons[0], plan)?)?)
}

// The same, which goes on with the events of these lines.
fn two_legs(alloc: Global, lines: &str) -> Result<Box<Run>, Fail> {
    let mut run = opened(alloc)?;
    run.go_on(alloc, lines)?;
    Ok(run)
}

// Up to the departure at 06:00.
const DEPARTED: &str = "R100 2 05:30 release
R101 1 06:00 depart";

// Up to the reception by the second railway at 11:10.
const RECEIVED: &str = "R100 2 05:30 release
R101 1 06:00 depart
R101 2 10:40 yard_in AT00002
R101 6 10:50 offer AT00002 R102
R102 1 11:10 receive AT00002";

fn eta_afresh(track: &Track) -> Option<Moment> {
    if !Estimates::fits(track) {
        return None;
    }
    Estimates::of(track).eta()
}

const FROM_THE_PLAN: &str = "R101 1 06:00 depart = WrongStage
R101 2 05:30 release = NotYours
R100 2 05:30 release = Released 0 DE00001 ---- 2025-03-01T14:30Z
R101 2 06:00 depart = Running 0 ------- R101 2025-03-01T15:00Z
R101 2 10:00 arrival = NotLastLeg";

// Delays, until an estimate is reported.
const DELAYS: &str =
    "R101 2 07:00 exception 45 = Running 0 ------- R101 2025-03-01T15:45Z late by 15
R101 3 11:10 eti = Running 0 ------- R101 2025-03-01T15:10Z
R101 4 11:00 exception 5 = Running 0 ------- R101 2025-03-01T15:15Z";

// Late only past the promise.
const LATE: &str = "R101 2 11:30 eti = Running 0 ------- R101 2025-03-01T15:30Z
R101 3 11:31 eti = Running 0 ------- R101 2025-03-01T15:31Z late by 1
R101 4 11:32 eti = Running 0 ------- R101 2025-03-01T15:32Z late by 2";

// The end of the calendar: on the first leg, and on the second.
const PAST_THE_CALENDAR: &str = "R101 2 2199-12-31T23:59Z eti = BeyondCalendar";

const LAST_OF_THE_CALENDAR: &str =
    "R102 3 2199-12-31T23:59Z eti = InYard 1 AT00002 R102 2199-12-31T23:59Z late by 91954589";

// An interchange, and the second leg.
const INTERCHANGE: &str = "R101 6 10:50 offer AT00002 R102 = WrongStage
R101 2 10:40 yard_in AT00002 = InYard 0 AT00002 R101 2025-03-01T15:00Z
R101 5 10:45 offer AT00009 R102 = WrongPlace
R101 5 10:45 offer AT00002 R103 = WrongNext
R101 6 10:50 offer AT00002 R102 = Offered 0 AT00002 R101 2025-03-01T15:00Z
R102 1 11:10 receive AT00002 = InYard 1 AT00002 R102 2025-03-01T15:10Z
R102 2 11:10 receive AT00002 = WrongStage
R102 3 11:30 yard_out AT00009 = WrongPlace
R102 4 11:30 yard_out AT00002 = Running 1 ------- R102 2025-03-01T15:10Z
R102 5 15:00 arrival = Arrived 1 IT00003 R102 2025-03-01T15:00Z
R102 6 15:20 delivery = Delivered 1 IT00003 ---- 2025-03-01T15:20Z";

// A refused offer, and one that is withdrawn.
const NOT_RECEIVED: &str = "R101 5 10:45 yard_in AT00002 = InYard 0 AT00002 R101 2025-03-01T15:00Z
R101 6 10:50 offer AT00002 R102 = Offered 0 AT00002 R101 2025-03-01T15:00Z
R102 1 11:10 refuse AT00002 = InYard 0 AT00002 R101 2025-03-01T15:00Z
R101 7 11:20 offer AT00002 R102 = Offered 0 AT00002 R101 2025-03-01T15:00Z
R101 8 11:30 withdraw AT00002 = InYard 0 AT00002 R101 2025-03-01T15:00Z";

const TIMES_OF_LEGS: &str = "R102 1 - leg_time 1 200 = Running 0 ------- R101 2025-03-01T14:20Z
R101 2 - leg_time 0 200 = LegStarted
R101 3 - leg_time 5 200 = NoSuchLeg
R100 3 - eti_ask = Running 0 ------- R101 2025-03-01T14:20Z";

const NEW_LEGS: &str = "R101 2 - reroute R103:AT00002:CH00004:180 = NotYours
R100 4 - reroute R101:AT00002:CH00004:180 = WrongNext
R100 5 - reroute R103:AT00009:CH00004:180 = WrongPlace
R100 3 - reroute R103:AT00002:CH00004:180 = Running 0 ------- R101 2025-03-01T14:00Z";

const EIGHT_LEGS_AT_MOST: &str = "R100 4 - reroute R103:IT00003:IT00004:60 R104:IT00004:IT00005:60 \
    R105:IT00005:IT00006:60 R106:IT00006:IT00007:60 R107:IT00007:IT00008:60 \
    R108:IT00008:IT00009:60 R109:IT00009:IT00010:60 = TooManyLegs
R100 5 - reroute R103:IT00003:IT00004:60 R104:IT00004:IT00005:60 \
    R105:IT00005:IT00006:60 R106:IT00006:IT00007:60 R107:IT00007:IT00008:60 \
    R108:IT00008:IT00009:60 = InYard 1 AT00002 R102 2025-03-01T21:10Z late by 340";

// What comes before, and the lines that go on from there with what is seen.
static JOURNEYS: [(&str, &str); 10] = [
    ("", FROM_THE_PLAN),
    (DEPARTED, DELAYS),
    (DEPARTED, LATE),
    (DEPARTED, PAST_THE_CALENDAR),
    (RECEIVED, LAST_OF_THE_CALENDAR),
    (DEPARTED, INTERCHANGE),
    (DEPARTED, NOT_RECEIVED),
    (DEPARTED, TIMES_OF_LEGS),
    (DEPARTED, NEW_LEGS),
    (RECEIVED, EIGHT_LEGS_AT_MOST),
];

#[test]
fn journeys(rt: HostRuntime) -> Result<(), Fail> {
    for (before, lines) in &JOURNEYS {
        let mut run = two_legs(rt.alloc(), before)?;
        run.goes_on_as(rt.alloc(), lines)?;
    }
    Ok(())
}

static EMPTY: &str = "R100 2 05:30 release = Released 0 DE00001 ---- 2025-03-01T10:30Z
R201 1 06:00 depart = Running 0 ------- R201 2025-03-01T11:00Z
R201 2 08:00 yard_in DE00003 = InYard 0 DE00003 R201 2025-03-01T11:00Z
R201 3 08:10 yard_out DE00004 = WrongPlace
R201 4 08:10 yard_out DE00003 = Running 0 ------- R201 2025-03-01T11:00Z
R201 5 08:30 exception 45 = Running 0 ------- R201 2025-03-01T11:45Z
R201 6 11:00 arrival = Arrived 0 AT00002 R201 2025-03-01T11:00Z
R201 7 11:20 delivery = Delivered 0 AT00002 ---- 2025-03-01T11:20Z
R201 8 11:20 delivery = WrongStage";

fn empty_wagon(alloc: Global) -> Result<Box<Run>, Fail> {
    let empty = wagon("338478961232")?;
    let plan = planned(alloc, Load::Empty, &[empty], "R201:DE00001:AT00002:300")?;
    Ok(Box::new(alloc, Run::open(alloc, empty, plan)?)?)
}

// Whether the wagon's record shows it in fleet control, with eight events.
fn is_in_fleet_control(alloc: Global, run: &Run) -> Result<bool, Fail> {
    let shown = run.record(alloc)?;
    Ok(shown.status == Status::FleetControl && shown.events.as_slice().len() == 8)
}

#[test]
fn an_empty_wagon(rt: HostRuntime) -> Result<(), Fail> {
    let mut run = empty_wagon(rt.alloc())?;
    run.goes_on_as(rt.alloc(), EMPTY)?;
    assert!(rt; run.track.events().len() == 8);
    assert!(rt; is_in_fleet_control(rt.alloc(), &run)?);
    Ok(())
}

// What is seen after delays of a minute under the numbers from 2 up to the last.
fn delayed(alloc: Global, run: &mut Run, last: u64) -> Result<String, Fail> {
    let mut seen = String::new(alloc);
    for number in 2..=last {
        let line = format!(in alloc; "R101 {number} 07:00 exception 1")?;
        seen = run.transition(alloc, &line)?;
    }
    Ok(seen)
}

#[test]
fn twenty_thousand_delays(rt: HostRuntime) -> Result<(), Fail> {
    let mut run = two_legs(rt.alloc(), DEPARTED)?;
    let seen = delayed(rt.alloc(), &mut run, 20_001)?;
    assert!(rt; seen.as_str() == "Running 0 ------- R101 2025-03-15T12:20Z late by 19970");
    assert!(rt; run.track.events().len() == 20_003);
    assert!(rt; eta_afresh(&run.track) == run.estimates().eta());
    Ok(())
}

// Those of the railways that may see the wagon.
fn seen_by(alloc: Global, track: &Track, railways: &str) -> Result<String, Fail> {
    let mut seeing = String::new(alloc);
    for railway in railways.split_ascii_whitespace() {
        if may_see(track, Railway::read(railway)?) {
            seeing.push(' ')?;
            seeing.push_str(railway)?;
        }
    }
    Ok(seeing)
}

#[test]
fn who_may_see(rt: HostRuntime) -> Result<(), Fail> {
    let railways = "R100 R101 R102 R103 R999";
    let mut run = two_legs(rt.alloc(), DEPARTED)?;
    let seeing = seen_by(rt.alloc(), &run.track, railways)?;
    assert!(rt; seeing.as_str() == " R100 R101 R102");
    run.go_on(rt.alloc(), "R100 3 - reroute R103:AT00002:CH00004:180")?;
    let seeing = seen_by(rt.alloc(), &run.track, railways)?;
    assert!(rt; seeing.as_str() == " R100 R101 R103");
    Ok(())
}

// Whether the second of two legs is this one.
fn ends_with(track: &Track, second: Leg) -> bool {
    let second = Some(second);
    track.leg(1) == second && track.leg(2).is_none() && track.legs().last().copied() == second
}

#[test]
fn parts_of_a_track(rt: HostRuntime) -> Result<(), Fail> {
    let run = two_legs(rt.alloc(), DEPARTED)?;
    assert!(rt; run.track.wagon() == wagon("218124712173")?);
    assert!(rt; run.track.plan().wagons().len() == 2);
    assert!(rt; ends_with(&run.track, leg("R102:AT00002:IT00003:240")?));
    assert!(rt; run.track.journey_state().is_on_its_way());
    Ok(())
}

// When the wagon is expected at the ends of its first three legs.
fn expected(estimates: &Estimates<'_>) -> [Option<Moment>; 3] {
    [
        estimates.estimate(0),
        estimates.estimate(1),
        estimates.estimate(2),
    ]
}

// The same, one after another.
fn expected_in_turn(estimates: &Estimates<'_>) -> [Option<Moment>; 3] {
    let mut each = estimates.in_turn_from(0);
    let first = each.next_estimate();
    let second = each.next_estimate();
    [first, second, each.next_estimate()]
}

#[test]
fn estimates_of_a_track(rt: HostRuntime) -> Result<(), Fail> {
    let run = two_legs(rt.alloc(), DEPARTED)?;
    let first = Some(moment(rt.alloc(), "11:00")?);
    let second = Some(moment(rt.alloc(), "15:00")?);
    assert!(rt; expected(&run.estimates()) == [first, second, None]);
    assert!(rt; expected_in_turn(&run.estimates()) == [first, second, None]);
    assert!(rt; !run.estimates().late());
    Ok(())
}

// When the wagon is expected at the end of its legs, once the estimates of its track follow the event of a line.
fn followed(alloc: Global, run: &Run, line: &str) -> Result<[Option<Moment>; 3], Fail> {
    let next = event(alloc, line)?;
    let mut estimates = run.estimates();
    if run.track.admits(&next).is_some() || estimates.would_pass_calendar(&run.track, &next) {
        return Err(Fail::new(line));
    }
    estimates.follow(&run.track, &next);
    Ok(expected(&estimates))
}

// Up to a delay, and up to an estimate that is reported behind it.
const DELAYED: &str = "R100 2 05:30 release
R101 1 06:00 depart
R101 2 07:00 exception 45";

const REPORTED: &str = "R100 2 05:30 release
R101 1 06:00 depart
R101 2 07:00 exception 45
R101 3 11:10 eti";

// What comes before, an event, and when the wagon is expected then at the ends of its two legs.
static FOLLOWED: [(&str, &str, &str, &str); 3] = [
    (DEPARTED, "R101 2 07:00 exception 45", "11:45", "15:45"),
    (DELAYED, "R101 3 11:10 eti", "11:10", "15:10"),
    (REPORTED, "R101 4 11:00 exception 5", "11:15", "15:15"),
];

// Whether the wagon is expected then, once its estimates follow the event of a line.
fn is_followed(alloc: Global, run: &Run, line: &str, times: (&str, &str)) -> Result<bool, Fail> {
    let first = Some(moment(alloc, times.0)?);
    let last = Some(moment(alloc, times.1)?);
    Ok(followed(alloc, run, line)? == [first, last, None])
}

#[test]
fn estimates_follow_an_event(rt: HostRuntime) -> Result<(), Fail> {
    for (before, line, first, last) in &FOLLOWED {
        let run = two_legs(rt.alloc(), before)?;
        if !is_followed(rt.alloc(), &run, line, (*first, *last))? {
            return Err(Fail::new(*line));
        }
    }
    Ok(())
}

#[test]
fn the_newest_event_is_taken_back(rt: HostRuntime) -> Result<(), Fail> {
    let mut run = two_legs(rt.alloc(), DEPARTED)?;
    run.add_and_take_back(event(rt.alloc(), "R101 2 10:40 yard_in AT00002")?)?;
    run.add_and_take_back(event(rt.alloc(), "R102 1 - leg_time 1 200")?)?;
    assert!(rt; run.track.events().len() == 3);
    let delay = "R101 2 07:00 exception 5 = Running 0 ------- R101 2025-03-01T15:05Z";
    run.goes_on_as(rt.alloc(), delay)?;
    Ok(())
}

// The record of a wagon after its departure.
static RECORD: &[u8] =
    br#"{"commit":"2025-03-01T15:30Z","consignment":"C-1","estimates":[{"at":"2025-03-01T11:00Z","leg":0},{"at":"2025-03-01T15:00Z","leg":1}],"eta":"2025-03-01T15:00Z","events":[{"by":"R100","kind":"plan","no":1},{"at":"2025-03-01T05:30Z","by":"R100","kind":"release","no":2},{"at":"2025-03-01T06:00Z","by":"R101","kind":"depart","no":1}],"late":false,"lead":"R100","leg":0,"load":"loaded","place":null,"responsible":"R101","stage":"running","status":"loaded_on_journey","wagon":"218124712173"}"#;

#[test]
fn the_record_of_a_wagon(rt: HostRuntime) -> Result<(), Fail> {
    let run = two_legs(rt.alloc(), DEPARTED)?;
    let text = write_record(rt.alloc(), &run.record(rt.alloc())?)?;
    assert!(rt; text.as_slice() == RECORD);
    Ok(())
}
