//! A hub that takes the calls of trips.

use crate::measured::Measured;
use anyhow::{Result, bail};
use call_reader::read_call;
use hub_core::Hub;
use std::alloc::Global;
use std::time::{Clock, Instant};
use taf_messages::{Call, Reply};
use wagon_number::WagonNumber;

// The calls of a trip: its wagon is planned, released, departs, is delayed ten times and arrives, and its record is
// asked for.
const CALLS_OF_A_TRIP: u64 = 15;

// The first eleven digits of a number with a last one, where this is its check digit.
fn with_check_digit(alloc: Global, first: u64, check: u8) -> Result<Option<String>> {
    let text = format!(in alloc; "{first}{check}")?;
    match WagonNumber::read(&text) {
        Ok(_) => Ok(Some(text)),
        Err(_) => Ok(None),
    }
}

// The number of the wagon of a trip.
pub(crate) fn wagon(alloc: Global, trip: u64) -> Result<String> {
    let first = trip.saturating_add(21_812_000_000);
    for check in 0..10u8 {
        if let Some(text) = with_check_digit(alloc, first, check)? {
            return Ok(text);
        }
    }
    bail!("no check digit")
}

// The line of a plan. The lead's messages are numbered by trips, two for each.
fn plan(alloc: Global, trip: u64, wagon: &str) -> Result<String> {
    let number = format!(in alloc; "{}", trip.saturating_mul(2).saturating_add(1))?;
    let consignment = format!(in alloc; "C-{trip}")?;
    let parts = [
        r#"{"kind":"plan","from":"R100","no":"#,
        number.as_str(),
        r#","consignment":""#,
        consignment.as_str(),
        r#"","load":"loaded","commit":"2025-03-01T15:30Z","wagons":[""#,
        wagon,
        r#""],"legs":[{"ru":"R101","origin":"DE00001","target":"AT00002","minutes":300}]}"#,
    ];
    Ok(parts.concat(alloc)?)
}

// A movement of a wagon, with the fields of its kind.
#[derive(Drop)]
struct Movement<'a> {
    kind: &'a str,
    from: &'a str,
    number: u64,
    fields: &'a str,
}

// The line of a movement.
fn line(alloc: Global, wagon: &str, movement: &Movement<'_>) -> Result<String> {
    let number = format!(in alloc; "{}", movement.number)?;
    let parts = [
        r#"{"kind":""#,
        movement.kind,
        r#"","from":""#,
        movement.from,
        r#"","no":"#,
        number.as_str(),
        r#","wagon":""#,
        wagon,
        r#"","#,
        movement.fields,
        "}",
    ];
    Ok(parts.concat(alloc)?)
}

fn put(alloc: Global, calls: &mut Vec<Call>, line: &str) -> Result<()> {
    calls.push(read_call(alloc, line.as_bytes())?)?;
    Ok(())
}

fn put_plan(alloc: Global, calls: &mut Vec<Call>, trip: u64, wagon: &str) -> Result<()> {
    let line = plan(alloc, trip, wagon)?;
    put(alloc, calls, &line)
}

fn put_movement(
    alloc: Global,
    calls: &mut Vec<Call>,
    wagon: &str,
    movement: &Movement<'_>,
) -> Result<()> {
    let line = line(alloc, wagon, movement)?;
    put(alloc, calls, &line)
}

fn put_ask(alloc: Global, calls: &mut Vec<Call>, wagon: &str) -> Result<()> {
    let parts = [r#"{"kind":"ask","from":"R100","wagon":""#, wagon, r#""}"#];
    put(alloc, calls, &parts.concat(alloc)?)
}

fn release(trip: u64) -> Movement<'static> {
    Movement {
        kind: "release",
        from: "R100",
        number: trip.saturating_mul(2).saturating_add(2),
        fields: r#""at":"2025-03-01T05:30Z""#,
    }
}

// The messages of the railway of the only leg are numbered by trips, twelve for each.
fn departure(trip: u64) -> Movement<'static> {
    Movement {
        kind: "depart",
        from: "R101",
        number: trip.saturating_mul(12).saturating_add(1),
        fields: r#""at":"2025-03-01T06:00Z""#,
    }
}

fn delay(trip: u64, nth: u64) -> Movement<'static> {
    Movement {
        kind: "exception",
        from: "R101",
        number: trip.saturating_mul(12).saturating_add(nth),
        fields: r#""at":"2025-03-01T07:00Z","delay":5"#,
    }
}

fn arrival(trip: u64) -> Movement<'static> {
    Movement {
        kind: "arrival",
        from: "R101",
        number: trip.saturating_mul(12).saturating_add(12),
        fields: r#""at":"2025-03-01T11:00Z""#,
    }
}

fn put_delays(alloc: Global, calls: &mut Vec<Call>, trip: u64, wagon: &str) -> Result<()> {
    for nth in 2..12u64 {
        put_movement(alloc, calls, wagon, &delay(trip, nth))?;
    }
    Ok(())
}

// Puts the calls of a trip.
fn put_trip(alloc: Global, calls: &mut Vec<Call>, trip: u64, wagon: &str) -> Result<()> {
    put_plan(alloc, calls, trip, wagon)?;
    put_movement(alloc, calls, wagon, &release(trip))?;
    put_movement(alloc, calls, wagon, &departure(trip))?;
    put_delays(alloc, calls, trip, wagon)?;
    put_movement(alloc, calls, wagon, &arrival(trip))?;
    put_ask(alloc, calls, wagon)
}

fn calls(alloc: Global, trip: u64) -> Result<Vec<Call>> {
    let wagon = wagon(alloc, trip)?;
    let mut calls = Vec::new(alloc);
    put_trip(alloc, &mut calls, trip, &wagon)?;
    Ok(calls)
}

// The hub takes the calls, and refuses none.
fn take(hub: &mut Hub, calls: Vec<Call>) -> Result<()> {
    for call in calls {
        let (_, reply) = hub.apply(call)?;
        if matches!(&reply, Reply::Refused(_)) {
            bail!("the sample is refused");
        }
    }
    Ok(())
}

// The hub takes the calls of a trip.
fn take_trip(clock: &impl Clock, alloc: Global, hub: &mut Hub, trip: u64) -> Result<Measured> {
    let calls = calls(alloc, trip)?;
    let start = Instant::now(clock)?;
    take(hub, calls)?;
    Measured::since(clock, start, CALLS_OF_A_TRIP)
}

fn take_trips(clock: &impl Clock, alloc: Global, hub: &mut Hub, trips: u64) -> Result<Measured> {
    let mut total = Measured { count: 0, nanos: 0 };
    for trip in 0..trips {
        total.add(take_trip(clock, alloc, hub, trip)?);
    }
    Ok(total)
}

/// A new hub takes the calls of trips: `count` of them at most, of whole trips, and of one trip at least.
pub(crate) fn taken(clock: &impl Clock, alloc: Global, count: u64) -> Result<Measured> {
    let mut hub = Hub::new(alloc)?;
    take_trips(clock, alloc, &mut hub, (count / CALLS_OF_A_TRIP).max(1))
}
