//! The texts of the legs of wagons.
use crate::checks::is_text;
use crate::parts::{ONE, TWO, leg, wagon};
use reply_writer::{WagonLegs, write_fleet_legs, write_wagon_legs};
use std::test::Fail;
use trip_plan::Leg;

/// The legs of a wagon from Germany to Italy.
pub(crate) fn two_legs() -> Result<[Leg; 2], Fail> {
    Ok([
        leg("R101", "DE00001", "AT00002", 300)?,
        leg("R102", "AT00002", "IT00003", 280)?,
    ])
}

#[test]
fn legs_of_one_wagon(rt: HostRuntime) -> Result<(), Fail> {
    let legs = two_legs()?;
    let shown = WagonLegs {
        wagon: wagon(ONE)?,
        legs: &legs[..1],
    };
    is_text(
        write_wagon_legs(rt.alloc(), &shown),
        r#"{"legs":[{"minutes":300,"origin":"DE00001","ru":"R101","target":"AT00002"}],"wagon":"218124712173"}"#,
    )
}

#[test]
fn legs_of_two_wagons(rt: HostRuntime) -> Result<(), Fail> {
    let legs = two_legs()?;
    let fleet = [
        WagonLegs {
            wagon: wagon(TWO)?,
            legs: &legs,
        },
        WagonLegs {
            wagon: wagon(ONE)?,
            legs: &legs[..1],
        },
    ];
    is_text(
        write_fleet_legs(rt.alloc(), &fleet),
        r#"{"legs":[{"legs":[{"minutes":300,"origin":"DE00001","ru":"R101","target":"AT00002"},{"minutes":280,"origin":"AT00002","ru":"R102","target":"IT00003"}],"wagon":"338478961232"},{"legs":[{"minutes":300,"origin":"DE00001","ru":"R101","target":"AT00002"}],"wagon":"218124712173"}]}"#,
    )
}

#[test]
fn legs_of_no_wagon(rt: HostRuntime) -> Result<(), Fail> {
    is_text(write_fleet_legs(rt.alloc(), &[]), r#"{"legs":[]}"#)
}
