//! A line of each kind, and the call that it is.
use crate::checks::are_call;
use crate::parts::{
    ONE, THREE, TWO, consignment, leg, moment, place, railway, send, wagon, wagons, within,
    within32,
};
use std::alloc::Global;
use std::test::Fail;
use taf_codes::{Railway, TrainId, UnitCode};
use taf_messages::{
    Body, Call, Movement, MovementKind, OfferedWagons, Shared, TrainAnswer, TrainOffer, Wagons,
};
use trip_plan::{Load, Plan, Route, UnitLoad};

// Lines of movements, and what they say.
const MOVEMENTS: [(&str, &str, u64, &str, MovementKind); 5] = [
    (
        r#"{"kind":"release","from":"R100","no":2,"wagon":"218124712173","at":"2025-03-01T05:30Z"}"#,
        "R100",
        2,
        "2025-03-01T05:30Z",
        MovementKind::Release,
    ),
    (
        r#"{"kind":"depart","from":"R101","no":1,"wagon":"218124712173","at":"2025-03-01T06:00Z"}"#,
        "R101",
        1,
        "2025-03-01T06:00Z",
        MovementKind::Departure,
    ),
    (
        r#"{"kind":"eti","from":"R101","no":3,"wagon":"218124712173","at":"2025-03-01T11:10Z"}"#,
        "R101",
        3,
        "2025-03-01T11:10Z",
        MovementKind::Estimate,
    ),
    (
        r#"{"kind":"arrival","from":"R102","no":5,"wagon":"218124712173","at":"2025-03-01T15:00Z"}"#,
        "R102",
        5,
        "2025-03-01T15:00Z",
        MovementKind::Arrival,
    ),
    (
        r#"{"kind":"delivery","from":"R102","no":6,"wagon":"218124712173","at":"2025-03-01T15:20Z"}"#,
        "R102",
        6,
        "2025-03-01T15:20Z",
        MovementKind::Delivery,
    ),
];

// A movement of the first wagon.
fn moved(alloc: Global, by: &str, no: u64, at: &str, what: MovementKind) -> Result<Call, Fail> {
    let wagon = wagon(ONE)?;
    let at = moment(at)?;
    send(alloc, by, no, Body::Movement(Movement { wagon, at, what }))
}

#[test]
fn movements(rt: HostRuntime) -> Result<(), Fail> {
    for (line, by, no, at, what) in &MOVEMENTS {
        are_call(rt.alloc(), line, &moved(rt.alloc(), by, *no, at, *what)?)?;
    }
    Ok(())
}

// What a movement of this kind says of the first wagon, and more than the others.
fn movement_that_says_more(alloc: Global, kind: &str) -> Result<Call, Fail> {
    let place = place("AT00002")?;
    let delay = within32(45)?;
    let (by, no, at, what) = match kind {
        "yard_in" => (
            "R101",
            2,
            "2025-03-01T10:40Z",
            MovementKind::YardArrival { place },
        ),
        "yard_out" => (
            "R102",
            4,
            "2025-03-01T11:30Z",
            MovementKind::YardDeparture { place },
        ),
        _ => (
            "R101",
            2,
            "2025-03-01T07:00Z",
            MovementKind::Exception { delay },
        ),
    };
    moved(alloc, by, no, at, what)
}

static MOVEMENTS_THAT_SAY_MORE: [(&str, &str); 3] = [
    (
        "yard_in",
        r#"{"kind":"yard_in","from":"R101","no":2,"wagon":"218124712173","at":"2025-03-01T10:40Z","place":"AT00002"}"#,
    ),
    (
        "yard_out",
        r#"{"kind":"yard_out","from":"R102","no":4,"wagon":"218124712173","at":"2025-03-01T11:30Z","place":"AT00002"}"#,
    ),
    (
        "exception",
        r#"{"kind":"exception","from":"R101","no":2,"wagon":"218124712173","at":"2025-03-01T07:00Z","delay":45}"#,
    ),
];

#[test]
fn movements_that_say_more(rt: HostRuntime) -> Result<(), Fail> {
    for (kind, line) in &MOVEMENTS_THAT_SAY_MORE {
        are_call(
            rt.alloc(),
            line,
            &movement_that_says_more(rt.alloc(), kind)?,
        )?;
    }
    Ok(())
}

fn estimate_asked(alloc: Global) -> Result<Call, Fail> {
    let wagon = wagon(ONE)?;
    send(alloc, "R100", 3, Body::EtiAsk { wagon })
}

fn leg_time(alloc: Global) -> Result<Call, Fail> {
    let body = Body::LegTime {
        wagon: wagon(ONE)?,
        leg: within32(1)?,
        minutes: within32(200)?,
    };
    send(alloc, "R102", 1, body)
}

fn withdrawal(alloc: Global) -> Result<Call, Fail> {
    let at = moment("2025-03-01T11:00Z")?;
    let offer = within(6)?;
    send(alloc, "R101", 7, Body::Withdraw { at, offer })
}

fn reroute(alloc: Global) -> Result<Call, Fail> {
    let wagon = wagon(ONE)?;
    let leg = leg("R103", "AT00002", "CH00004", 180)?;
    let route = Route::new(alloc, &[leg])?;
    send(alloc, "R100", 3, Body::Reroute { wagon, route })
}

fn offer(alloc: Global) -> Result<Call, Fail> {
    let at = moment("2025-03-01T10:50Z")?;
    let train = TrainId::read("T-77")?;
    let place = place("AT00002")?;
    let to = railway("R102")?;
    let Some(wagons) = OfferedWagons::new(wagons(alloc, &[ONE, TWO])?) else {
        return Err(Fail::new("no offer"));
    };
    let offer = TrainOffer {
        at,
        train,
        place,
        to,
        wagons,
    };
    send(alloc, "R101", 6, Body::Offer(Shared::new(alloc, offer)?))
}

fn some_wagons(alloc: Global, texts: &[&str]) -> Result<Wagons, Fail> {
    match Wagons::new(wagons(alloc, texts)?) {
        Some(wagons) => Ok(wagons),
        None => Err(Fail::new("too many wagons")),
    }
}

// The answer of R102 to the offer R101/6.
fn answer(
    alloc: Global,
    no: u64,
    received: &[&str],
    refused: &[&str],
    manager: Option<Railway>,
) -> Result<Call, Fail> {
    let at = moment("2025-03-01T11:10Z")?;
    let offerer = railway("R101")?;
    let offer = within(6)?;
    let received = some_wagons(alloc, received)?;
    let refused = some_wagons(alloc, refused)?;
    let answer = TrainAnswer {
        at,
        offerer,
        offer,
        received,
        refused,
        manager,
    };
    send(alloc, "R102", no, Body::Answer(Shared::new(alloc, answer)?))
}

// The message that stands under these words below.
fn other_message(alloc: Global, words: &str) -> Result<Call, Fail> {
    match words {
        "eti_ask" => estimate_asked(alloc),
        "leg_time" => leg_time(alloc),
        "withdraw" => withdrawal(alloc),
        "reroute" => reroute(alloc),
        "offer" => offer(alloc),
        "answer" => answer(alloc, 1, &[ONE], &[TWO], Some(railway("I300")?)),
        _ => answer(alloc, 3, &[ONE, TWO], &[], None),
    }
}

// Lines of other messages. An answer may name no manager.
static OTHER_MESSAGES: [(&str, &str); 7] = [
    (
        "eti_ask",
        r#"{"kind":"eti_ask","from":"R100","no":3,"wagon":"218124712173"}"#,
    ),
    (
        "leg_time",
        r#"{"kind":"leg_time","from":"R102","no":1,"wagon":"218124712173","leg":1,"minutes":200}"#,
    ),
    (
        "withdraw",
        r#"{"kind":"withdraw","from":"R101","no":7,"at":"2025-03-01T11:00Z","offer":6}"#,
    ),
    (
        "reroute",
        r#"{"kind":"reroute","from":"R100","no":3,"wagon":"218124712173","legs":[{"ru":"R103","origin":"AT00002","target":"CH00004","minutes":180}]}"#,
    ),
    (
        "offer",
        r#"{"kind":"offer","from":"R101","no":6,"at":"2025-03-01T10:50Z","train":"T-77","place":"AT00002","to":"R102","wagons":["218124712173","338478961232"]}"#,
    ),
    (
        "answer",
        r#"{"kind":"answer","from":"R102","no":1,"at":"2025-03-01T11:10Z","offerer":"R101","offer":6,"received":["218124712173"],"refused":["338478961232"],"manager":"I300"}"#,
    ),
    (
        "answer without a manager",
        r#"{"kind":"answer","from":"R102","no":3,"at":"2025-03-01T11:10Z","offerer":"R101","offer":6,"received":["218124712173","338478961232"],"refused":[]}
{"kind":"answer","from":"R102","no":3,"at":"2025-03-01T11:10Z","offerer":"R101","offer":6,"received":["218124712173","338478961232"],"refused":[],"manager":null}"#,
    ),
];

#[test]
fn other_messages(rt: HostRuntime) -> Result<(), Fail> {
    for (words, lines) in &OTHER_MESSAGES {
        are_call(rt.alloc(), lines, &other_message(rt.alloc(), words)?)?;
    }
    Ok(())
}

/// The plan of the first two wagons over two legs, with a unit on the first wagon or with none.
pub(crate) fn plan(alloc: Global, unit: Option<UnitCode>) -> Result<Plan, Fail> {
    let lead = railway("R100")?;
    let consignment = consignment("C-1")?;
    let wagons = [wagon(ONE)?, wagon(TWO)?];
    let commit = moment("2025-03-01T15:30Z")?;
    let legs = [
        leg("R101", "DE00001", "AT00002", 300)?,
        leg("R102", "AT00002", "IT00003", 240)?,
    ];
    let load = Load::Loaded;
    let Some(unit) = unit else {
        return Ok(Plan::new(alloc, lead, consignment, load, &wagons, &legs, commit)?);
    };
    let wagon = wagons[0];
    let units = [UnitLoad { unit, wagon }];
    Ok(Plan::with_units(
        alloc,
        lead,
        consignment,
        load,
        &wagons,
        &legs,
        &units,
        commit,
    )?)
}

// Lines of the plan without units, and then with one.
static PLANS: &str =
    r#"{"kind":"plan","from":"R100","no":1,"consignment":"C-1","load":"loaded","commit":"2025-03-01T15:30Z","wagons":["218124712173","338478961232"],"legs":[{"ru":"R101","origin":"DE00001","target":"AT00002","minutes":300},{"ru":"R102","origin":"AT00002","target":"IT00003","minutes":240}]}
{"kind":"plan","from":"R100","no":1,"consignment":"C-1","load":"loaded","commit":"2025-03-01T15:30Z","wagons":["218124712173","338478961232"],"legs":[{"ru":"R101","origin":"DE00001","target":"AT00002","minutes":300},{"ru":"R102","origin":"AT00002","target":"IT00003","minutes":240}],"units":null}
{"kind":"plan","from":"R100","no":1,"consignment":"C-1","load":"loaded","commit":"2025-03-01T15:30Z","wagons":["218124712173","338478961232"],"legs":[{"ru":"R101","origin":"DE00001","target":"AT00002","minutes":300},{"ru":"R102","origin":"AT00002","target":"IT00003","minutes":240}],"units":[]}
{"kind":"plan","from":"R100","no":1,"consignment":"C-1","load":"loaded","commit":"2025-03-01T15:30Z","wagons":["218124712173","338478961232"],"legs":[{"ru":"R101","origin":"DE00001","target":"AT00002","minutes":300},{"ru":"R102","origin":"AT00002","target":"IT00003","minutes":240}],"units":7,"units":[]}"#;

static PLANS_WITH_A_UNIT: &str =
    r#"{"kind":"plan","from":"R100","no":1,"consignment":"C-1","load":"loaded","commit":"2025-03-01T15:30Z","wagons":["218124712173","338478961232"],"legs":[{"ru":"R101","origin":"DE00001","target":"AT00002","minutes":300},{"ru":"R102","origin":"AT00002","target":"IT00003","minutes":240}],"units":[{"unit":"CSQU3054383","wagon":"218124712173"}]}
{"kind":"plan","from":"R100","no":1,"consignment":"C-1","load":"loaded","commit":"2025-03-01T15:30Z","wagons":["218124712173","338478961232"],"legs":[{"ru":"R101","origin":"DE00001","target":"AT00002","minutes":300},{"ru":"R102","origin":"AT00002","target":"IT00003","minutes":240}],"units":[{"wagon":"218124712173","note":null,"unit":"CSQU3054383"}]}"#;

// The call of sending the plan.
fn planned(alloc: Global, unit: Option<UnitCode>) -> Result<Call, Fail> {
    send(alloc, "R100", 1, Body::Plan(plan(alloc, unit)?))
}

#[test]
fn plans(rt: HostRuntime) -> Result<(), Fail> {
    let unit = Some(UnitCode::read("CSQU3054383")?);
    are_call(rt.alloc(), PLANS, &planned(rt.alloc(), None)?)?;
    are_call(rt.alloc(), PLANS_WITH_A_UNIT, &planned(rt.alloc(), unit)?)
}

// The question of this kind.
fn question(kind: &str) -> Result<Call, Fail> {
    let by = railway("R100")?;
    let call = match kind {
        "ask_unit" => Call::AskUnit {
            by,
            unit: UnitCode::read("CSQU3054383")?,
        },
        "deviation" => Call::Deviation {
            by,
            consignment: consignment("C-1")?,
        },
        "fetch" => Call::Fetch {
            by,
            limit: within(10)?,
        },
        "ack" => Call::Ack {
            by,
            item: within(0)?,
        },
        _ => Call::Ask {
            by,
            wagon: wagon(THREE)?,
        },
    };
    Ok(call)
}

// Lines of questions. Key order, blanks, escapes, unknown fields and repeated keys make no other call.
static QUESTIONS: [(&str, &str); 6] = [
    (
        "ask",
        r#"{"kind":"ask","from":"R100","wagon":"318066552148"}
{"wagon":"318066552148","from":"R100","kind":"ask"}
{"k\u0069nd":"\u0061sk","from":"R100","wagon":"318066552148"}
{"kind":"ask","from":"R100","wagon":"318066552148","no":-1.5e3,"note":[null,{"kind":"ack"}]}
{"kind":"fetch","kind":"ask","from":7,"from":"R100","wagon":"318066552148"}
{"kind":"ask","from":"R100","wagon":"318066552148","note":"\ud83d\ude82 \u00e4"}"#,
    ),
    (
        "ask",
        "\t{ \"kind\" : \"ask\" , \"from\" : \"R100\" , \"wagon\" : \"318066552148\" } \r",
    ),
    (
        "ask_unit",
        r#"{"kind":"ask_unit","from":"R100","unit":"CSQU3054383"}"#,
    ),
    (
        "deviation",
        r#"{"kind":"deviation","from":"R100","consignment":"C-1"}"#,
    ),
    ("fetch", r#"{"kind":"fetch","from":"R100","limit":10}"#),
    ("ack", r#"{"kind":"ack","from":"R100","item":0}"#),
];

#[test]
fn questions(rt: HostRuntime) -> Result<(), Fail> {
    for (kind, lines) in &QUESTIONS {
        are_call(rt.alloc(), lines, &question(kind)?)?;
    }
    Ok(())
}
