use crate::play::{DEPARTED, first_output_of, new_hub, no_difference, plays_on};
use call_reader::read_call;
use hub_core::{Hub, HubFault};
use std::alloc::Global;
use std::test::Fail;
use taf_messages::{Call, copy_call};
use test_scripts::{Script, add_line};

/// A plan of 60 wagons over eight legs.
pub(crate) const MOST_WAGONS_AND_LEGS: &str =
    r#"{"commit":"2025-03-01T15:30Z","consignment":"C-1","from":"R100","kind":"plan","legs":[{"minutes":100000,"origin":"DE00001","ru":"LEG1","target":"DE00002"},{"minutes":100000,"origin":"DE00002","ru":"LEG2","target":"DE00003"},{"minutes":100000,"origin":"DE00003","ru":"LEG3","target":"DE00004"},{"minutes":100000,"origin":"DE00004","ru":"LEG4","target":"DE00005"},{"minutes":100000,"origin":"DE00005","ru":"LEG5","target":"DE00006"},{"minutes":100000,"origin":"DE00006","ru":"LEG6","target":"DE00007"},{"minutes":100000,"origin":"DE00007","ru":"LEG7","target":"DE00008"},{"minutes":100000,"origin":"DE00008","ru":"LEG8","target":"DE00009"}],"load":"loaded","no":1,"wagons":["218124710003","218124710011","218124710029","218124710037","218124710045","218124710052","218124710060","218124710078","218124710086","218124710094","218124710102","218124710110","218124710128","218124710136","218124710144","218124710151","218124710169","218124710177","218124710185","218124710193","218124710201","218124710219","218124710227","218124710235","218124710243","218124710250","218124710268","218124710276","218124710284","218124710292","218124710300","218124710318","218124710326","218124710334","218124710342","218124710359","218124710367","218124710375","218124710383","218124710391","218124710409","218124710417","218124710425","218124710433","218124710441","218124710458","218124710466","218124710474","218124710482","218124710490","218124710508","218124710516","218124710524","218124710532","218124710540","218124710557","218124710565","218124710573","218124710581","218124710599"]}
> {"no":1,"reply":"accepted"}"#;

/// The same over nine legs.
pub(crate) const NINE_LEGS: &str =
    r#"{"commit":"2025-03-01T15:30Z","consignment":"C-1","from":"R100","kind":"plan","legs":[{"minutes":100000,"origin":"DE00001","ru":"LEG1","target":"DE00002"},{"minutes":100000,"origin":"DE00002","ru":"LEG2","target":"DE00003"},{"minutes":100000,"origin":"DE00003","ru":"LEG3","target":"DE00004"},{"minutes":100000,"origin":"DE00004","ru":"LEG4","target":"DE00005"},{"minutes":100000,"origin":"DE00005","ru":"LEG5","target":"DE00006"},{"minutes":100000,"origin":"DE00006","ru":"LEG6","target":"DE00007"},{"minutes":100000,"origin":"DE00007","ru":"LEG7","target":"DE00008"},{"minutes":100000,"origin":"DE00008","ru":"LEG8","target":"DE00009"},{"minutes":100000,"origin":"DE00009","ru":"LEG9","target":"DE00010"}],"load":"loaded","no":1,"wagons":["218124710003","218124710011","218124710029","218124710037","218124710045","218124710052","218124710060","218124710078","218124710086","218124710094","218124710102","218124710110","218124710128","218124710136","218124710144","218124710151","218124710169","218124710177","218124710185","218124710193","218124710201","218124710219","218124710227","218124710235","218124710243","218124710250","218124710268","218124710276","218124710284","218124710292","218124710300","218124710318","218124710326","218124710334","218124710342","218124710359","218124710367","218124710375","218124710383","218124710391","218124710409","218124710417","218124710425","218124710433","218124710441","218124710458","218124710466","218124710474","218124710482","218124710490","218124710508","218124710516","218124710524","218124710532","218124710540","218124710557","218124710565","218124710573","218124710581","218124710599"]}
> {"code":1,"fault":"bad_plan"}"#;

/// The same with one wagon more.
pub(crate) const WAGONS_61: &str =
    r#"{"commit":"2025-03-01T15:30Z","consignment":"C-1","from":"R100","kind":"plan","legs":[{"minutes":100000,"origin":"DE00001","ru":"LEG1","target":"DE00002"},{"minutes":100000,"origin":"DE00002","ru":"LEG2","target":"DE00003"},{"minutes":100000,"origin":"DE00003","ru":"LEG3","target":"DE00004"},{"minutes":100000,"origin":"DE00004","ru":"LEG4","target":"DE00005"},{"minutes":100000,"origin":"DE00005","ru":"LEG5","target":"DE00006"},{"minutes":100000,"origin":"DE00006","ru":"LEG6","target":"DE00007"},{"minutes":100000,"origin":"DE00007","ru":"LEG7","target":"DE00008"},{"minutes":100000,"origin":"DE00008","ru":"LEG8","target":"DE00009"}],"load":"loaded","no":1,"wagons":["218124710003","218124710011","218124710029","218124710037","218124710045","218124710052","218124710060","218124710078","218124710086","218124710094","218124710102","218124710110","218124710128","218124710136","218124710144","218124710151","218124710169","218124710177","218124710185","218124710193","218124710201","218124710219","218124710227","218124710235","218124710243","218124710250","218124710268","218124710276","218124710284","218124710292","218124710300","218124710318","218124710326","218124710334","218124710342","218124710359","218124710367","218124710375","218124710383","218124710391","218124710409","218124710417","218124710425","218124710433","218124710441","218124710458","218124710466","218124710474","218124710482","218124710490","218124710508","218124710516","218124710524","218124710532","218124710540","218124710557","218124710565","218124710573","218124710581","218124710599","218124710607"]}
> {"code":4,"fault":"bad_plan"}"#;

// A delay of a minute with each of the numbers from 2 to 25, and an arrival in the yard: with the departure these make 51
// items for the lead, of which it is given 50 at a time.
const PAGES: &str =
    r#"{"at":"2025-03-01T07:00Z","delay":1,"from":"R101","kind":"exception","no":2,"wagon":"218124712173"}
> {"no":2,"reply":"accepted"}
{"at":"2025-03-01T07:00Z","delay":1,"from":"R101","kind":"exception","no":3,"wagon":"218124712173"}
> {"no":3,"reply":"accepted"}
{"at":"2025-03-01T07:00Z","delay":1,"from":"R101","kind":"exception","no":4,"wagon":"218124712173"}
> {"no":4,"reply":"accepted"}
{"at":"2025-03-01T07:00Z","delay":1,"from":"R101","kind":"exception","no":5,"wagon":"218124712173"}
> {"no":5,"reply":"accepted"}
{"at":"2025-03-01T07:00Z","delay":1,"from":"R101","kind":"exception","no":6,"wagon":"218124712173"}
> {"no":6,"reply":"accepted"}
{"at":"2025-03-01T07:00Z","delay":1,"from":"R101","kind":"exception","no":7,"wagon":"218124712173"}
> {"no":7,"reply":"accepted"}
{"at":"2025-03-01T07:00Z","delay":1,"from":"R101","kind":"exception","no":8,"wagon":"218124712173"}
> {"no":8,"reply":"accepted"}
{"at":"2025-03-01T07:00Z","delay":1,"from":"R101","kind":"exception","no":9,"wagon":"218124712173"}
> {"no":9,"reply":"accepted"}
{"at":"2025-03-01T07:00Z","delay":1,"from":"R101","kind":"exception","no":10,"wagon":"218124712173"}
> {"no":10,"reply":"accepted"}
{"at":"2025-03-01T07:00Z","delay":1,"from":"R101","kind":"exception","no":11,"wagon":"218124712173"}
> {"no":11,"reply":"accepted"}
{"at":"2025-03-01T07:00Z","delay":1,"from":"R101","kind":"exception","no":12,"wagon":"218124712173"}
> {"no":12,"reply":"accepted"}
{"at":"2025-03-01T07:00Z","delay":1,"from":"R101","kind":"exception","no":13,"wagon":"218124712173"}
> {"no":13,"reply":"accepted"}
{"at":"2025-03-01T07:00Z","delay":1,"from":"R101","kind":"exception","no":14,"wagon":"218124712173"}
> {"no":14,"reply":"accepted"}
{"at":"2025-03-01T07:00Z","delay":1,"from":"R101","kind":"exception","no":15,"wagon":"218124712173"}
> {"no":15,"reply":"accepted"}
{"at":"2025-03-01T07:00Z","delay":1,"from":"R101","kind":"exception","no":16,"wagon":"218124712173"}
> {"no":16,"reply":"accepted"}
{"at":"2025-03-01T07:00Z","delay":1,"from":"R101","kind":"exception","no":17,"wagon":"218124712173"}
> {"no":17,"reply":"accepted"}
{"at":"2025-03-01T07:00Z","delay":1,"from":"R101","kind":"exception","no":18,"wagon":"218124712173"}
> {"no":18,"reply":"accepted"}
{"at":"2025-03-01T07:00Z","delay":1,"from":"R101","kind":"exception","no":19,"wagon":"218124712173"}
> {"no":19,"reply":"accepted"}
{"at":"2025-03-01T07:00Z","delay":1,"from":"R101","kind":"exception","no":20,"wagon":"218124712173"}
> {"no":20,"reply":"accepted"}
{"at":"2025-03-01T07:00Z","delay":1,"from":"R101","kind":"exception","no":21,"wagon":"218124712173"}
> {"no":21,"reply":"accepted"}
{"at":"2025-03-01T07:00Z","delay":1,"from":"R101","kind":"exception","no":22,"wagon":"218124712173"}
> {"no":22,"reply":"accepted"}
{"at":"2025-03-01T07:00Z","delay":1,"from":"R101","kind":"exception","no":23,"wagon":"218124712173"}
> {"no":23,"reply":"accepted"}
{"at":"2025-03-01T07:00Z","delay":1,"from":"R101","kind":"exception","no":24,"wagon":"218124712173"}
> {"no":24,"reply":"accepted"}
{"at":"2025-03-01T07:00Z","delay":1,"from":"R101","kind":"exception","no":25,"wagon":"218124712173"}
> {"no":25,"reply":"accepted"}
{"at":"2025-03-01T10:40Z","from":"R101","kind":"yard_in","no":26,"place":"AT00002","wagon":"218124712173"}
> {"no":26,"reply":"accepted"}
{"from":"R100","kind":"fetch","limit":50}
> {"items":[{"item":1,"message":{"at":"2025-03-01T06:00Z","from":"R101","kind":"depart","no":1,"wagon":"218124712173"},"type":"notice"},{"at":"2025-03-01T15:00Z","item":2,"type":"eta","wagon":"218124712173"},{"item":3,"message":{"at":"2025-03-01T07:00Z","delay":1,"from":"R101","kind":"exception","no":2,"wagon":"218124712173"},"type":"notice"},{"at":"2025-03-01T15:01Z","item":4,"type":"eta","wagon":"218124712173"},{"item":5,"message":{"at":"2025-03-01T07:00Z","delay":1,"from":"R101","kind":"exception","no":3,"wagon":"218124712173"},"type":"notice"},{"at":"2025-03-01T15:02Z","item":6,"type":"eta","wagon":"218124712173"},{"item":7,"message":{"at":"2025-03-01T07:00Z","delay":1,"from":"R101","kind":"exception","no":4,"wagon":"218124712173"},"type":"notice"},{"at":"2025-03-01T15:03Z","item":8,"type":"eta","wagon":"218124712173"},{"item":9,"message":{"at":"2025-03-01T07:00Z","delay":1,"from":"R101","kind":"exception","no":5,"wagon":"218124712173"},"type":"notice"},{"at":"2025-03-01T15:04Z","item":10,"type":"eta","wagon":"218124712173"},{"item":11,"message":{"at":"2025-03-01T07:00Z","delay":1,"from":"R101","kind":"exception","no":6,"wagon":"218124712173"},"type":"notice"},{"at":"2025-03-01T15:05Z","item":12,"type":"eta","wagon":"218124712173"},{"item":13,"message":{"at":"2025-03-01T07:00Z","delay":1,"from":"R101","kind":"exception","no":7,"wagon":"218124712173"},"type":"notice"},{"at":"2025-03-01T15:06Z","item":14,"type":"eta","wagon":"218124712173"},{"item":15,"message":{"at":"2025-03-01T07:00Z","delay":1,"from":"R101","kind":"exception","no":8,"wagon":"218124712173"},"type":"notice"},{"at":"2025-03-01T15:07Z","item":16,"type":"eta","wagon":"218124712173"},{"item":17,"message":{"at":"2025-03-01T07:00Z","delay":1,"from":"R101","kind":"exception","no":9,"wagon":"218124712173"},"type":"notice"},{"at":"2025-03-01T15:08Z","item":18,"type":"eta","wagon":"218124712173"},{"item":19,"message":{"at":"2025-03-01T07:00Z","delay":1,"from":"R101","kind":"exception","no":10,"wagon":"218124712173"},"type":"notice"},{"at":"2025-03-01T15:09Z","item":20,"type":"eta","wagon":"218124712173"},{"item":21,"message":{"at":"2025-03-01T07:00Z","delay":1,"from":"R101","kind":"exception","no":11,"wagon":"218124712173"},"type":"notice"},{"at":"2025-03-01T15:10Z","item":22,"type":"eta","wagon":"218124712173"},{"item":23,"message":{"at":"2025-03-01T07:00Z","delay":1,"from":"R101","kind":"exception","no":12,"wagon":"218124712173"},"type":"notice"},{"at":"2025-03-01T15:11Z","item":24,"type":"eta","wagon":"218124712173"},{"item":25,"message":{"at":"2025-03-01T07:00Z","delay":1,"from":"R101","kind":"exception","no":13,"wagon":"218124712173"},"type":"notice"},{"at":"2025-03-01T15:12Z","item":26,"type":"eta","wagon":"218124712173"},{"item":27,"message":{"at":"2025-03-01T07:00Z","delay":1,"from":"R101","kind":"exception","no":14,"wagon":"218124712173"},"type":"notice"},{"at":"2025-03-01T15:13Z","item":28,"type":"eta","wagon":"218124712173"},{"item":29,"message":{"at":"2025-03-01T07:00Z","delay":1,"from":"R101","kind":"exception","no":15,"wagon":"218124712173"},"type":"notice"},{"at":"2025-03-01T15:14Z","item":30,"type":"eta","wagon":"218124712173"},{"item":31,"message":{"at":"2025-03-01T07:00Z","delay":1,"from":"R101","kind":"exception","no":16,"wagon":"218124712173"},"type":"notice"},{"at":"2025-03-01T15:15Z","item":32,"type":"eta","wagon":"218124712173"},{"item":33,"message":{"at":"2025-03-01T07:00Z","delay":1,"from":"R101","kind":"exception","no":17,"wagon":"218124712173"},"type":"notice"},{"at":"2025-03-01T15:16Z","item":34,"type":"eta","wagon":"218124712173"},{"item":35,"message":{"at":"2025-03-01T07:00Z","delay":1,"from":"R101","kind":"exception","no":18,"wagon":"218124712173"},"type":"notice"},{"at":"2025-03-01T15:17Z","item":36,"type":"eta","wagon":"218124712173"},{"item":37,"message":{"at":"2025-03-01T07:00Z","delay":1,"from":"R101","kind":"exception","no":19,"wagon":"218124712173"},"type":"notice"},{"at":"2025-03-01T15:18Z","item":38,"type":"eta","wagon":"218124712173"},{"item":39,"message":{"at":"2025-03-01T07:00Z","delay":1,"from":"R101","kind":"exception","no":20,"wagon":"218124712173"},"type":"notice"},{"at":"2025-03-01T15:19Z","item":40,"type":"eta","wagon":"218124712173"},{"item":41,"message":{"at":"2025-03-01T07:00Z","delay":1,"from":"R101","kind":"exception","no":21,"wagon":"218124712173"},"type":"notice"},{"at":"2025-03-01T15:20Z","item":42,"type":"eta","wagon":"218124712173"},{"item":43,"message":{"at":"2025-03-01T07:00Z","delay":1,"from":"R101","kind":"exception","no":22,"wagon":"218124712173"},"type":"notice"},{"at":"2025-03-01T15:21Z","item":44,"type":"eta","wagon":"218124712173"},{"item":45,"message":{"at":"2025-03-01T07:00Z","delay":1,"from":"R101","kind":"exception","no":23,"wagon":"218124712173"},"type":"notice"},{"at":"2025-03-01T15:22Z","item":46,"type":"eta","wagon":"218124712173"},{"item":47,"message":{"at":"2025-03-01T07:00Z","delay":1,"from":"R101","kind":"exception","no":24,"wagon":"218124712173"},"type":"notice"},{"at":"2025-03-01T15:23Z","item":48,"type":"eta","wagon":"218124712173"},{"item":49,"message":{"at":"2025-03-01T07:00Z","delay":1,"from":"R101","kind":"exception","no":25,"wagon":"218124712173"},"type":"notice"},{"at":"2025-03-01T15:24Z","item":50,"type":"eta","wagon":"218124712173"}],"reply":"items"}
{"from":"R100","item":50,"kind":"ack"}
> {"acknowledged":50,"reply":"acknowledged"}
{"from":"R100","kind":"fetch","limit":50}
> {"items":[{"item":51,"message":{"at":"2025-03-01T10:40Z","from":"R101","kind":"yard_in","no":26,"place":"AT00002","wagon":"218124712173"},"type":"notice"}],"reply":"items"}
{"from":"R100","item":51,"kind":"ack"}
> {"acknowledged":51,"reply":"acknowledged"}
{"from":"R100","kind":"fetch","limit":50}
> {"items":[],"reply":"items"}"#;

pub(crate) static EXAMPLES: &[(&str, &[&str])] = &[
    (
        "as many wagons and legs as a plan has",
        &[MOST_WAGONS_AND_LEGS],
    ),
    ("more legs than a plan has", &[NINE_LEGS]),
    ("more wagons than a plan has", &[WAGONS_61]),
    ("items come in pages", &[DEPARTED, PAGES]),
];

// Adds the line with a number between two texts.
fn add_numbered(lines: &mut Vec<u8>, before: &str, number: &str, behind: &str) -> Result<(), Fail> {
    lines.extend_from_slice(before.as_bytes())?;
    lines.extend_from_slice(number.as_bytes())?;
    Ok(add_line(lines, behind.as_bytes())?)
}

static DELAY: &str = r#"{"kind":"exception","from":"R101","no":"#;

static DELAY_OF_A_MINUTE: &str = r#","wagon":"218124712173","at":"2025-03-01T07:00Z","delay":1}"#;

static NUMBER: &str = r#"{"no":"#;

static ACCEPTED: &str = r#","reply":"accepted"}"#;

// Adds a delay of a minute with each of the numbers from 2 to 20,001.
fn add_delays(alloc: Global, script: &mut Script) -> Result<(), Fail> {
    for number in 2..20_002u64 {
        let digits = format!(in alloc; "{number}")?;
        add_numbered(&mut script.input, DELAY, &digits, DELAY_OF_A_MINUTE)?;
        add_numbered(&mut script.wanted, NUMBER, &digits, ACCEPTED)?;
    }
    Ok(())
}

static AFTER_DELAYS: &str = r#"{"from":"R100","item":64,"kind":"ack"}
> {"acknowledged":64,"reply":"acknowledged"}
{"from":"R100","kind":"fetch","limit":1}
> {"items":[{"item":65,"late_by":1,"type":"alert_begins","wagon":"218124712173"}],"reply":"items"}
{"from":"R100","item":40002,"kind":"ack"}
> {"acknowledged":40002,"reply":"acknowledged"}
{"from":"R100","kind":"fetch","limit":50}
> {"items":[{"at":"2025-03-15T12:20Z","item":40003,"type":"eta","wagon":"218124712173"}],"reply":"items"}
{"from":"R100","item":40003,"kind":"ack"}
> {"acknowledged":40003,"reply":"acknowledged"}
{"from":"R100","kind":"fetch","limit":50}
> {"items":[],"reply":"items"}"#;

static A_DEPARTURE: &[&str] = &[DEPARTED];

/// A departure, and then twenty thousand delays.
pub(crate) fn delays(alloc: Global) -> Result<Script, Fail> {
    let mut script = Script::of(alloc, A_DEPARTURE)?;
    add_delays(alloc, &mut script)?;
    script.add(AFTER_DELAYS)?;
    Ok(script)
}

#[test]
fn twenty_thousand_delays(rt: HostRuntime) -> Result<(), Fail> {
    let script = delays(rt.alloc())?;
    let output = first_output_of(&rt, rt.alloc(), &script.input)?;
    no_difference(&output, &script.wanted)
}

static ASK: &str = r#"{"kind":"ask","from":"R100","wagon":"318066552148"}"#;

// Gives the hub as many calls as it takes.
fn fill(hub: &mut Hub, call: &Call) -> Result<(), Fail> {
    for _ in 0..1_000_000u32 {
        if hub.apply(copy_call(call)?).is_err() {
            return Err(Fail::new("no reply"));
        }
    }
    Ok(())
}

// Whether the hub hands the call back.
fn is_handed_back(hub: &mut Hub, call: &Call) -> Result<bool, Fail> {
    match hub.apply(copy_call(call)?) {
        Err(HubFault::Full(other)) => Ok(other == *call),
        _ => Ok(false),
    }
}

// Fails unless the hub takes as many calls as that, and hands the next back.
fn is_full(alloc: Global, hub: &mut Hub) -> Result<(), Fail> {
    let ask = read_call(alloc, ASK.as_bytes())?;
    fill(hub, &ask)?;
    if is_handed_back(hub, &ask)? && hub.len() == 1_000_000 {
        Ok(())
    } else {
        Err(Fail::new("one more call"))
    }
}

static ON_A_FULL_HUB: &[&str] = &[
    r#"{"kind":"ask","from":"R100","wagon":"318066552148"}
> {"fault":"hub_full"}"#,
];

#[test]
fn as_many_calls_as_a_hub_takes(rt: HostRuntime) -> Result<(), Fail> {
    let mut hub = new_hub(rt.alloc())?;
    is_full(rt.alloc(), &mut hub)?;
    plays_on(&rt, rt.alloc(), &mut hub, ON_A_FULL_HUB)
}
