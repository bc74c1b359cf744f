use crate::play::{new_hub, plays_on};
use call_reader::read_call;
use hub_core::Hub;
use std::alloc::Global;
use std::test::Fail;
use taf_messages::Call;

static A_PLAN: &[&str] = &[
    r#"{"kind":"plan","from":"R100","no":1,"consignment":"C-1","load":"loaded","commit":"2025-03-01T15:30Z","wagons":["218124712173","338478961232"],"legs":[{"ru":"R101","origin":"DE00001","target":"AT00002","minutes":300},{"ru":"R102","origin":"AT00002","target":"IT00003","minutes":240}]}
> {"no":1,"reply":"accepted"}"#,
];

static RELEASE: &str =
    r#"{"at":"2025-03-01T05:30Z","from":"R100","kind":"release","no":2,"wagon":"218124712173"}"#;

const OTHER_RELEASE: &str =
    r#"{"at":"2025-03-01T05:30Z","from":"R100","kind":"release","no":3,"wagon":"338478961232"}"#;

const SAME_NUMBER: &str =
    r#"{"at":"2025-03-01T05:30Z","from":"R100","kind":"release","no":2,"wagon":"338478961232"}"#;

const DEPARTURE: &str =
    r#"{"at":"2025-03-01T06:00Z","from":"R101","kind":"depart","no":1,"wagon":"218124712173"}"#;

const ASK: &str = r#"{"from":"R100","kind":"ask","wagon":"338478961232"}"#;

// Calls, and whether they and the release of the first planned wagon may overtake each other.
static OTHERS: [(&str, bool); 4] = [
    (OTHER_RELEASE, true),
    (SAME_NUMBER, false),
    (DEPARTURE, false),
    (ASK, false),
];

fn call(alloc: Global, line: &str) -> Result<Call, Fail> {
    Ok(read_call(alloc, line.as_bytes())?)
}

// Fails unless both calls are apart or both aren't, whichever is named first.
fn check(hub: &Hub, call: &Call, other: &Call, apart: bool) -> Result<(), Fail> {
    if hub.apart(call, other) == apart && hub.apart(other, call) == apart {
        Ok(())
    } else {
        Err(Fail::new("told otherwise"))
    }
}

// Fails unless the hub tells which of the calls may overtake the release.
fn check_all(alloc: Global, hub: &Hub) -> Result<(), Fail> {
    let release = call(alloc, RELEASE)?;
    for (line, apart) in &OTHERS {
        let other = call(alloc, line)?;
        check(hub, &release, &other, *apart)?;
    }
    Ok(())
}

#[test]
fn messages_that_may_overtake_each_other(rt: HostRuntime) -> Result<(), Fail> {
    let mut hub = new_hub(rt.alloc())?;
    plays_on(&rt, rt.alloc(), &mut hub, A_PLAN)?;
    check_all(rt.alloc(), &hub)
}
