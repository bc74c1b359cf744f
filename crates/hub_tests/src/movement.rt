use crate::play::DEPARTED;

/// The records of both wagons, and what each railway was sent.
pub(crate) const AFTER_DEPARTURE: &str = r#"{"from":"R102","kind":"ask","wagon":"218124712173"}
> {"record":{"commit":"2025-03-01T15:30Z","consignment":"C-1","estimates":[{"at":"2025-03-01T11:00Z","leg":0},{"at":"2025-03-01T15:00Z","leg":1}],"eta":"2025-03-01T15:00Z","events":[{"by":"R100","kind":"plan","no":1},{"at":"2025-03-01T05:30Z","by":"R100","kind":"release","no":2},{"at":"2025-03-01T06:00Z","by":"R101","kind":"depart","no":1}],"late":false,"lead":"R100","leg":0,"load":"loaded","place":null,"responsible":"R101","stage":"running","status":"loaded_on_journey","wagon":"218124712173"},"reply":"record"}
{"from":"R100","kind":"ask","wagon":"218124712173"}
> {"record":{"commit":"2025-03-01T15:30Z","consignment":"C-1","estimates":[{"at":"2025-03-01T11:00Z","leg":0},{"at":"2025-03-01T15:00Z","leg":1}],"eta":"2025-03-01T15:00Z","events":[{"by":"R100","kind":"plan","no":1},{"at":"2025-03-01T05:30Z","by":"R100","kind":"release","no":2},{"at":"2025-03-01T06:00Z","by":"R101","kind":"depart","no":1}],"late":false,"lead":"R100","leg":0,"load":"loaded","place":null,"responsible":"R101","stage":"running","status":"loaded_on_journey","wagon":"218124712173"},"reply":"record"}
{"from":"R101","kind":"ask","wagon":"338478961232"}
> {"record":{"commit":"2025-03-01T15:30Z","consignment":"C-1","estimates":[],"eta":null,"events":[{"by":"R100","kind":"plan","no":1}],"late":false,"lead":"R100","leg":0,"load":"loaded","place":"DE00001","responsible":null,"stage":"planned","status":"loading","wagon":"338478961232"},"reply":"record"}
{"from":"R100","kind":"fetch","limit":10}
> {"items":[{"item":1,"message":{"at":"2025-03-01T06:00Z","from":"R101","kind":"depart","no":1,"wagon":"218124712173"},"type":"notice"},{"at":"2025-03-01T15:00Z","item":2,"type":"eta","wagon":"218124712173"}],"reply":"items"}
{"from":"R102","kind":"fetch","limit":1}
> {"items":[{"item":1,"message":{"commit":"2025-03-01T15:30Z","consignment":"C-1","from":"R100","kind":"plan","legs":[{"minutes":300,"origin":"DE00001","ru":"R101","target":"AT00002"},{"minutes":240,"origin":"AT00002","ru":"R102","target":"IT00003"}],"load":"loaded","no":1,"wagons":["218124712173","338478961232"]},"type":"notice"}],"reply":"items"}
{"from":"R101","kind":"fetch","limit":10}
> {"items":[{"item":1,"message":{"commit":"2025-03-01T15:30Z","consignment":"C-1","from":"R100","kind":"plan","legs":[{"minutes":300,"origin":"DE00001","ru":"R101","target":"AT00002"},{"minutes":240,"origin":"AT00002","ru":"R102","target":"IT00003"}],"load":"loaded","no":1,"wagons":["218124712173","338478961232"]},"type":"notice"},{"item":2,"message":{"at":"2025-03-01T05:30Z","from":"R100","kind":"release","no":2,"wagon":"218124712173"},"type":"notice"}],"reply":"items"}
{"from":"R102","kind":"fetch","limit":10}
> {"items":[{"item":1,"message":{"commit":"2025-03-01T15:30Z","consignment":"C-1","from":"R100","kind":"plan","legs":[{"minutes":300,"origin":"DE00001","ru":"R101","target":"AT00002"},{"minutes":240,"origin":"AT00002","ru":"R102","target":"IT00003"}],"load":"loaded","no":1,"wagons":["218124712173","338478961232"]},"type":"notice"},{"at":"2025-03-01T10:30Z","item":2,"leg":0,"type":"eti","wagon":"218124712173"},{"at":"2025-03-01T11:00Z","item":3,"leg":0,"type":"eti","wagon":"218124712173"}],"reply":"items"}
{"from":"R103","kind":"fetch","limit":10}
> {"items":[],"reply":"items"}"#;

const UNKNOWN: &str = r#"{"from":"R100","kind":"ask","wagon":"318066552148"}
> {"reply":"refused","wagon":"318066552148","why":"unknown_wagon"}
{"at":"2025-03-01T05:30Z","from":"R100","kind":"release","no":1,"wagon":"318066552148"}
> {"no":1,"reply":"refused","wagon":"318066552148","why":"unknown_wagon"}
{"consignment":"C-1","from":"R100","kind":"deviation"}
> {"reply":"refused","why":"unknown_consignment"}
{"from":"R100","kind":"fetch","limit":50}
> {"items":[],"reply":"items"}
{"from":"R100","item":0,"kind":"ack"}
> {"acknowledged":0,"reply":"acknowledged"}"#;

// A refused message stays refused when it is repeated.
const BEFORE_RELEASE: &str =
    r#"{"kind":"plan","from":"R100","no":1,"consignment":"C-1","load":"loaded","commit":"2025-03-01T15:30Z","wagons":["218124712173","338478961232"],"legs":[{"ru":"R101","origin":"DE00001","target":"AT00002","minutes":300},{"ru":"R102","origin":"AT00002","target":"IT00003","minutes":240}]}
> {"no":1,"reply":"accepted"}
{"at":"2025-03-01T06:00Z","from":"R101","kind":"depart","no":1,"wagon":"218124712173"}
> {"no":1,"reply":"refused","wagon":"218124712173","why":"wrong_stage"}
{"at":"2025-03-01T05:30Z","from":"R100","kind":"release","no":2,"wagon":"218124712173"}
> {"no":2,"reply":"accepted"}
{"at":"2025-03-01T06:00Z","from":"R101","kind":"depart","no":1,"wagon":"218124712173"}
> {"no":1,"reply":"refused","wagon":"218124712173","why":"wrong_stage"}
{"at":"2025-03-01T06:00Z","from":"R101","kind":"depart","no":2,"wagon":"218124712173"}
> {"no":2,"reply":"accepted"}"#;

const EMPTY_OVER_ONE_LEG: &str =
    r#"{"commit":"2025-03-01T15:30Z","consignment":"C-2","from":"R200","kind":"plan","legs":[{"minutes":300,"origin":"DE00001","ru":"R201","target":"AT00002"}],"load":"empty","no":1,"wagons":["338478961232"]}
> {"no":1,"reply":"accepted"}
{"at":"2025-03-01T05:30Z","from":"R200","kind":"release","no":2,"wagon":"338478961232"}
> {"no":2,"reply":"accepted"}
{"at":"2025-03-01T06:00Z","from":"R201","kind":"depart","no":1,"wagon":"338478961232"}
> {"no":1,"reply":"accepted"}
{"at":"2025-03-01T08:00Z","from":"R201","kind":"yard_in","no":2,"place":"DE00003","wagon":"338478961232"}
> {"no":2,"reply":"accepted"}
{"at":"2025-03-01T08:10Z","from":"R201","kind":"yard_out","no":3,"place":"DE00004","wagon":"338478961232"}
> {"no":3,"reply":"refused","wagon":"338478961232","why":"wrong_place"}
{"at":"2025-03-01T08:10Z","from":"R201","kind":"yard_out","no":4,"place":"DE00003","wagon":"338478961232"}
> {"no":4,"reply":"accepted"}
{"at":"2025-03-01T08:30Z","delay":45,"from":"R201","kind":"exception","no":5,"wagon":"338478961232"}
> {"no":5,"reply":"accepted"}
{"at":"2025-03-01T11:00Z","from":"R201","kind":"arrival","no":6,"wagon":"338478961232"}
> {"no":6,"reply":"accepted"}
{"at":"2025-03-01T11:20Z","from":"R201","kind":"delivery","no":7,"wagon":"338478961232"}
> {"no":7,"reply":"accepted"}
{"at":"2025-03-01T11:20Z","from":"R201","kind":"delivery","no":8,"wagon":"338478961232"}
> {"no":8,"reply":"refused","wagon":"338478961232","why":"wrong_stage"}
{"from":"R200","kind":"ask","wagon":"338478961232"}
> {"record":{"commit":"2025-03-01T15:30Z","consignment":"C-2","estimates":[{"at":"2025-03-01T11:20Z","leg":0}],"eta":"2025-03-01T11:20Z","events":[{"by":"R200","kind":"plan","no":1},{"at":"2025-03-01T05:30Z","by":"R200","kind":"release","no":2},{"at":"2025-03-01T06:00Z","by":"R201","kind":"depart","no":1},{"at":"2025-03-01T08:00Z","by":"R201","kind":"yard_in","no":2,"place":"DE00003"},{"at":"2025-03-01T08:10Z","by":"R201","kind":"yard_out","no":4,"place":"DE00003"},{"at":"2025-03-01T08:30Z","by":"R201","delay":45,"kind":"exception","no":5},{"at":"2025-03-01T11:00Z","by":"R201","kind":"arrival","no":6},{"at":"2025-03-01T11:20Z","by":"R201","kind":"delivery","no":7}],"late":false,"lead":"R200","leg":0,"load":"empty","place":"AT00002","responsible":null,"stage":"delivered","status":"fleet_control","wagon":"338478961232"},"reply":"record"}"#;

const ARRIVAL_ON_THE_FIRST_LEG: &str =
    r#"{"at":"2025-03-01T10:00Z","from":"R101","kind":"arrival","no":2,"wagon":"218124712173"}
> {"no":2,"reply":"refused","wagon":"218124712173","why":"not_last_leg"}"#;

pub(crate) static EXAMPLES: &[(&str, &[&str])] = &[
    ("a wagon departs", &[DEPARTED, AFTER_DEPARTURE]),
    ("an unknown wagon", &[UNKNOWN]),
    ("a departure before its release", &[BEFORE_RELEASE]),
    ("an empty wagon over one leg", &[EMPTY_OVER_ONE_LEG]),
    (
        "an arrival on the first of two legs",
        &[DEPARTED, ARRIVAL_ON_THE_FIRST_LEG],
    ),
];
