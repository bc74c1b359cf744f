use crate::play::{ANSWERED, BOTH_DEPARTED, DEPARTED, OFFERED};

const OTHER_LEGS: &str =
    r#"{"from":"R100","kind":"reroute","legs":[{"minutes":180,"origin":"AT00002","ru":"R103","target":"CH00004"}],"no":3,"wagon":"218124712173"}
> {"no":3,"reply":"accepted"}
{"from":"R100","kind":"ask","wagon":"218124712173"}
> {"record":{"commit":"2025-03-01T15:30Z","consignment":"C-1","estimates":[{"at":"2025-03-01T11:00Z","leg":0},{"at":"2025-03-01T14:00Z","leg":1}],"eta":"2025-03-01T14:00Z","events":[{"by":"R100","kind":"plan","no":1},{"at":"2025-03-01T05:30Z","by":"R100","kind":"release","no":2},{"at":"2025-03-01T06:00Z","by":"R101","kind":"depart","no":1},{"by":"R100","kind":"reroute","leg":1,"no":3}],"late":false,"lead":"R100","leg":0,"load":"loaded","place":null,"responsible":"R101","stage":"running","status":"loaded_on_journey","wagon":"218124712173"},"reply":"record"}
{"from":"R101","kind":"fetch","limit":50}
> {"items":[{"item":1,"message":{"commit":"2025-03-01T15:30Z","consignment":"C-1","from":"R100","kind":"plan","legs":[{"minutes":300,"origin":"DE00001","ru":"R101","target":"AT00002"},{"minutes":240,"origin":"AT00002","ru":"R102","target":"IT00003"}],"load":"loaded","no":1,"wagons":["218124712173","338478961232"]},"type":"notice"},{"item":2,"message":{"at":"2025-03-01T05:30Z","from":"R100","kind":"release","no":2,"wagon":"218124712173"},"type":"notice"},{"item":3,"message":{"from":"R100","kind":"reroute","legs":[{"minutes":180,"origin":"AT00002","ru":"R103","target":"CH00004"}],"no":3,"wagon":"218124712173"},"type":"notice"}],"reply":"items"}
{"from":"R102","kind":"fetch","limit":50}
> {"items":[{"item":1,"message":{"commit":"2025-03-01T15:30Z","consignment":"C-1","from":"R100","kind":"plan","legs":[{"minutes":300,"origin":"DE00001","ru":"R101","target":"AT00002"},{"minutes":240,"origin":"AT00002","ru":"R102","target":"IT00003"}],"load":"loaded","no":1,"wagons":["218124712173","338478961232"]},"type":"notice"},{"at":"2025-03-01T10:30Z","item":2,"leg":0,"type":"eti","wagon":"218124712173"},{"at":"2025-03-01T11:00Z","item":3,"leg":0,"type":"eti","wagon":"218124712173"},{"item":4,"message":{"from":"R100","kind":"reroute","legs":[{"minutes":180,"origin":"AT00002","ru":"R103","target":"CH00004"}],"no":3,"wagon":"218124712173"},"type":"notice"}],"reply":"items"}
{"from":"R103","kind":"fetch","limit":50}
> {"items":[{"item":1,"message":{"from":"R100","kind":"reroute","legs":[{"minutes":180,"origin":"AT00002","ru":"R103","target":"CH00004"}],"no":3,"wagon":"218124712173"},"type":"notice"},{"at":"2025-03-01T11:00Z","item":2,"leg":0,"type":"eti","wagon":"218124712173"}],"reply":"items"}
{"from":"R100","kind":"fetch","limit":50}
> {"items":[{"item":1,"message":{"at":"2025-03-01T06:00Z","from":"R101","kind":"depart","no":1,"wagon":"218124712173"},"type":"notice"},{"at":"2025-03-01T15:00Z","item":2,"type":"eta","wagon":"218124712173"}],"reply":"items"}
{"from":"R102","kind":"ask","wagon":"218124712173"}
> {"reply":"refused","wagon":"218124712173","why":"not_yours"}
{"from":"R100","kind":"reroute","legs":[{"minutes":180,"origin":"AT00002","ru":"R101","target":"CH00004"}],"no":4,"wagon":"218124712173"}
> {"no":4,"reply":"refused","wagon":"218124712173","why":"wrong_next"}
{"from":"R100","kind":"reroute","legs":[{"minutes":180,"origin":"AT00009","ru":"R103","target":"CH00004"}],"no":5,"wagon":"218124712173"}
> {"no":5,"reply":"refused","wagon":"218124712173","why":"wrong_place"}
{"from":"R101","kind":"reroute","legs":[{"minutes":180,"origin":"AT00002","ru":"R103","target":"CH00004"}],"no":2,"wagon":"218124712173"}
> {"no":2,"reply":"refused","wagon":"218124712173","why":"not_yours"}
{"from":"R100","kind":"reroute","legs":[],"no":6,"wagon":"218124712173"}
> {"code":1,"fault":"bad_plan"}"#;

const TOO_MANY_LEGS: &str =
    r#"{"from":"R100","kind":"reroute","legs":[{"minutes":60,"origin":"IT00003","ru":"R103","target":"IT00004"},{"minutes":60,"origin":"IT00004","ru":"R104","target":"IT00005"},{"minutes":60,"origin":"IT00005","ru":"R105","target":"IT00006"},{"minutes":60,"origin":"IT00006","ru":"R106","target":"IT00007"},{"minutes":60,"origin":"IT00007","ru":"R107","target":"IT00008"},{"minutes":60,"origin":"IT00008","ru":"R108","target":"IT00009"},{"minutes":60,"origin":"IT00009","ru":"R109","target":"IT00010"}],"no":4,"wagon":"218124712173"}
> {"no":4,"reply":"refused","wagon":"218124712173","why":"too_many_legs"}"#;

/// A plan that loads a unit on the first of its wagons.
pub(crate) const WITH_UNIT: &str =
    r#"{"commit":"2025-03-01T15:30Z","consignment":"C-1","from":"R100","kind":"plan","legs":[{"minutes":300,"origin":"DE00001","ru":"R101","target":"AT00002"},{"minutes":240,"origin":"AT00002","ru":"R102","target":"IT00003"}],"load":"loaded","no":1,"units":[{"unit":"CSQU3054383","wagon":"218124712173"}],"wagons":["218124712173","338478961232"]}
> {"no":1,"reply":"accepted"}"#;

const UNIT: &str = r#"{"from":"R102","kind":"ask_unit","unit":"CSQU3054383"}
> {"record":{"commit":"2025-03-01T15:30Z","consignment":"C-1","estimates":[],"eta":null,"events":[{"by":"R100","kind":"plan","no":1}],"late":false,"lead":"R100","leg":0,"load":"loaded","place":"DE00001","responsible":null,"stage":"planned","status":"loading","units":["CSQU3054383"],"wagon":"218124712173"},"reply":"record"}
{"from":"R102","kind":"ask","wagon":"338478961232"}
> {"record":{"commit":"2025-03-01T15:30Z","consignment":"C-1","estimates":[],"eta":null,"events":[{"by":"R100","kind":"plan","no":1}],"late":false,"lead":"R100","leg":0,"load":"loaded","place":"DE00001","responsible":null,"stage":"planned","status":"loading","wagon":"338478961232"},"reply":"record"}
{"commit":"2025-03-01T15:30Z","consignment":"C-2","from":"R200","kind":"plan","legs":[{"minutes":300,"origin":"DE00001","ru":"R201","target":"AT00002"}],"load":"loaded","no":1,"units":[{"unit":"CSQU3054383","wagon":"318066552148"}],"wagons":["318066552148"]}
> {"no":1,"reply":"refused","wagon":"318066552148","why":"unit_busy"}
{"from":"R100","kind":"ask_unit","unit":"AAAU0000060"}
> {"reply":"refused","why":"unknown_unit"}
{"from":"R999","kind":"ask_unit","unit":"CSQU3054383"}
> {"reply":"refused","why":"not_yours"}
{"from":"R101","kind":"fetch","limit":1}
> {"items":[{"item":1,"message":{"commit":"2025-03-01T15:30Z","consignment":"C-1","from":"R100","kind":"plan","legs":[{"minutes":300,"origin":"DE00001","ru":"R101","target":"AT00002"},{"minutes":240,"origin":"AT00002","ru":"R102","target":"IT00003"}],"load":"loaded","no":1,"units":[{"unit":"CSQU3054383","wagon":"218124712173"}],"wagons":["218124712173","338478961232"]},"type":"notice"}],"reply":"items"}"#;

// A wrong check digit, a unit that is loaded twice, and one on another's wagon.
const BAD_UNITS: &str =
    r#"{"commit":"2025-03-01T15:30Z","consignment":"C-1","from":"R100","kind":"plan","legs":[{"minutes":300,"origin":"DE00001","ru":"R101","target":"AT00002"},{"minutes":240,"origin":"AT00002","ru":"R102","target":"IT00003"}],"load":"loaded","no":1,"units":[{"unit":"CSQU3054384","wagon":"218124712173"}],"wagons":["218124712173","338478961232"]}
> {"fault":"bad_field","field":"units"}
{"commit":"2025-03-01T15:30Z","consignment":"C-1","from":"R100","kind":"plan","legs":[{"minutes":300,"origin":"DE00001","ru":"R101","target":"AT00002"},{"minutes":240,"origin":"AT00002","ru":"R102","target":"IT00003"}],"load":"loaded","no":1,"units":[{"unit":"CSQU3054383","wagon":"218124712173"},{"unit":"CSQU3054383","wagon":"218124712173"}],"wagons":["218124712173","338478961232"]}
> {"code":7,"fault":"bad_plan"}
{"commit":"2025-03-01T15:30Z","consignment":"C-1","from":"R100","kind":"plan","legs":[{"minutes":300,"origin":"DE00001","ru":"R101","target":"AT00002"},{"minutes":240,"origin":"AT00002","ru":"R102","target":"IT00003"}],"load":"loaded","no":1,"units":[{"unit":"CSQU3054383","wagon":"318066552148"}],"wagons":["218124712173","338478961232"]}
> {"code":8,"fault":"bad_plan"}"#;

pub(crate) static EXAMPLES: &[(&str, &[&str])] = &[
    ("a wagon gets other legs", &[DEPARTED, OTHER_LEGS]),
    (
        "a wagon gets too many legs",
        &[DEPARTED, BOTH_DEPARTED, OFFERED, ANSWERED, TOO_MANY_LEGS],
    ),
    ("a unit is loaded", &[WITH_UNIT, UNIT]),
    ("units that no plan can load", &[BAD_UNITS]),
];
