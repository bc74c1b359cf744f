use crate::play::{ANSWERED, BOTH_DEPARTED, DEPARTED, OFFERED};

const NOT_OFFERED: &str = r#"{"from":"R100","kind":"ask","wagon":"218124712173"}
> {"record":{"commit":"2025-03-01T15:30Z","consignment":"C-1","estimates":[{"at":"2025-03-01T11:00Z","leg":0},{"at":"2025-03-01T15:00Z","leg":1}],"eta":"2025-03-01T15:00Z","events":[{"by":"R100","kind":"plan","no":1},{"at":"2025-03-01T05:30Z","by":"R100","kind":"release","no":2},{"at":"2025-03-01T06:00Z","by":"R101","kind":"depart","no":1},{"at":"2025-03-01T10:40Z","by":"R101","kind":"yard_in","no":2,"place":"AT00002"}],"late":false,"lead":"R100","leg":0,"load":"loaded","place":"AT00002","responsible":"R101","stage":"in_yard","status":"loaded_on_journey","wagon":"218124712173"},"reply":"record"}
{"from":"R100","kind":"ask","wagon":"338478961232"}
> {"record":{"commit":"2025-03-01T15:30Z","consignment":"C-1","estimates":[{"at":"2025-03-01T11:00Z","leg":0},{"at":"2025-03-01T15:00Z","leg":1}],"eta":"2025-03-01T15:00Z","events":[{"by":"R100","kind":"plan","no":1},{"at":"2025-03-01T05:30Z","by":"R100","kind":"release","no":3},{"at":"2025-03-01T06:00Z","by":"R101","kind":"depart","no":3}],"late":false,"lead":"R100","leg":0,"load":"loaded","place":null,"responsible":"R101","stage":"running","status":"loaded_on_journey","wagon":"338478961232"},"reply":"record"}"#;

/// After the interchange: the records of both wagons, and what each railway was sent.
pub(crate) const AFTER_INTERCHANGE: &str = r#"{"from":"R100","kind":"ask","wagon":"218124712173"}
> {"record":{"commit":"2025-03-01T15:30Z","consignment":"C-1","estimates":[{"at":"2025-03-01T15:10Z","leg":1}],"eta":"2025-03-01T15:10Z","events":[{"by":"R100","kind":"plan","no":1},{"at":"2025-03-01T05:30Z","by":"R100","kind":"release","no":2},{"at":"2025-03-01T06:00Z","by":"R101","kind":"depart","no":1},{"at":"2025-03-01T10:40Z","by":"R101","kind":"yard_in","no":2,"place":"AT00002"},{"at":"2025-03-01T10:50Z","by":"R101","kind":"offer","no":6,"place":"AT00002"},{"at":"2025-03-01T11:10Z","by":"R102","kind":"answer","no":1,"received":true}],"late":false,"lead":"R100","leg":1,"load":"loaded","place":"AT00002","responsible":"R102","stage":"in_yard","status":"loaded_on_journey","wagon":"218124712173"},"reply":"record"}
{"from":"R100","kind":"ask","wagon":"338478961232"}
> {"record":{"commit":"2025-03-01T15:30Z","consignment":"C-1","estimates":[{"at":"2025-03-01T11:00Z","leg":0},{"at":"2025-03-01T15:00Z","leg":1}],"eta":"2025-03-01T15:00Z","events":[{"by":"R100","kind":"plan","no":1},{"at":"2025-03-01T05:30Z","by":"R100","kind":"release","no":3},{"at":"2025-03-01T06:00Z","by":"R101","kind":"depart","no":3},{"at":"2025-03-01T10:45Z","by":"R101","kind":"yard_in","no":5,"place":"AT00002"},{"at":"2025-03-01T10:50Z","by":"R101","kind":"offer","no":6,"place":"AT00002"},{"at":"2025-03-01T11:10Z","by":"R102","kind":"answer","no":1,"received":false}],"late":false,"lead":"R100","leg":0,"load":"loaded","place":"AT00002","responsible":"R101","stage":"in_yard","status":"loaded_on_journey","wagon":"338478961232"},"reply":"record"}
{"from":"R100","kind":"fetch","limit":50}
> {"items":[{"item":1,"message":{"at":"2025-03-01T06:00Z","from":"R101","kind":"depart","no":1,"wagon":"218124712173"},"type":"notice"},{"at":"2025-03-01T15:00Z","item":2,"type":"eta","wagon":"218124712173"},{"item":3,"message":{"at":"2025-03-01T10:40Z","from":"R101","kind":"yard_in","no":2,"place":"AT00002","wagon":"218124712173"},"type":"notice"},{"item":4,"message":{"at":"2025-03-01T06:00Z","from":"R101","kind":"depart","no":3,"wagon":"338478961232"},"type":"notice"},{"at":"2025-03-01T15:00Z","item":5,"type":"eta","wagon":"338478961232"},{"item":6,"message":{"at":"2025-03-01T10:45Z","from":"R101","kind":"yard_in","no":5,"place":"AT00002","wagon":"338478961232"},"type":"notice"},{"item":7,"message":{"at":"2025-03-01T11:10Z","from":"R102","kind":"answer","manager":"I300","no":1,"offer":6,"offerer":"R101","received":["218124712173"],"refused":["338478961232"]},"type":"notice"},{"at":"2025-03-01T15:10Z","item":8,"type":"eta","wagon":"218124712173"}],"reply":"items"}
{"from":"R101","kind":"fetch","limit":50}
> {"items":[{"item":1,"message":{"commit":"2025-03-01T15:30Z","consignment":"C-1","from":"R100","kind":"plan","legs":[{"minutes":300,"origin":"DE00001","ru":"R101","target":"AT00002"},{"minutes":240,"origin":"AT00002","ru":"R102","target":"IT00003"}],"load":"loaded","no":1,"wagons":["218124712173","338478961232"]},"type":"notice"},{"item":2,"message":{"at":"2025-03-01T05:30Z","from":"R100","kind":"release","no":2,"wagon":"218124712173"},"type":"notice"},{"item":3,"message":{"at":"2025-03-01T05:30Z","from":"R100","kind":"release","no":3,"wagon":"338478961232"},"type":"notice"},{"item":4,"message":{"at":"2025-03-01T11:10Z","from":"R102","kind":"answer","manager":"I300","no":1,"offer":6,"offerer":"R101","received":["218124712173"],"refused":["338478961232"]},"type":"notice"}],"reply":"items"}
{"from":"R102","kind":"fetch","limit":50}
> {"items":[{"item":1,"message":{"commit":"2025-03-01T15:30Z","consignment":"C-1","from":"R100","kind":"plan","legs":[{"minutes":300,"origin":"DE00001","ru":"R101","target":"AT00002"},{"minutes":240,"origin":"AT00002","ru":"R102","target":"IT00003"}],"load":"loaded","no":1,"wagons":["218124712173","338478961232"]},"type":"notice"},{"at":"2025-03-01T10:30Z","item":2,"leg":0,"type":"eti","wagon":"218124712173"},{"at":"2025-03-01T11:00Z","item":3,"leg":0,"type":"eti","wagon":"218124712173"},{"at":"2025-03-01T10:30Z","item":4,"leg":0,"type":"eti","wagon":"338478961232"},{"at":"2025-03-01T11:00Z","item":5,"leg":0,"type":"eti","wagon":"338478961232"},{"item":6,"message":{"at":"2025-03-01T10:50Z","from":"R101","kind":"offer","no":6,"place":"AT00002","to":"R102","train":"T-77","wagons":["218124712173","338478961232"]},"type":"notice"}],"reply":"items"}
{"from":"I300","kind":"fetch","limit":50}
> {"items":[{"at":"2025-03-01T11:10Z","from":"R102","item":1,"offer":6,"offerer":"R101","type":"sub","wagons":["218124712173"]}],"reply":"items"}"#;

// Together the lists name each wagon once, or the offer stands.
const LISTS: &str =
    r#"{"at":"2025-03-01T11:10Z","from":"R102","kind":"answer","no":1,"offer":6,"offerer":"R101","received":["218124712173","338478961232"],"refused":["338478961232"]}
> {"no":1,"reply":"refused","why":"lists_differ"}
{"at":"2025-03-01T11:10Z","from":"R102","kind":"answer","no":2,"offer":6,"offerer":"R101","received":["218124712173"],"refused":[]}
> {"no":2,"reply":"refused","why":"lists_differ"}
{"at":"2025-03-01T11:10Z","from":"R102","kind":"answer","no":3,"offer":6,"offerer":"R101","received":["218124712173","338478961232"],"refused":[]}
> {"no":3,"reply":"accepted"}
{"from":"R102","kind":"ask","wagon":"338478961232"}
> {"record":{"commit":"2025-03-01T15:30Z","consignment":"C-1","estimates":[{"at":"2025-03-01T15:10Z","leg":1}],"eta":"2025-03-01T15:10Z","events":[{"by":"R100","kind":"plan","no":1},{"at":"2025-03-01T05:30Z","by":"R100","kind":"release","no":3},{"at":"2025-03-01T06:00Z","by":"R101","kind":"depart","no":3},{"at":"2025-03-01T10:45Z","by":"R101","kind":"yard_in","no":5,"place":"AT00002"},{"at":"2025-03-01T10:50Z","by":"R101","kind":"offer","no":6,"place":"AT00002"},{"at":"2025-03-01T11:10Z","by":"R102","kind":"answer","no":3,"received":true}],"late":false,"lead":"R100","leg":1,"load":"loaded","place":"AT00002","responsible":"R102","stage":"in_yard","status":"loaded_on_journey","wagon":"338478961232"},"reply":"record"}"#;

const WITHDRAWN: &str =
    r#"{"at":"2025-03-01T11:00Z","from":"R101","kind":"withdraw","no":7,"offer":6}
> {"no":7,"reply":"accepted"}
{"from":"R100","kind":"ask","wagon":"218124712173"}
> {"record":{"commit":"2025-03-01T15:30Z","consignment":"C-1","estimates":[{"at":"2025-03-01T11:00Z","leg":0},{"at":"2025-03-01T15:00Z","leg":1}],"eta":"2025-03-01T15:00Z","events":[{"by":"R100","kind":"plan","no":1},{"at":"2025-03-01T05:30Z","by":"R100","kind":"release","no":2},{"at":"2025-03-01T06:00Z","by":"R101","kind":"depart","no":1},{"at":"2025-03-01T10:40Z","by":"R101","kind":"yard_in","no":2,"place":"AT00002"},{"at":"2025-03-01T10:50Z","by":"R101","kind":"offer","no":6,"place":"AT00002"},{"at":"2025-03-01T11:00Z","by":"R101","kind":"withdraw","no":7}],"late":false,"lead":"R100","leg":0,"load":"loaded","place":"AT00002","responsible":"R101","stage":"in_yard","status":"loaded_on_journey","wagon":"218124712173"},"reply":"record"}
{"from":"R100","kind":"ask","wagon":"338478961232"}
> {"record":{"commit":"2025-03-01T15:30Z","consignment":"C-1","estimates":[{"at":"2025-03-01T11:00Z","leg":0},{"at":"2025-03-01T15:00Z","leg":1}],"eta":"2025-03-01T15:00Z","events":[{"by":"R100","kind":"plan","no":1},{"at":"2025-03-01T05:30Z","by":"R100","kind":"release","no":3},{"at":"2025-03-01T06:00Z","by":"R101","kind":"depart","no":3},{"at":"2025-03-01T10:45Z","by":"R101","kind":"yard_in","no":5,"place":"AT00002"},{"at":"2025-03-01T10:50Z","by":"R101","kind":"offer","no":6,"place":"AT00002"},{"at":"2025-03-01T11:00Z","by":"R101","kind":"withdraw","no":7}],"late":false,"lead":"R100","leg":0,"load":"loaded","place":"AT00002","responsible":"R101","stage":"in_yard","status":"loaded_on_journey","wagon":"338478961232"},"reply":"record"}
{"at":"2025-03-01T11:00Z","from":"R101","kind":"withdraw","no":8,"offer":6}
> {"no":8,"reply":"refused","why":"offer_closed"}
{"at":"2025-03-01T11:00Z","from":"R101","kind":"withdraw","no":9,"offer":99}
> {"no":9,"reply":"refused","why":"unknown_offer"}
{"at":"2025-03-01T11:10Z","from":"R102","kind":"answer","no":1,"offer":6,"offerer":"R101","received":["218124712173","338478961232"],"refused":[]}
> {"no":1,"reply":"refused","why":"offer_closed"}"#;

const DELIVERED: &str =
    r#"{"at":"2025-03-01T11:30Z","from":"R102","kind":"yard_out","no":3,"place":"AT00009","wagon":"218124712173"}
> {"no":3,"reply":"refused","wagon":"218124712173","why":"wrong_place"}
{"at":"2025-03-01T11:30Z","from":"R102","kind":"yard_out","no":4,"place":"AT00002","wagon":"218124712173"}
> {"no":4,"reply":"accepted"}
{"at":"2025-03-01T15:00Z","from":"R102","kind":"arrival","no":5,"wagon":"218124712173"}
> {"no":5,"reply":"accepted"}
{"at":"2025-03-01T15:20Z","from":"R102","kind":"delivery","no":6,"wagon":"218124712173"}
> {"no":6,"reply":"accepted"}
{"from":"R100","kind":"ask","wagon":"218124712173"}
> {"record":{"commit":"2025-03-01T15:30Z","consignment":"C-1","estimates":[{"at":"2025-03-01T15:20Z","leg":1}],"eta":"2025-03-01T15:20Z","events":[{"by":"R100","kind":"plan","no":1},{"at":"2025-03-01T05:30Z","by":"R100","kind":"release","no":2},{"at":"2025-03-01T06:00Z","by":"R101","kind":"depart","no":1},{"at":"2025-03-01T10:40Z","by":"R101","kind":"yard_in","no":2,"place":"AT00002"},{"at":"2025-03-01T10:50Z","by":"R101","kind":"offer","no":6,"place":"AT00002"},{"at":"2025-03-01T11:10Z","by":"R102","kind":"answer","no":1,"received":true},{"at":"2025-03-01T11:30Z","by":"R102","kind":"yard_out","no":4,"place":"AT00002"},{"at":"2025-03-01T15:00Z","by":"R102","kind":"arrival","no":5},{"at":"2025-03-01T15:20Z","by":"R102","kind":"delivery","no":6}],"late":false,"lead":"R100","leg":1,"load":"loaded","place":"IT00003","responsible":null,"stage":"delivered","status":"unloading","wagon":"218124712173"},"reply":"record"}
{"commit":"2025-03-01T15:30Z","consignment":"C-1","from":"R100","kind":"plan","legs":[{"minutes":300,"origin":"DE00001","ru":"R101","target":"AT00002"},{"minutes":240,"origin":"AT00002","ru":"R102","target":"IT00003"}],"load":"loaded","no":4,"wagons":["218124712173"]}
> {"no":4,"reply":"refused","why":"consignment_taken"}
{"commit":"2025-03-01T15:30Z","consignment":"C-2","from":"R100","kind":"plan","legs":[{"minutes":300,"origin":"DE00001","ru":"R101","target":"AT00002"},{"minutes":240,"origin":"AT00002","ru":"R102","target":"IT00003"}],"load":"loaded","no":5,"wagons":["338478961232"]}
> {"no":5,"reply":"refused","wagon":"338478961232","why":"wagon_busy"}
{"commit":"2025-03-01T15:30Z","consignment":"C-2","from":"R100","kind":"plan","legs":[{"minutes":300,"origin":"DE00001","ru":"R101","target":"AT00002"},{"minutes":240,"origin":"AT00002","ru":"R102","target":"IT00003"}],"load":"loaded","no":6,"wagons":["218124712173"]}
> {"no":6,"reply":"accepted"}
{"from":"R100","kind":"ask","wagon":"218124712173"}
> {"record":{"commit":"2025-03-01T15:30Z","consignment":"C-2","estimates":[],"eta":null,"events":[{"by":"R100","kind":"plan","no":6}],"late":false,"lead":"R100","leg":0,"load":"loaded","place":"DE00001","responsible":null,"stage":"planned","status":"loading","wagon":"218124712173"},"reply":"record"}"#;

pub(crate) static EXAMPLES: &[(&str, &[&str])] = &[
    (
        "an offer is made for all wagons or none",
        &[DEPARTED, BOTH_DEPARTED, NOT_OFFERED],
    ),
    (
        "an answer receives and refuses",
        &[
            DEPARTED,
            BOTH_DEPARTED,
            OFFERED,
            ANSWERED,
            AFTER_INTERCHANGE,
        ],
    ),
    (
        "an answer to other wagons",
        &[DEPARTED, BOTH_DEPARTED, OFFERED, LISTS],
    ),
    (
        "an offer is withdrawn",
        &[DEPARTED, BOTH_DEPARTED, OFFERED, WITHDRAWN],
    ),
    (
        "a wagon is delivered and planned anew",
        &[DEPARTED, BOTH_DEPARTED, OFFERED, ANSWERED, DELIVERED],
    ),
];
