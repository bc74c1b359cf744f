use crate::play::{ANSWERED, BOTH_DEPARTED, DEPARTED, OFFERED};

// A delay of three quarters of an hour, told three times.
const DELAYED: &str =
    r#"{"at":"2025-03-01T07:00Z","delay":45,"from":"R101","kind":"exception","no":2,"wagon":"218124712173"}
> {"no":2,"reply":"accepted"}
{"at":"2025-03-01T07:00Z","delay":45,"from":"R101","kind":"exception","no":2,"wagon":"218124712173"}
> {"no":2,"reply":"accepted"}
{"at":"2025-03-01T07:00Z","delay":45,"from":"R101","kind":"exception","no":2,"wagon":"218124712173"}
> {"no":2,"reply":"accepted"}"#;

const DELAY_COUNTS_ONCE: &str = r#"{"from":"R102","kind":"ask","wagon":"218124712173"}
> {"record":{"commit":"2025-03-01T15:30Z","consignment":"C-1","estimates":[{"at":"2025-03-01T11:45Z","leg":0},{"at":"2025-03-01T15:45Z","leg":1}],"eta":"2025-03-01T15:45Z","events":[{"by":"R100","kind":"plan","no":1},{"at":"2025-03-01T05:30Z","by":"R100","kind":"release","no":2},{"at":"2025-03-01T06:00Z","by":"R101","kind":"depart","no":1},{"at":"2025-03-01T07:00Z","by":"R101","delay":45,"kind":"exception","no":2}],"late":true,"lead":"R100","leg":0,"load":"loaded","place":null,"responsible":"R101","stage":"running","status":"loaded_on_journey","wagon":"218124712173"},"reply":"record"}
{"from":"R100","kind":"fetch","limit":10}
> {"items":[{"item":1,"message":{"at":"2025-03-01T06:00Z","from":"R101","kind":"depart","no":1,"wagon":"218124712173"},"type":"notice"},{"at":"2025-03-01T15:00Z","item":2,"type":"eta","wagon":"218124712173"},{"item":3,"message":{"at":"2025-03-01T07:00Z","delay":45,"from":"R101","kind":"exception","no":2,"wagon":"218124712173"},"type":"notice"},{"at":"2025-03-01T15:45Z","item":4,"type":"eta","wagon":"218124712173"},{"item":5,"late_by":15,"type":"alert_begins","wagon":"218124712173"}],"reply":"items"}
{"from":"R100","item":4,"kind":"ack"}
> {"acknowledged":4,"reply":"acknowledged"}
{"from":"R100","kind":"fetch","limit":10}
> {"items":[{"item":5,"late_by":15,"type":"alert_begins","wagon":"218124712173"}],"reply":"items"}"#;

// Another delay, and the fields of the departure under another kind.
const NUMBERS_REUSED: &str =
    r#"{"at":"2025-03-01T07:00Z","delay":46,"from":"R101","kind":"exception","no":2,"wagon":"218124712173"}
> {"no":2,"reply":"refused","why":"number_reused"}
{"at":"2025-03-01T06:00Z","from":"R101","kind":"eti","no":1,"wagon":"218124712173"}
> {"no":1,"reply":"refused","why":"number_reused"}
{"at":"2025-03-01T07:00Z","delay":45,"from":"R101","kind":"exception","no":2,"wagon":"218124712173"}
> {"no":2,"reply":"accepted"}
{"from":"R100","kind":"fetch","limit":10}
> {"items":[{"item":1,"message":{"at":"2025-03-01T06:00Z","from":"R101","kind":"depart","no":1,"wagon":"218124712173"},"type":"notice"},{"at":"2025-03-01T15:00Z","item":2,"type":"eta","wagon":"218124712173"},{"item":3,"message":{"at":"2025-03-01T07:00Z","delay":45,"from":"R101","kind":"exception","no":2,"wagon":"218124712173"},"type":"notice"},{"at":"2025-03-01T15:45Z","item":4,"type":"eta","wagon":"218124712173"},{"item":5,"late_by":15,"type":"alert_begins","wagon":"218124712173"}],"reply":"items"}"#;

const ACKNOWLEDGED: &str = r#"{"from":"R100","kind":"fetch","limit":2}
> {"items":[{"item":1,"message":{"at":"2025-03-01T06:00Z","from":"R101","kind":"depart","no":1,"wagon":"218124712173"},"type":"notice"},{"at":"2025-03-01T15:00Z","item":2,"type":"eta","wagon":"218124712173"}],"reply":"items"}
{"from":"R100","item":1,"kind":"ack"}
> {"acknowledged":1,"reply":"acknowledged"}
{"from":"R100","kind":"fetch","limit":2}
> {"items":[{"at":"2025-03-01T15:00Z","item":2,"type":"eta","wagon":"218124712173"},{"item":3,"message":{"at":"2025-03-01T07:00Z","delay":45,"from":"R101","kind":"exception","no":2,"wagon":"218124712173"},"type":"notice"}],"reply":"items"}
{"from":"R100","item":99,"kind":"ack"}
> {"last":5,"reply":"refused","why":"ack_ahead"}
{"from":"R100","item":0,"kind":"ack"}
> {"acknowledged":1,"reply":"acknowledged"}
{"from":"R100","kind":"fetch","limit":50}
> {"items":[{"at":"2025-03-01T15:00Z","item":2,"type":"eta","wagon":"218124712173"},{"item":3,"message":{"at":"2025-03-01T07:00Z","delay":45,"from":"R101","kind":"exception","no":2,"wagon":"218124712173"},"type":"notice"},{"at":"2025-03-01T15:45Z","item":4,"type":"eta","wagon":"218124712173"},{"item":5,"late_by":15,"type":"alert_begins","wagon":"218124712173"}],"reply":"items"}"#;

// A reported estimate ends the delays before it.
const REPORTED: &str = r#"{"from":"R100","item":5,"kind":"ack"}
> {"acknowledged":5,"reply":"acknowledged"}
{"at":"2025-03-01T11:10Z","from":"R101","kind":"eti","no":3,"wagon":"218124712173"}
> {"no":3,"reply":"accepted"}
{"from":"R101","kind":"ask","wagon":"218124712173"}
> {"record":{"commit":"2025-03-01T15:30Z","consignment":"C-1","estimates":[{"at":"2025-03-01T11:10Z","leg":0},{"at":"2025-03-01T15:10Z","leg":1}],"eta":"2025-03-01T15:10Z","events":[{"by":"R100","kind":"plan","no":1},{"at":"2025-03-01T05:30Z","by":"R100","kind":"release","no":2},{"at":"2025-03-01T06:00Z","by":"R101","kind":"depart","no":1},{"at":"2025-03-01T07:00Z","by":"R101","delay":45,"kind":"exception","no":2},{"at":"2025-03-01T11:10Z","by":"R101","kind":"eti","no":3}],"late":false,"lead":"R100","leg":0,"load":"loaded","place":null,"responsible":"R101","stage":"running","status":"loaded_on_journey","wagon":"218124712173"},"reply":"record"}
{"from":"R100","kind":"fetch","limit":10}
> {"items":[{"at":"2025-03-01T15:10Z","item":6,"type":"eta","wagon":"218124712173"},{"item":7,"type":"alert_ends","wagon":"218124712173"}],"reply":"items"}
{"at":"2025-03-01T11:00Z","delay":5,"from":"R101","kind":"exception","no":4,"wagon":"218124712173"}
> {"no":4,"reply":"accepted"}
{"from":"R100","kind":"fetch","limit":10}
> {"items":[{"at":"2025-03-01T15:10Z","item":6,"type":"eta","wagon":"218124712173"},{"item":7,"type":"alert_ends","wagon":"218124712173"},{"item":8,"message":{"at":"2025-03-01T11:00Z","delay":5,"from":"R101","kind":"exception","no":4,"wagon":"218124712173"},"type":"notice"},{"at":"2025-03-01T15:15Z","item":9,"type":"eta","wagon":"218124712173"}],"reply":"items"}
{"from":"R101","kind":"ask","wagon":"218124712173"}
> {"record":{"commit":"2025-03-01T15:30Z","consignment":"C-1","estimates":[{"at":"2025-03-01T11:15Z","leg":0},{"at":"2025-03-01T15:15Z","leg":1}],"eta":"2025-03-01T15:15Z","events":[{"by":"R100","kind":"plan","no":1},{"at":"2025-03-01T05:30Z","by":"R100","kind":"release","no":2},{"at":"2025-03-01T06:00Z","by":"R101","kind":"depart","no":1},{"at":"2025-03-01T07:00Z","by":"R101","delay":45,"kind":"exception","no":2},{"at":"2025-03-01T11:10Z","by":"R101","kind":"eti","no":3},{"at":"2025-03-01T11:00Z","by":"R101","delay":5,"kind":"exception","no":4}],"late":false,"lead":"R100","leg":0,"load":"loaded","place":null,"responsible":"R101","stage":"running","status":"loaded_on_journey","wagon":"218124712173"},"reply":"record"}"#;

// Late is what comes after the commitment, and an alert begins once.
const ALERTS: &str = r#"{"from":"R100","item":2,"kind":"ack"}
> {"acknowledged":2,"reply":"acknowledged"}
{"at":"2025-03-01T11:30Z","from":"R101","kind":"eti","no":2,"wagon":"218124712173"}
> {"no":2,"reply":"accepted"}
{"from":"R100","kind":"fetch","limit":10}
> {"items":[{"at":"2025-03-01T15:30Z","item":3,"type":"eta","wagon":"218124712173"}],"reply":"items"}
{"from":"R101","kind":"ask","wagon":"218124712173"}
> {"record":{"commit":"2025-03-01T15:30Z","consignment":"C-1","estimates":[{"at":"2025-03-01T11:30Z","leg":0},{"at":"2025-03-01T15:30Z","leg":1}],"eta":"2025-03-01T15:30Z","events":[{"by":"R100","kind":"plan","no":1},{"at":"2025-03-01T05:30Z","by":"R100","kind":"release","no":2},{"at":"2025-03-01T06:00Z","by":"R101","kind":"depart","no":1},{"at":"2025-03-01T11:30Z","by":"R101","kind":"eti","no":2}],"late":false,"lead":"R100","leg":0,"load":"loaded","place":null,"responsible":"R101","stage":"running","status":"loaded_on_journey","wagon":"218124712173"},"reply":"record"}
{"at":"2025-03-01T11:31Z","from":"R101","kind":"eti","no":3,"wagon":"218124712173"}
> {"no":3,"reply":"accepted"}
{"from":"R100","kind":"fetch","limit":10}
> {"items":[{"at":"2025-03-01T15:30Z","item":3,"type":"eta","wagon":"218124712173"},{"at":"2025-03-01T15:31Z","item":4,"type":"eta","wagon":"218124712173"},{"item":5,"late_by":1,"type":"alert_begins","wagon":"218124712173"}],"reply":"items"}
{"at":"2025-03-01T11:32Z","from":"R101","kind":"eti","no":4,"wagon":"218124712173"}
> {"no":4,"reply":"accepted"}
{"from":"R100","kind":"fetch","limit":10}
> {"items":[{"at":"2025-03-01T15:30Z","item":3,"type":"eta","wagon":"218124712173"},{"at":"2025-03-01T15:31Z","item":4,"type":"eta","wagon":"218124712173"},{"item":5,"late_by":1,"type":"alert_begins","wagon":"218124712173"},{"at":"2025-03-01T15:32Z","item":6,"type":"eta","wagon":"218124712173"}],"reply":"items"}"#;

const BEYOND_CALENDAR: &str =
    r#"{"at":"2199-12-31T23:59Z","from":"R101","kind":"eti","no":2,"wagon":"218124712173"}
> {"no":2,"reply":"refused","wagon":"218124712173","why":"beyond_calendar"}"#;

const END_OF_CALENDAR: &str =
    r#"{"at":"2199-12-31T23:59Z","from":"R102","kind":"eti","no":3,"wagon":"218124712173"}
> {"no":3,"reply":"accepted"}
{"from":"R102","kind":"ask","wagon":"218124712173"}
> {"record":{"commit":"2025-03-01T15:30Z","consignment":"C-1","estimates":[{"at":"2199-12-31T23:59Z","leg":1}],"eta":"2199-12-31T23:59Z","events":[{"by":"R100","kind":"plan","no":1},{"at":"2025-03-01T05:30Z","by":"R100","kind":"release","no":2},{"at":"2025-03-01T06:00Z","by":"R101","kind":"depart","no":1},{"at":"2025-03-01T10:40Z","by":"R101","kind":"yard_in","no":2,"place":"AT00002"},{"at":"2025-03-01T10:50Z","by":"R101","kind":"offer","no":6,"place":"AT00002"},{"at":"2025-03-01T11:10Z","by":"R102","kind":"answer","no":1,"received":true},{"at":"2199-12-31T23:59Z","by":"R102","kind":"eti","no":3}],"late":true,"lead":"R100","leg":1,"load":"loaded","place":"AT00002","responsible":"R102","stage":"in_yard","status":"loaded_on_journey","wagon":"218124712173"},"reply":"record"}"#;

const DEVIATIONS: &str = r#"{"consignment":"C-1","from":"R100","kind":"deviation"}
> {"records":[{"commit":"2025-03-01T15:30Z","consignment":"C-1","estimates":[{"at":"2025-03-01T11:45Z","leg":0},{"at":"2025-03-01T15:45Z","leg":1}],"eta":"2025-03-01T15:45Z","events":[{"by":"R100","kind":"plan","no":1},{"at":"2025-03-01T05:30Z","by":"R100","kind":"release","no":2},{"at":"2025-03-01T06:00Z","by":"R101","kind":"depart","no":1},{"at":"2025-03-01T07:00Z","by":"R101","delay":45,"kind":"exception","no":2}],"late":true,"lead":"R100","leg":0,"load":"loaded","place":null,"responsible":"R101","stage":"running","status":"loaded_on_journey","wagon":"218124712173"}],"reply":"records"}
{"consignment":"C-1","from":"R101","kind":"deviation"}
> {"reply":"refused","why":"not_yours"}
{"consignment":"C-9","from":"R100","kind":"deviation"}
> {"reply":"refused","why":"unknown_consignment"}
{"from":"R999","kind":"ask","wagon":"218124712173"}
> {"reply":"refused","wagon":"218124712173","why":"not_yours"}"#;

const TIMES_OF_LEGS: &str =
    r#"{"from":"R102","kind":"leg_time","leg":1,"minutes":200,"no":1,"wagon":"218124712173"}
> {"no":1,"reply":"accepted"}
{"from":"R101","kind":"leg_time","leg":0,"minutes":200,"no":2,"wagon":"218124712173"}
> {"no":2,"reply":"refused","wagon":"218124712173","why":"leg_started"}
{"from":"R101","kind":"leg_time","leg":5,"minutes":200,"no":3,"wagon":"218124712173"}
> {"no":3,"reply":"refused","wagon":"218124712173","why":"no_such_leg"}
{"from":"R100","kind":"eti_ask","no":3,"wagon":"218124712173"}
> {"no":3,"reply":"accepted"}
{"from":"R101","kind":"fetch","limit":10}
> {"items":[{"item":1,"message":{"commit":"2025-03-01T15:30Z","consignment":"C-1","from":"R100","kind":"plan","legs":[{"minutes":300,"origin":"DE00001","ru":"R101","target":"AT00002"},{"minutes":240,"origin":"AT00002","ru":"R102","target":"IT00003"}],"load":"loaded","no":1,"wagons":["218124712173","338478961232"]},"type":"notice"},{"item":2,"message":{"at":"2025-03-01T05:30Z","from":"R100","kind":"release","no":2,"wagon":"218124712173"},"type":"notice"},{"item":3,"message":{"from":"R100","kind":"eti_ask","no":3,"wagon":"218124712173"},"type":"notice"}],"reply":"items"}
{"from":"R100","kind":"fetch","limit":10}
> {"items":[{"item":1,"message":{"at":"2025-03-01T06:00Z","from":"R101","kind":"depart","no":1,"wagon":"218124712173"},"type":"notice"},{"at":"2025-03-01T15:00Z","item":2,"type":"eta","wagon":"218124712173"},{"at":"2025-03-01T14:20Z","item":3,"type":"eta","wagon":"218124712173"}],"reply":"items"}
{"from":"R100","kind":"ask","wagon":"218124712173"}
> {"record":{"commit":"2025-03-01T15:30Z","consignment":"C-1","estimates":[{"at":"2025-03-01T11:00Z","leg":0},{"at":"2025-03-01T14:20Z","leg":1}],"eta":"2025-03-01T14:20Z","events":[{"by":"R100","kind":"plan","no":1},{"at":"2025-03-01T05:30Z","by":"R100","kind":"release","no":2},{"at":"2025-03-01T06:00Z","by":"R101","kind":"depart","no":1},{"by":"R102","kind":"leg_time","leg":1,"minutes":200,"no":1},{"by":"R100","kind":"eti_ask","no":3}],"late":false,"lead":"R100","leg":0,"load":"loaded","place":null,"responsible":"R101","stage":"running","status":"loaded_on_journey","wagon":"218124712173"},"reply":"record"}"#;

pub(crate) static EXAMPLES: &[(&str, &[&str])] = &[
    (
        "a delay counts once",
        &[DEPARTED, DELAYED, DELAY_COUNTS_ONCE],
    ),
    (
        "a number is used once",
        &[DEPARTED, DELAYED, NUMBERS_REUSED],
    ),
    (
        "items are kept until they are acknowledged",
        &[DEPARTED, DELAYED, ACKNOWLEDGED],
    ),
    ("a reported estimate", &[DEPARTED, DELAYED, REPORTED]),
    ("alerts", &[DEPARTED, ALERTS]),
    ("past the end of the calendar", &[DEPARTED, BEYOND_CALENDAR]),
    (
        "the end of the calendar",
        &[DEPARTED, BOTH_DEPARTED, OFFERED, ANSWERED, END_OF_CALENDAR],
    ),
    ("deviations", &[DEPARTED, DELAYED, DEVIATIONS]),
    ("times of legs", &[DEPARTED, TIMES_OF_LEGS]),
];
