//! What is shown of the wagons that a railway may see.
use crate::board::asked::{answer_to, body_of, status_of, two_railways};
use std::str;
use std::test::*;

const FIRST_RECORDS: &str =
    r#"{"records":[{"commit":"2025-03-01T15:30Z","consignment":"C-1","estimates":[{"at":"2025-03-01T10:30Z","leg":0},{"at":"2025-03-01T14:30Z","leg":1}],"eta":"2025-03-01T14:30Z","events":[],"late":false,"lead":"R100","leg":0,"load":"loaded","place":"DE00001","responsible":null,"stage":"released","status":"loading","wagon":"218124712173"}],"reply":"records"}
"#;

const SECOND_RECORDS: &str =
    r#"{"records":[{"commit":"2025-03-01T15:30Z","consignment":"C-2","estimates":[{"at":"2025-03-01T10:30Z","leg":0}],"eta":"2025-03-01T10:30Z","events":[],"late":false,"lead":"R200","leg":0,"load":"loaded","place":"DE00001","responsible":null,"stage":"released","status":"loading","wagon":"338478961232"}],"reply":"records"}
"#;

const NO_RECORDS: &str = r#"{"records":[],"reply":"records"}
"#;

const SECOND_LEGS: &str =
    r#"{"legs":[{"legs":[{"minutes":300,"origin":"DE00001","ru":"R201","target":"AT00002"}],"wagon":"338478961232"}]}
"#;

// A path, and the body of its answer: each railway sees the wagons of its trips, and no other.
static LISTS: [(&str, &str); 7] = [
    ("/R100/wagons.json", FIRST_RECORDS),
    ("/R101/wagons.json", FIRST_RECORDS),
    ("/R102/wagons.json", FIRST_RECORDS),
    ("/R200/wagons.json", SECOND_RECORDS),
    ("/R999/wagons.json", NO_RECORDS),
    ("/R201/legs.json", SECOND_LEGS),
    ("/R999/legs.json", "{\"legs\":[]}\n"),
];

#[test]
fn each_railway_sees_its_wagons(rt: HostRuntime) -> Result<(), Fail> {
    let alloc = rt.alloc();
    let hub = two_railways(&rt, alloc)?;
    for (path, body) in LISTS {
        let lines = format!(in alloc; "GET {path} HTTP/1.1\r\nhost: 127.0.0.1:7080\r\n")?;
        let answer = answer_to(&rt, alloc, &hub, None, &lines)?;
        assert!(rt; status_of(&answer) == "200" && body_of(&answer) == body);
    }
    Ok(())
}

// The tag of the lists of this run, after ten calls.
const TAG: &str = "\r\netag: \"7-10\"\r\n";

#[test]
fn a_list_that_is_known_is_not_sent_again(rt: HostRuntime) -> Result<(), Fail> {
    let alloc = rt.alloc();
    let hub = two_railways(&rt, alloc)?;
    for (tag, status, body) in [
        ("\"7-10\"", "304", ""),
        ("\"7-9\"", "200", FIRST_RECORDS),
        ("\"6-10\"", "200", FIRST_RECORDS),
    ] {
        let lines = format!(in alloc;
            "GET /R100/wagons.json HTTP/1.1\r\nhost: 127.0.0.1:7080\r\nif-none-match: {tag}\r\n"
        )?;
        let answer = answer_to(&rt, alloc, &hub, None, &lines)?;
        assert!(rt; status_of(&answer) == status && body_of(&answer) == body);
        assert!(rt; str::from_utf8(&answer).unwrap_or("").contains(TAG));
    }
    Ok(())
}
