//! What is shown of one wagon, of the page and of the board itself.
use crate::board::asked::{answer_to, body_of, status_of, two_railways};
use board_page::{HEAD, TAIL};
use std::test::*;

// A path, and the status and the body of its answer.
static SHOWN: [(&str, &str, &str); 7] = [
    // What the railway's own question for the wagon gets.
    (
        "/R100/wagons/218124712173.json",
        "200",
        r#"{"record":{"commit":"2025-03-01T15:30Z","consignment":"C-1","estimates":[{"at":"2025-03-01T10:30Z","leg":0},{"at":"2025-03-01T14:30Z","leg":1}],"eta":"2025-03-01T14:30Z","events":[{"by":"R100","kind":"plan","no":1},{"at":"2025-03-01T05:30Z","by":"R100","kind":"release","no":2}],"late":false,"lead":"R100","leg":0,"load":"loaded","place":"DE00001","responsible":null,"stage":"released","status":"loading","wagon":"218124712173"},"reply":"record"}
"#,
    ),
    (
        "/R102/wagons/218124712173/legs.json",
        "200",
        r#"{"legs":[{"minutes":300,"origin":"DE00001","ru":"R101","target":"AT00002"},{"minutes":240,"origin":"AT00002","ru":"R102","target":"IT00003"}],"wagon":"218124712173"}
"#,
    ),
    // It is no wagon of this railway.
    (
        "/R200/wagons/218124712173.json",
        "404",
        r#"{"reply":"refused","wagon":"218124712173","why":"not_yours"}
"#,
    ),
    (
        "/R200/wagons/218124712173/legs.json",
        "404",
        r#"{"reply":"refused","wagon":"218124712173","why":"not_yours"}
"#,
    ),
    // It has no plan.
    (
        "/R100/wagons/318066552148.json",
        "404",
        r#"{"reply":"refused","wagon":"318066552148","why":"unknown_wagon"}
"#,
    ),
    ("/health", "200", "ok\n"),
    // Digits that are no vehicle number.
    ("/R100/wagons/218124712174.json", "404", ""),
];

#[test]
fn each_path_shows_its_resource(rt: HostRuntime) -> Result<(), Fail> {
    let alloc = rt.alloc();
    let hub = two_railways(&rt, alloc)?;
    for (path, status, body) in SHOWN {
        let lines = format!(in alloc; "GET {path} HTTP/1.1\r\nhost: 127.0.0.1:7080\r\n")?;
        let answer = answer_to(&rt, alloc, &hub, None, &lines)?;
        assert!(rt; status_of(&answer) == status && body_of(&answer) == body);
    }
    Ok(())
}

// The bytes of a whole answer.
const WHOLE: &str =
    "HTTP/1.1 200 OK\r\ncache-control: no-store\r\nx-content-type-options: nosniff\r\nreferrer-policy: no-referrer\r\nx-frame-options: DENY\r\ncross-origin-resource-policy: same-origin\r\ncontent-type: text/plain; charset=utf-8\r\ncontent-length: 3\r\nconnection: close\r\n\r\nok\n";

#[test]
fn an_answer_has_its_fields(rt: HostRuntime) -> Result<(), Fail> {
    let alloc = rt.alloc();
    let hub = two_railways(&rt, alloc)?;
    let lines = "GET /health HTTP/1.1\r\nhost: localhost:7080\r\n";
    let answer = answer_to(&rt, alloc, &hub, None, lines)?;
    assert!(rt; answer.as_slice() == WHOLE.as_bytes());
    // To HEAD the same without its body.
    let lines = "HEAD /health HTTP/1.1\r\nhost: localhost:7080\r\n";
    let answer = answer_to(&rt, alloc, &hub, None, lines)?;
    assert!(rt; status_of(&answer) == "200" && body_of(&answer) == "");
    Ok(())
}

#[test]
fn the_page_is_shown_for_each_railway(rt: HostRuntime) -> Result<(), Fail> {
    let alloc = rt.alloc();
    let hub = two_railways(&rt, alloc)?;
    for path in ["/", "/R101/", "/R999/"] {
        let lines = format!(in alloc; "GET {path} HTTP/1.1\r\nhost: 127.0.0.1:7080\r\n")?;
        let answer = answer_to(&rt, alloc, &hub, None, &lines)?;
        let body = body_of(&answer);
        assert!(rt; status_of(&answer) == "200");
        assert!(rt; body.strip_prefix(HEAD) == Some(TAIL));
    }
    Ok(())
}
