//! What is refused.
use crate::board::asked::{answer_to, body_of, status_of, two_railways};
use railway_keys::KeyTable;
use std::str;
use std::test::*;

// The lines of a request, the status of its answer and a line that it has.
static REFUSED: [(&str, &str, &str); 8] = [
    (
        "GET /health HTTP/1.1\r\nhost: evil.example:7080\r\n",
        "421",
        "",
    ),
    (
        "GET /health HTTP/1.1\r\nhost: 127.0.0.1:7081\r\n",
        "421",
        "",
    ),
    (
        "GET /R100/wagons.json HTTP/1.1\r\nhost: 127.0.0.1:7080\r\norigin: http://evil.example\r\n",
        "403",
        "",
    ),
    (
        "GET /health HTTP/1.1\r\nhost: 127.0.0.1:7080\r\norigin: http://localhost:7080\r\n",
        "200",
        "",
    ),
    (
        "POST /R100/wagons.json HTTP/1.1\r\nhost: 127.0.0.1:7080\r\ncontent-length: 0\r\n",
        "405",
        "\r\nallow: GET, HEAD\r\n",
    ),
    ("GET /R100 HTTP/1.1\r\nhost: 127.0.0.1:7080\r\n", "404", ""),
    ("GET /r100/ HTTP/1.1\r\nhost: 127.0.0.1:7080\r\n", "404", ""),
    (
        "GET /R100/wagons.json/ HTTP/1.1\r\nhost: 127.0.0.1:7080\r\n",
        "404",
        "",
    ),
];

#[test]
fn a_request_is_refused_with_its_reason(rt: HostRuntime) -> Result<(), Fail> {
    let alloc = rt.alloc();
    let hub = two_railways(&rt, alloc)?;
    for (lines, status, field) in REFUSED {
        let answer = answer_to(&rt, alloc, &hub, None, lines)?;
        assert!(rt; status_of(&answer) == status);
        assert!(rt; str::from_utf8(&answer).unwrap_or("").contains(field));
        assert!(rt; status == "200" || body_of(&answer) == "");
    }
    Ok(())
}

// The key of R100 is `green-signal-101`.
static KEYS: &str = "R100 edc77e5b0841753cfaf348c4f1c08a3d8dd80d2a5e6cab9bb7201d1aae433dfa";

// A path, a field and the status.
static KEYED: [(&str, &str, &str); 7] = [
    (
        "/R100/wagons.json",
        "authorization: Bearer green-signal-101\r\n",
        "200",
    ),
    (
        "/R100/wagons/218124712173/legs.json",
        "authorization: Bearer green-signal-101\r\n",
        "200",
    ),
    (
        "/R100/wagons.json",
        "authorization: Bearer green-signal-10\r\n",
        "401",
    ),
    (
        "/R100/wagons.json",
        "authorization: green-signal-101\r\n",
        "401",
    ),
    ("/R100/legs.json", "", "401"),
    (
        "/R101/wagons.json",
        "authorization: Bearer green-signal-101\r\n",
        "401",
    ),
    ("/R100/", "", "200"),
];

#[test]
fn wagons_are_shown_for_the_key_of_their_railway(rt: HostRuntime) -> Result<(), Fail> {
    let alloc = rt.alloc();
    let hub = two_railways(&rt, alloc)?;
    let keys = KeyTable::read(alloc, KEYS)?;
    for (path, field, status) in KEYED {
        let lines = format!(in alloc; "GET {path} HTTP/1.1\r\nhost: 127.0.0.1:7080\r\n{field}")?;
        let answer = answer_to(&rt, alloc, &hub, Some(&keys), &lines)?;
        assert!(rt; status_of(&answer) == status);
    }
    Ok(())
}
