//! What a client meets that is one too many, or silent, or no client, or has no key.

use crate::keys::KEYS;
use crate::script::{Act, Step};
use crate::service::{FULL, all_of, limits_of, play};
use railway_keys::KeyTable;
use std::test::*;
use std::time::Duration;

// The second client waits and is told that there is no handler, the third is told so at once, and the first is served all along.
static TOO_MANY: [Step; 10] = [
    Step::Connects(0),
    Step::Client(0, Act::IsWrittenBack(b"a\n")),
    Step::Begin,
    Step::Connects(1),
    Step::Client(1, Act::Send("c\n")),
    Step::Connects(2),
    Step::Client(2, Act::IsTold(FULL)),
    Step::Client(1, Act::IsTold(FULL)),
    Step::Took(100),
    Step::Client(0, Act::IsWrittenBack(b"b\n")),
];

#[test]
fn a_client_is_told_that_there_is_no_handler(rt: HostRuntime) -> Result<(), Fail> {
    let mut limits = limits_of(1)?;
    limits.waiting = 1;
    limits.wait_before_full = Duration::from_millis(100);
    let played = play(&rt, limits, None, &TOO_MANY)?;
    assert_eq!(rt; played, all_of(&TOO_MANY, 1));
    Ok(())
}

// A client is cut off that sends nothing, and one that sends half a line; one that has sent a line may be silent.
static SILENT: [Step; 9] = [
    Step::Connects(0),
    Step::Client(0, Act::IsTold("")),
    Step::Connects(1),
    Step::Client(1, Act::Send("a")),
    Step::Client(1, Act::IsTold("a")),
    Step::Connects(2),
    Step::Client(2, Act::IsWrittenBack(b"a\n")),
    Step::Rest,
    Step::Client(2, Act::IsWrittenBack(b"b\n")),
];

#[test]
fn a_client_that_is_silent_is_cut_off(rt: HostRuntime) -> Result<(), Fail> {
    let mut limits = limits_of(1)?;
    limits.silence_before_hello = Duration::from_millis(500);
    let played = play(&rt, limits, None, &SILENT)?;
    assert_eq!(rt; played, all_of(&SILENT, 3));
    Ok(())
}

// A client that has sent a line is cut off once it is silent.
static SILENT_LATER: [Step; 3] = [
    Step::Connects(0),
    Step::Client(0, Act::IsWrittenBack(b"a\n")),
    Step::Client(0, Act::IsTold("")),
];

#[test]
fn a_client_is_cut_off_between_lines(rt: HostRuntime) -> Result<(), Fail> {
    let mut limits = limits_of(1)?;
    limits.silence_between_lines = Some(Duration::from_millis(200));
    let played = play(&rt, limits, None, &SILENT_LATER)?;
    assert_eq!(rt; played, all_of(&SILENT_LATER, 1));
    Ok(())
}

// A request of HTTP gets nothing, and the client after it its line.
static BROWSER: [Step; 7] = [
    Step::Connects(0),
    Step::Client(0, Act::Send("POST / HTTP/1.1\r\n\r\na\n")),
    Step::Client(0, Act::GetsNothing),
    Step::Connects(1),
    Step::Client(1, Act::Send("a\n")),
    Step::Client(1, Act::SendNoMore),
    Step::Client(1, Act::IsTold("a\n")),
];

#[test]
fn a_request_gets_nothing(rt: HostRuntime) -> Result<(), Fail> {
    let played = play(&rt, limits_of(1)?, None, &BROWSER)?;
    assert_eq!(rt; played, all_of(&BROWSER, 2));
    Ok(())
}

const WITH_KEY: &str =
    "{\"kind\":\"hello\",\"from\":\"R101\",\"key\":\"green-signal-101\"}\n{\"kind\":\"fetch\"}\n";

// What a client sends whose key is another railway's, or that sends none, is written back to nobody; that of one with its key is.
static STRANGERS: [Step; 11] = [
    Step::Connects(0),
    Step::Client(
        0,
        Act::Send("{\"kind\":\"hello\",\"from\":\"R202\",\"key\":\"green-signal-101\"}\n"),
    ),
    Step::Client(0, Act::SendNoMore),
    Step::Client(0, Act::IsTold("{\"fault\":\"wrong_key\"}\n")),
    Step::Connects(1),
    Step::Client(1, Act::Send("a\n")),
    Step::Client(1, Act::IsTold("{\"fault\":\"wrong_key\"}\n")),
    Step::Connects(2),
    Step::Client(2, Act::Send(WITH_KEY)),
    Step::Client(2, Act::SendNoMore),
    Step::Client(2, Act::IsTold(WITH_KEY)),
];

#[test]
fn a_client_without_its_key_is_given_no_session(rt: HostRuntime) -> Result<(), Fail> {
    let keys = KeyTable::read(rt.alloc(), KEYS)?;
    let played = play(&rt, limits_of(1)?, Some(keys), &STRANGERS)?;
    assert_eq!(rt; played, all_of(&STRANGERS, 3));
    Ok(())
}
