//! The end of a service.

use crate::script::{Act, Step};
use crate::service::{all_of, limits_of, play};
use std::test::*;
use std::time::Duration;

// A quiet session ends at once where the service ends, and nobody can connect after that.
static QUIET: [Step; 7] = [
    Step::Connects(0),
    Step::Client(0, Act::IsWrittenBack(b"a\n")),
    Step::Begin,
    Step::End,
    Step::Took(0),
    Step::Client(0, Act::IsTold("")),
    Step::NobodyConnects,
];

#[test]
fn a_quiet_session_ends_with_the_service(rt: HostRuntime) -> Result<(), Fail> {
    let played = play(&rt, limits_of(1)?, None, &QUIET)?;
    assert_eq!(rt; played, all_of(&QUIET, 1));
    Ok(())
}

// A session that writes on to a client that takes nothing goes on for the grace, and not after it.
static FULL: [Step; 7] = [
    Step::Connects(0),
    Step::Client(0, Act::IsWrittenBack(b"a\n")),
    Step::Client(0, Act::Send("!\n")),
    Step::Rest,
    Step::Begin,
    Step::End,
    Step::Took(200),
];

#[test]
fn a_session_is_cut_after_the_grace(rt: HostRuntime) -> Result<(), Fail> {
    let mut limits = limits_of(1)?;
    limits.grace = Duration::from_millis(200);
    let played = play(&rt, limits, None, &FULL)?;
    assert_eq!(rt; played, all_of(&FULL, 1));
    Ok(())
}
