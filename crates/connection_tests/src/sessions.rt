//! Clients that come back, and what is left of them.

use crate::script::{Act, Step};
use crate::service::{all_of, limits_of, play};
use std::test::*;

static MANY: [Step; 1] = [Step::ComeAndGo(300)];

#[test]
fn clients_come_and_go(rt: HostRuntime) -> Result<(), Fail> {
    let played = play(&rt, limits_of(1)?, None, &MANY)?;
    assert_eq!(rt; played, all_of(&MANY, 300));
    Ok(())
}

// A client whose connection broke off is served when it comes back, beside another that is served all along.
static BACK: [Step; 8] = [
    Step::Connects(0),
    Step::Client(0, Act::IsWrittenBack(b"a\n")),
    Step::Connects(1),
    Step::Client(1, Act::IsWrittenBack(b"b\n")),
    Step::Leaves(1),
    Step::Connects(1),
    Step::Client(1, Act::IsWrittenBack(b"c\n")),
    Step::Client(0, Act::IsWrittenBack(b"d\n")),
];

#[test]
fn a_client_comes_back(rt: HostRuntime) -> Result<(), Fail> {
    let played = play(&rt, limits_of(2)?, None, &BACK)?;
    assert_eq!(rt; played, all_of(&BACK, 3));
    Ok(())
}
