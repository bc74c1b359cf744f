//! The examples of all parts, each through a new hub.

use crate::play::plays_each;
use crate::{changes, estimates, lines, many, movement, trains};
use std::test::Fail;

#[test]
fn examples(rt: HostRuntime) -> Result<(), Fail> {
    for examples in [
        movement::EXAMPLES,
        estimates::EXAMPLES,
        trains::EXAMPLES,
        changes::EXAMPLES,
        lines::EXAMPLES,
        many::EXAMPLES,
    ] {
        plays_each(&rt, rt.alloc(), examples)?;
    }
    Ok(())
}
