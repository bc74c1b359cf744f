//! The lines of sessions. After `> ` stands the line that is said to the one before it.

use test_scripts::{FIRST, SECOND};

const FIRST_HELLO: &str = r#"{"kind":"hello","from":"R100"}
> {"hello":"R100"}"#;

const SECOND_HELLO: &str = r#"{"kind":"hello","from":"R200"}
> {"hello":"R200"}"#;

const FOUR_CALLS: &str = r#"{"kind":"ask","from":"R100","wagon":"318066552148"}
> {"reply":"refused","wagon":"318066552148","why":"unknown_wagon"}
{"kind":"ask","from":"R100","wagon":"318066552148"}
> {"reply":"refused","wagon":"318066552148","why":"unknown_wagon"}
{"kind":"ask","from":"R100","wagon":"318066552148"}
> {"reply":"refused","wagon":"318066552148","why":"unknown_wagon"}
{"kind":"ask","from":"R100","wagon":"318066552148"}
> {"reply":"refused","wagon":"318066552148","why":"unknown_wagon"}"#;

const BAD_LINE: &str = r#"[]
> {"fault":"bad_json"}"#;

/// What a railway sends of its wagon.
pub(crate) static OF_FIRST: &[&str] = &[FIRST_HELLO, FIRST];

/// What another sends of its own.
pub(crate) static OF_SECOND: &[&str] = &[SECOND_HELLO, SECOND];

/// Twenty calls with a bad line among them.
pub(crate) static WITH_A_BAD_LINE: &[&str] = &[
    FIRST_HELLO,
    FOUR_CALLS,
    BAD_LINE,
    FOUR_CALLS,
    FOUR_CALLS,
    FOUR_CALLS,
    FOUR_CALLS,
];

/// Sixteen calls.
pub(crate) static SIXTEEN: &[&str] = &[FIRST_HELLO, FOUR_CALLS, FOUR_CALLS, FOUR_CALLS, FOUR_CALLS];
