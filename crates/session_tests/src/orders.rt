//! Lines and answers mixed in every order.

use crate::script_runner::{HELLO, ScriptResult, ScriptRunner};
use std::alloc::Global;
use std::test::Fail;
use test_scripts::Script;

// A fault and a foreign call among calls.
const FAULTS: &str = r#"{"kind":"ask","from":"R100","wagon":"318066552148"}
> {"reply":"refused","wagon":"318066552148","why":"unknown_wagon"}
[]
> {"fault":"bad_json"}
{"kind":"ask","from":"R101","wagon":"318066552148"}
> {"fault":"wrong_sender"}
{"kind":"fetch","from":"R100","limit":10}
> {"items":[],"reply":"items"}"#;

// Calls whose answers come of those before them.
const CALLS: &str =
    r#"{"kind":"plan","from":"R100","no":1,"consignment":"C-1","load":"loaded","commit":"2025-03-01T15:30Z","wagons":["218124712173"],"legs":[{"ru":"R101","origin":"DE00001","target":"AT00002","minutes":300},{"ru":"R102","origin":"AT00002","target":"IT00003","minutes":240}]}
> {"no":1,"reply":"accepted"}
{"at":"2025-03-01T05:30Z","from":"R100","kind":"release","no":2,"wagon":"218124712173"}
> {"no":2,"reply":"accepted"}
{"at":"2025-03-01T05:31Z","from":"R100","kind":"release","no":3,"wagon":"218124712173"}
> {"no":3,"reply":"refused","wagon":"218124712173","why":"wrong_stage"}
{"from":"R100","item":1,"kind":"ack"}
> {"last":0,"reply":"refused","why":"ack_ahead"}"#;

// A blank line, and a second hello behind a call.
const BLANK: &str = r#"{"kind":"ask","from":"R100","wagon":"318066552148"}
> {"reply":"refused","wagon":"318066552148","why":"unknown_wagon"}

{"kind":"hello","from":"R100"}
> {"fault":"bad_kind"}
{"kind":"deviation","from":"R100","consignment":"C-9"}
> {"reply":"refused","why":"unknown_consignment"}"#;

static SCRIPTS: [&str; 3] = [FAULTS, CALLS, BLANK];

// What a session is given next.
#[derive(Clone, Copy)]
enum Turn {
    /// The next line.
    Line,
    /// The answer to its oldest job, if one is out.
    Answer,
}

// How many orders there are of eight turns.
const ORDERS: u32 = 256;

// Each job is answered before the next line.
static LOCK_STEP: [Turn; 8] = [
    Turn::Line,
    Turn::Answer,
    Turn::Line,
    Turn::Answer,
    Turn::Line,
    Turn::Answer,
    Turn::Line,
    Turn::Answer,
];

// What follows the first eight turns, so that all lines are read and all jobs are answered.
static REST: [Turn; 8] = [
    Turn::Line,
    Turn::Line,
    Turn::Line,
    Turn::Line,
    Turn::Answer,
    Turn::Answer,
    Turn::Answer,
    Turn::Answer,
];

// The next order: the first line becomes an answer, and the answers before it become lines. Behind the order of answers
// alone comes that of lines alone.
fn advance(order: &mut [Turn]) {
    for turn in order.iter_mut() {
        match *turn {
            Turn::Line => {
                *turn = Turn::Answer;
                return;
            }
            Turn::Answer => *turn = Turn::Line,
        }
    }
}

// Gives the session lines and answers in an order.
fn take_turns(runner: &mut ScriptRunner, lines: &str, order: &[Turn]) -> Result<(), Fail> {
    for turn in order {
        match turn {
            Turn::Line => runner.read_next(lines)?,
            Turn::Answer => runner.take_own()?,
        }
    }
    Ok(())
}

// What a session says, and the replies in its tally, where lines and answers come in an order behind its hello.
fn run_in(runner: &mut ScriptRunner, lines: &str, order: &[Turn]) -> Result<ScriptResult, Fail> {
    runner.read_line(HELLO.as_bytes())?;
    take_turns(runner, lines, order)?;
    take_turns(runner, lines, &REST)?;
    runner.end()
}

// What a session says to its hello and to the lines.
fn wanted_lines(alloc: Global, lines: &str) -> Result<Vec<u8>, Fail> {
    let mut script = Script::new(alloc);
    script.add("> {\"hello\":\"R100\"}")?;
    script.add(lines)?;
    Ok(script.wanted)
}

// Whether a session says these lines and has these replies in its tally in every order.
fn is_same_in_all_orders(
    runner: &mut ScriptRunner,
    lines: &str,
    said: &[u8],
    tally: &[u8],
) -> Result<bool, Fail> {
    let mut order = [Turn::Line; 8];
    for _ in 0..ORDERS {
        let result = run_in(runner, lines, &order)?;
        if result.said.as_slice() != said || result.tally.as_slice() != tally {
            return Ok(false);
        }
        advance(&mut order);
    }
    Ok(true)
}

// Whether a session says what is to come of the lines in lock-step, and the same in every other order.
fn means_lock_step(runner: &mut ScriptRunner, alloc: Global, lines: &str) -> Result<bool, Fail> {
    let said = wanted_lines(alloc, lines)?;
    let result = run_in(runner, lines, &LOCK_STEP)?;
    Ok(result.said == said && is_same_in_all_orders(runner, lines, &said, &result.tally)?)
}

#[test]
fn every_order_means_lock_step(rt: HostRuntime) -> Result<(), Fail> {
    let mut runner = ScriptRunner::new(rt.alloc())?;
    for lines in &SCRIPTS {
        if !means_lock_step(&mut runner, rt.alloc(), lines)? {
            return Err(Fail::new(*lines));
        }
    }
    Ok(())
}
