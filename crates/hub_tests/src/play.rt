//! Examples through a hub.

use hub_core::Hub;
use hub_replay::run;
use std::alloc::Global;
use std::str;
use std::test::Fail;
use std::thread::Threads;
use taf_codes::Std;
use test_scripts::Script;

/// Up to the departure of the first wagon.
pub(crate) const DEPARTED: &str =
    r#"{"kind":"plan","from":"R100","no":1,"consignment":"C-1","load":"loaded","commit":"2025-03-01T15:30Z","wagons":["218124712173","338478961232"],"legs":[{"ru":"R101","origin":"DE00001","target":"AT00002","minutes":300},{"ru":"R102","origin":"AT00002","target":"IT00003","minutes":240}]}
> {"no":1,"reply":"accepted"}
{"at":"2025-03-01T05:30Z","from":"R100","kind":"release","no":2,"wagon":"218124712173"}
> {"no":2,"reply":"accepted"}
{"at":"2025-03-01T06:00Z","from":"R101","kind":"depart","no":1,"wagon":"218124712173"}
> {"no":1,"reply":"accepted"}"#;

/// The second wagon isn't in the yard, so neither wagon is offered.
pub(crate) const BOTH_DEPARTED: &str =
    r#"{"at":"2025-03-01T10:40Z","from":"R101","kind":"yard_in","no":2,"place":"AT00002","wagon":"218124712173"}
> {"no":2,"reply":"accepted"}
{"at":"2025-03-01T05:30Z","from":"R100","kind":"release","no":3,"wagon":"338478961232"}
> {"no":3,"reply":"accepted"}
{"at":"2025-03-01T06:00Z","from":"R101","kind":"depart","no":3,"wagon":"338478961232"}
> {"no":3,"reply":"accepted"}
{"at":"2025-03-01T10:50Z","from":"R101","kind":"offer","no":4,"place":"AT00002","to":"R102","train":"T-77","wagons":["218124712173","338478961232"]}
> {"no":4,"reply":"refused","wagon":"338478961232","why":"wrong_stage"}"#;

/// Both wagons are offered.
pub(crate) const OFFERED: &str =
    r#"{"at":"2025-03-01T10:45Z","from":"R101","kind":"yard_in","no":5,"place":"AT00002","wagon":"338478961232"}
> {"no":5,"reply":"accepted"}
{"at":"2025-03-01T10:50Z","from":"R101","kind":"offer","no":6,"place":"AT00002","to":"R102","train":"T-77","wagons":["218124712173","338478961232"]}
> {"no":6,"reply":"accepted"}"#;

/// The first is received, the second refused, and a manager is told.
pub(crate) const ANSWERED: &str =
    r#"{"at":"2025-03-01T11:10Z","from":"R102","kind":"answer","manager":"I300","no":1,"offer":6,"offerer":"R101","received":["218124712173"],"refused":["338478961232"]}
> {"no":1,"reply":"accepted"}
{"at":"2025-03-01T11:10Z","from":"R102","kind":"answer","manager":"I300","no":2,"offer":6,"offerer":"R101","received":["218124712173"],"refused":["338478961232"]}
> {"no":2,"reply":"refused","why":"offer_closed"}
{"from":"I300","kind":"fetch","limit":5}
> {"items":[{"at":"2025-03-01T11:10Z","from":"R102","item":1,"offer":6,"offerer":"R101","type":"sub","wagons":["218124712173"]}],"reply":"items"}"#;

/// The interchange of a train.
pub(crate) static INTERCHANGE: &[&str] = &[DEPARTED, BOTH_DEPARTED, OFFERED, ANSWERED];

/// A hub that has taken no call. It lies on the heap, since what owns a hub itself takes the prover long.
pub(crate) fn new_hub(alloc: Global) -> Result<Box<Hub>, Fail> {
    Ok(Box::new(alloc, Hub::new(alloc)?)?)
}

/// What the hub writes to these bytes.
pub(crate) fn output_of(
    rt: &impl Threads,
    alloc: Global,
    hub: &mut Hub,
    input: &[u8],
) -> Result<Vec<u8>, Fail> {
    let mut reader = Std::new(input);
    let mut writer = Std::new(Vec::new(alloc));
    run(rt, alloc, &mut reader, &mut writer, hub)?;
    Ok(writer.into_inner())
}

/// What a new hub writes to these bytes.
pub(crate) fn first_output_of(
    rt: &impl Threads,
    alloc: Global,
    input: &[u8],
) -> Result<Vec<u8>, Fail> {
    let mut hub = new_hub(alloc)?;
    output_of(rt, alloc, &mut hub, input)
}

/// The bytes as a text, for a failed test to show.
pub(crate) fn shown(bytes: &[u8]) -> &str {
    str::from_utf8(bytes).unwrap_or("no text")
}

// The first line that isn't the one that is wanted.
fn line_that_differs<'a>(output: &'a str, wanted: &str) -> &'a str {
    for (line, other) in output.lines().zip(wanted.lines()) {
        if line != other {
            return line;
        }
    }
    "more lines, or fewer"
}

/// Fails with the first line that isn't the one that is wanted, if there is one.
pub(crate) fn no_difference(output: &[u8], wanted: &[u8]) -> Result<(), Fail> {
    if output == wanted {
        return Ok(());
    }
    Err(Fail::new(line_that_differs(shown(output), shown(wanted))))
}

/// Fails unless the hub answers the calls of an example as it says.
pub(crate) fn plays_on(
    rt: &impl Threads,
    alloc: Global,
    hub: &mut Hub,
    example: &[&str],
) -> Result<(), Fail> {
    let script = Script::of(alloc, example)?;
    let output = output_of(rt, alloc, hub, &script.input)?;
    no_difference(&output, &script.wanted)
}

// Fails unless a new hub answers the calls of an example as it says.
fn plays(rt: &impl Threads, alloc: Global, example: &[&str]) -> Result<(), Fail> {
    let script = Script::of(alloc, example)?;
    let output = first_output_of(rt, alloc, &script.input)?;
    no_difference(&output, &script.wanted)
}

/// Fails unless a new hub answers the calls of each of these examples as it says.
pub(crate) fn plays_each(
    rt: &impl Threads,
    alloc: Global,
    examples: &[(&str, &[&str])],
) -> Result<(), Fail> {
    for (_, example) in examples {
        plays(rt, alloc, example)?;
    }
    Ok(())
}
