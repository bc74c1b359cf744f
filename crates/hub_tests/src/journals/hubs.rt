//! Hubs whose calls are in a journal.
ghost use Rattle.std.specs.Prelude.{IfOk};
ghost use Rattle.journaled_hub.specs.JournaledHubs.{IsJournaled};

use crate::journals::given::{Failing, Memory, MemoryFile};
use call_reader::read_call;
use journal::RawFile;
use journal_lines::{first_sum, line_of};
use journaled_hub::{JournaledHub, OpenFault, RecoveredHub};
use reply_writer::{Buffer, append_reply};
use seeded_state::SeededState;
use std::alloc::Global;
use std::test::Fail;
use std::thread::Threads;

// Records, and the texts of their replies. The third is the second once more, and the last is a question.
static RECORDS: [(&str, &str); 4] = [
    (
        r#"{"kind":"plan","from":"R100","no":1,"consignment":"C-1","load":"loaded","commit":"2025-03-01T15:30Z","wagons":["218124712173"],"legs":[{"ru":"R101","origin":"DE00001","target":"AT00002","minutes":300}]}"#,
        r#"{"no":1,"reply":"accepted"}"#,
    ),
    (
        r#"{"kind":"release","from":"R100","no":2,"wagon":"218124712173","at":"2025-03-01T05:30Z"}"#,
        r#"{"no":2,"reply":"accepted"}"#,
    ),
    (
        r#"{"kind":"release","from":"R100","no":2,"wagon":"218124712173","at":"2025-03-01T05:30Z"}"#,
        r#"{"no":2,"reply":"accepted"}"#,
    ),
    (
        r#"{"kind":"ask","from":"R103","wagon":"318066552148"}"#,
        r#"{"reply":"refused","wagon":"318066552148","why":"unknown_wagon"}"#,
    ),
];

// The journal of these calls in two batches. The sums were computed apart from the program.
static TEXT: &str =
    r#"{"_sum":"aafd14d9531d3a48","commit":"2025-03-01T15:30Z","consignment":"C-1","from":"R100","kind":"plan","legs":[{"minutes":300,"origin":"DE00001","ru":"R101","target":"AT00002"}],"load":"loaded","no":1,"wagons":["218124712173"]}
{"_sum":"4547495dc3cd2394","at":"2025-03-01T05:30Z","from":"R100","kind":"release","no":2,"wagon":"218124712173"}

{"_sum":"7cfbe35a81b52f30","at":"2025-03-01T05:30Z","from":"R100","kind":"release","no":2,"wagon":"218124712173"}
{"_sum":"870fd560a7ee8522","from":"R103","kind":"ask","wagon":"318066552148"}

"#;

// How many bytes the first batch has.
const FIRST: usize = 344;

// Gives the call of a record to the hub, and fails unless its reply has this text.
fn apply<F: RawFile>(
    alloc: Global,
    hub: &mut JournaledHub<F>,
    case: (&str, &str),
) -> Result<(), Fail>
    requires { IsJournaled hub.old }
    ensures { IsJournaled hub.new }
{
    let (record, text) = case;
    let call = read_call(alloc, record.as_bytes())?;
    let (_, reply) = hub.apply(call)?;
    let mut written = Buffer::new(Vec::new(alloc));
    append_reply(alloc, &mut written, &reply)?;
    if written.as_slice() == text.as_bytes() {
        Ok(())
    } else {
        Err(Fail::new(record))
    }
}

// Gives two of the records to the hub, and syncs. Tells whether the sync was Ok.
fn serve<F: RawFile>(
    alloc: Global,
    hub: &mut JournaledHub<F>,
    first: (&str, &str),
    second: (&str, &str),
) -> Result<bool, Fail>
    requires { IsJournaled hub.old }
{
    apply(alloc, hub, first)?;
    apply(alloc, hub, second)?;
    Ok(hub.sync().is_ok())
}

// The hub of the calls that a file has.
fn hub_of<H, F>(rt: &H, file: F) -> Result<JournaledHub<F>, Fail>
where
    H: Threads + AllocGlobal,
    F: RawFile + Send + Drop,
    ensures { IfOk result (λ hub. IsJournaled hub) }
{
    let Ok(recovered) = RecoveredHub::read(rt, rt.alloc(), SeededState::fixed(), file) else {
        return Err(Fail::new("no hub"));
    };
    match recovered.open() {
        Ok(hub) => Ok(hub),
        Err(_) => Err(Fail::new("the journal is not opened")),
    }
}

// Opens the hub of the memory, and serves two records.
fn serve_again<H: Threads + AllocGlobal>(
    rt: &H,
    memory: &mut Memory,
    failing: Failing,
    first: (&str, &str),
    second: (&str, &str),
) -> Result<bool, Fail> {
    let mut hub = hub_of(rt, MemoryFile::new(memory, failing))?;
    serve(rt.alloc(), &mut hub, first, second)
}

#[test]
fn a_hub_comes_back(rt: HostRuntime) -> Result<(), Fail> {
    let mut memory = Memory::of(rt.alloc(), b"")?;
    let failing = Failing::Never;
    let first = serve_again(&rt, &mut memory, failing, RECORDS[0], RECORDS[1])?;
    assert!(rt; first && memory.bytes.as_slice() == &TEXT.as_bytes()[..FIRST]);
    let second = serve_again(&rt, &mut memory, failing, RECORDS[2], RECORDS[3])?;
    assert!(rt; second && memory.bytes.as_slice() == TEXT.as_bytes());
    Ok(())
}

#[test]
fn a_sync_that_fails_is_told(rt: HostRuntime) -> Result<(), Fail> {
    for call in 1..=2 {
        let mut memory = Memory::of(rt.alloc(), b"")?;
        let failing = Failing::Once(call);
        let synced = serve_again(&rt, &mut memory, failing, RECORDS[0], RECORDS[1])?;
        assert!(rt; !synced);
    }
    Ok(())
}

// How many calls the hub of a file has, or why there is none.
fn count_calls<H, F>(rt: &H, file: F) -> Result<usize, OpenFault>
where
    H: Threads + AllocGlobal,
    F: RawFile + Send + Drop,
{
    match RecoveredHub::read(rt, rt.alloc(), SeededState::fixed(), file) {
        Ok(hub) => Ok(hub.len()),
        Err((fault, _reader)) => Err(fault),
    }
}

// How many calls the hub of these bytes has, or why there is none.
fn calls_in<H>(rt: &H, bytes: &[u8]) -> Result<Result<usize, OpenFault>, Fail>
where
    H: Threads + AllocGlobal,
{
    let mut memory = Memory::of(rt.alloc(), bytes)?;
    let file = MemoryFile::new(&mut memory, Failing::Never);
    Ok(count_calls(rt, file))
}

#[test]
fn a_journal_cut_at_each_byte(rt: HostRuntime) -> Result<(), Fail> {
    let text = TEXT.as_bytes();
    for len in 0..=text.len() {
        let count = if len == text.len() {
            4
        } else if len >= FIRST {
            2
        } else {
            0
        };
        assert!(rt; calls_in(&rt, &text[..len])? == Ok(count));
    }
    Ok(())
}

// Journals that give no hub, and why.
static FAULTS: [(&str, OpenFault); 4] = [
    // A line that is no call.
    ("{\"_sum\":\"aafd14d9531d3a48\"}\n\n", OpenFault::NoCall(1)),
    // The first line of a journal behind itself, in the same batch and in the next one.
    (
        r#"{"_sum":"aafd14d9531d3a48","commit":"2025-03-01T15:30Z","consignment":"C-1","from":"R100","kind":"plan","legs":[{"minutes":300,"origin":"DE00001","ru":"R101","target":"AT00002"}],"load":"loaded","no":1,"wagons":["218124712173"]}
{"_sum":"aafd14d9531d3a48","commit":"2025-03-01T15:30Z","consignment":"C-1","from":"R100","kind":"plan","legs":[{"minutes":300,"origin":"DE00001","ru":"R101","target":"AT00002"}],"load":"loaded","no":1,"wagons":["218124712173"]}

"#,
        OpenFault::OtherSum(2),
    ),
    // The second batch without the first.
    (
        r#"{"_sum":"7cfbe35a81b52f30","at":"2025-03-01T05:30Z","from":"R100","kind":"release","no":2,"wagon":"218124712173"}
{"_sum":"870fd560a7ee8522","from":"R103","kind":"ask","wagon":"318066552148"}

"#,
        OpenFault::OtherSum(1),
    ),
    // A batch with a byte 0 before another one.
    ("\0\n\n{}\n\n", OpenFault::Damaged(0)),
];

#[test]
fn journals_that_give_no_hub(rt: HostRuntime) -> Result<(), Fail> {
    for (text, fault) in &FAULTS {
        assert!(rt; calls_in(&rt, text.as_bytes())? == Err(*fault));
    }
    Ok(())
}

// How many lines. They are more than are read at once, so another thread reads some of them.
const MANY: usize = 2_000;

// A journal of so many questions in one batch. The line of the number `wrong`, and no other, has not the sum that the line before
// gives.
fn many_lines(alloc: Global, wrong: usize) -> Result<Vec<u8>, Fail> {
    let call = read_call(alloc, RECORDS[3].0.as_bytes())?;
    let mut text = Vec::new(alloc);
    let mut sum = first_sum();
    for number in 1..=MANY {
        let before = if number == wrong { sum ^ 1 } else { sum };
        let (line, own) = line_of(alloc, before, &call)?;
        text.extend_from_slice(line.as_slice())?;
        text.push(b'\n')?;
        sum = own;
    }
    text.push(b'\n')?;
    Ok(text)
}

#[test]
fn a_journal_of_many_lines(rt: HostRuntime) -> Result<(), Fail> {
    let whole = many_lines(rt.alloc(), 0)?;
    assert!(rt; calls_in(&rt, whole.as_slice())? == Ok(MANY));
    let wrong = many_lines(rt.alloc(), 1_500)?;
    assert!(rt; calls_in(&rt, wrong.as_slice())? == Err(OpenFault::OtherSum(1_500)));
    Ok(())
}
