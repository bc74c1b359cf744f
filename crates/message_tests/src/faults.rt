//! The first fault of a line: no JSON, no kind, and then each field in its place.
use crate::checks::{has_fault, have_faults, is_text, shown};
use crate::lists::{ANSWERS, OFFERS};
use crate::numbers::NUMBERS;
use crate::plans::{LISTS, PLANS, ROUTES};
use reply_writer::{Buffer, append_fault, write_fault};
use std::alloc::Global;
use std::test::Fail;
use taf_messages::{Field, RecordFault};

static NO_RECORDS: &str = r#"={"fault":"bad_json"}
{"kind":"ask","from":"R1
{"kind":"ask","from":"DE
[]
null
"ask"
[{"kind":"ask"}]
{} {}
{"kind":"ask",}
{"note":"\ud800"}
{"note":1e400}
{"note":-1e400,"note":0}
={"fault":"bad_kind"}
{}
{"kind":null}
{"kind":7,"from":"r100"}
{"kind":"Ask","from":"R100"}
{"kind":"hello","from":"R100"}
{"kind":"ask","kind":["ask"]}
={"fault":"missing_field","field":"from"}
{"kind":"","kind":"ask"}"#;

#[test]
fn lines_with_faults(rt: HostRuntime) -> Result<(), Fail> {
    for cases in [NO_RECORDS, NUMBERS, OFFERS, ANSWERS, LISTS, PLANS, ROUTES] {
        have_faults(rt.alloc(), cases)?;
    }
    Ok(())
}

static NO_RECORD: [&[u8]; 4] = [
    b"",
    b"{\"kind\":\"ask\",\"note\":\"\xff\"}",
    b"\xef\xbb\xbf{}",
    b"\x0c{}",
];

#[test]
fn bytes_that_are_no_record(rt: HostRuntime) -> Result<(), Fail> {
    for bytes in &NO_RECORD {
        has_fault(rt.alloc(), bytes, r#"{"fault":"bad_json"}"#)?;
    }
    let open = Vec::from_elem(rt.alloc(), b'[', 30_000)?;
    has_fault(rt.alloc(), &open, r#"{"fault":"bad_json"}"#)
}

// Fields, each with a value that is good for it and with one that is not.
static FIELDS: &str = r#"from "R101" "r100"
no 999999999999 0
consignment "C-1" "C_1"
load "empty" "Loaded"
commit "2199-12-31T23:59Z" "2025-02-29T06:00Z"
wagons ["218124712173","338478961232"] ["218124712174"]
legs [{"ru":"R101","origin":"DE00001","target":"AT00002","minutes":300,"note":7}] [{"ru":"R101","origin":"DE00001","target":"AT00002"}]
units [{"unit":"CSQU3054383","wagon":"218124712173"}] [{"unit":"CSQU3054384","wagon":"218124712173"}]
wagon "218124712173" "218124712174"
at "2199-12-31T23:59Z" "2025-02-29T06:00Z"
place "AT00002" "AT0002"
delay 100000 100001
leg 7 8
minutes 100000 100001
train "T-77" ""
to "R102" "r100"
offerer "R101" "r100"
offer 999999999999 0
received ["218124712173","338478961232"] ["218124712174"]
refused [] "338478961232"
manager "I300" "I3"
limit 50 0
item 999999999999 1000000000000
unit "AAAU0000060" "CSQU3054384""#;

// A good value of the field, and a bad one.
fn values(field: &str) -> Result<(&str, &str), Fail> {
    for row in FIELDS.lines() {
        if let Some((name, values)) = row.split_once(' ')
            && name == field
            && let Some(values) = values.split_once(' ')
        {
            return Ok(values);
        }
    }
    Err(Fail::new(field))
}

// The kinds of records with their fields in order, of which those with `?` may be absent.
static KINDS: &str = "plan from no consignment load commit wagons legs units?
release from no wagon at
depart from no wagon at
eti from no wagon at
arrival from no wagon at
delivery from no wagon at
yard_in from no wagon at place
yard_out from no wagon at place
exception from no wagon at delay
eti_ask from no wagon
leg_time from no wagon leg minutes
offer from no at train place to wagons
answer from no at offerer offer received refused manager?
withdraw from no at offer
reroute from no wagon legs
ask from wagon
ask_unit from unit
deviation from consignment
fetch from limit
ack from item";

fn add(text: &mut String, parts: &[&str]) -> Result<(), Fail> {
    for part in parts {
        text.push_str(part)?;
    }
    Ok(())
}

// Adds the cases of a field behind what a line begins with: it is missing or may be absent, and a bad value
// is found.
fn add_field<'a>(cases: &mut String, start: &'a str, word: &'a str) -> Result<(), Fail> {
    let field = word.strip_suffix('?').unwrap_or(word);
    let (_, bad) = values(field)?;
    if field == word {
        add(
            cases,
            &["={\"fault\":\"missing_field\",\"field\":\"", field, "\"}\n"],
        )?;
    } else {
        add(cases, &["=good\n"])?;
    }
    add(
        cases,
        &[
            start,
            "}\n={\"fault\":\"bad_field\",\"field\":\"",
            field,
            "\"}\n",
        ],
    )?;
    add(cases, &[start, ",\"", field, "\":", bad, "}\n"])
}

// Adds a field with a good value to what a line begins with.
fn add_value(start: &mut String, word: &str) -> Result<(), Fail> {
    let field = word.strip_suffix('?').unwrap_or(word);
    let (good, _) = values(field)?;
    add(start, &[",\"", field, "\":", good])
}

fn add_good(cases: &mut String, start: &str) -> Result<(), Fail> {
    add(cases, &["=good\n", start, "}\n"])
}

// The cases of a kind: with good values up to a field the line is checked at that field, and with all it is
// a call.
fn cases_of(alloc: Global, kind: &str) -> Result<String, Fail> {
    let Some((name, fields)) = kind.split_once(' ') else {
        return Err(Fail::new(kind));
    };
    let mut cases = String::new(alloc);
    let mut start = String::new(alloc);
    add(&mut start, &["{\"kind\":\"", name, "\""])?;
    for word in fields.split(' ') {
        add_field(&mut cases, &start, word)?;
        add_value(&mut start, word)?;
    }
    add_good(&mut cases, &start)?;
    Ok(cases)
}

#[test]
fn fields_in_their_order(rt: HostRuntime) -> Result<(), Fail> {
    for kind in KINDS.lines() {
        have_faults(rt.alloc(), &cases_of(rt.alloc(), kind)?)?;
    }
    Ok(())
}

// Fails unless the fault has this text, alone and behind other text.
fn is_written(alloc: Global, fault: RecordFault, text: &str) -> Result<(), Fail> {
    if fault == RecordFault::Memory {
        return Err(Fail::new("no text"));
    }
    is_text(write_fault(alloc, &fault), text)?;
    let mut out = Buffer::new(Vec::from_slice(alloc, b"before")?);
    append_fault(alloc, &mut out, &fault)?;
    match shown(out.as_slice()).strip_prefix("before") {
        Some(rest) if rest == text => Ok(()),
        _ => Err(Fail::new(text)),
    }
}

// The text of a fault names the field.
static TEXTS: [(RecordFault, &str); 7] = [
    (RecordFault::BadJson, r#"{"fault":"bad_json"}"#),
    (RecordFault::BadKind, r#"{"fault":"bad_kind"}"#),
    (
        RecordFault::MissingField(Field::From),
        r#"{"fault":"missing_field","field":"from"}"#,
    ),
    (
        RecordFault::BadField(Field::Delay),
        r#"{"fault":"bad_field","field":"delay"}"#,
    ),
    (
        RecordFault::BadField(Field::Consignment),
        r#"{"fault":"bad_field","field":"consignment"}"#,
    ),
    (RecordFault::BadPlan(1), r#"{"code":1,"fault":"bad_plan"}"#),
    (RecordFault::BadPlan(8), r#"{"code":8,"fault":"bad_plan"}"#),
];

#[test]
fn texts_of_faults(rt: HostRuntime) -> Result<(), Fail> {
    for (fault, text) in &TEXTS {
        is_written(rt.alloc(), *fault, text)?;
    }
    Ok(())
}
