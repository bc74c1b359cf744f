//! Calls written as records.
use crate::checks::shown;
use call_reader::read_call;
use reply_writer::{Buffer, append_call};
use std::alloc::Global;
use std::test::Fail;

// A record of each kind, and the text of its call: the same fields, in the byte order of their keys, without blanks and without
// the fields that are no part of the call.
static RECORDS: [(&str, &str); 21] = [
    (
        r#"{"kind":"plan","from":"R100","no":1,"consignment":"C-1","load":"loaded","commit":"2025-03-01T15:30Z","wagons":["218124712173","338478961232"],"legs":[{"ru":"R101","origin":"DE00001","target":"AT00002","minutes":300},{"ru":"R102","origin":"AT00002","target":"IT00003","minutes":240}],"units":[{"unit":"CSQU3054383","wagon":"218124712173"}]}"#,
        r#"{"commit":"2025-03-01T15:30Z","consignment":"C-1","from":"R100","kind":"plan","legs":[{"minutes":300,"origin":"DE00001","ru":"R101","target":"AT00002"},{"minutes":240,"origin":"AT00002","ru":"R102","target":"IT00003"}],"load":"loaded","no":1,"units":[{"unit":"CSQU3054383","wagon":"218124712173"}],"wagons":["218124712173","338478961232"]}"#,
    ),
    (
        r#"{"kind":"release","from":"R100","no":2,"wagon":"218124712173","at":"2025-03-01T05:30Z"}"#,
        r#"{"at":"2025-03-01T05:30Z","from":"R100","kind":"release","no":2,"wagon":"218124712173"}"#,
    ),
    (
        r#"{"kind":"depart","from":"R101","no":1,"wagon":"218124712173","at":"2025-03-01T06:00Z"}"#,
        r#"{"at":"2025-03-01T06:00Z","from":"R101","kind":"depart","no":1,"wagon":"218124712173"}"#,
    ),
    (
        r#"{"kind":"yard_in","from":"R101","no":3,"wagon":"218124712173","at":"2025-03-01T08:00Z","place":"DE00005"}"#,
        r#"{"at":"2025-03-01T08:00Z","from":"R101","kind":"yard_in","no":3,"place":"DE00005","wagon":"218124712173"}"#,
    ),
    (
        r#"{"kind":"yard_out","from":"R101","no":4,"wagon":"218124712173","at":"2025-03-01T08:30Z","place":"DE00005"}"#,
        r#"{"at":"2025-03-01T08:30Z","from":"R101","kind":"yard_out","no":4,"place":"DE00005","wagon":"218124712173"}"#,
    ),
    (
        r#"{"kind":"exception","from":"R101","no":5,"wagon":"218124712173","at":"2025-03-01T09:10Z","delay":45}"#,
        r#"{"at":"2025-03-01T09:10Z","delay":45,"from":"R101","kind":"exception","no":5,"wagon":"218124712173"}"#,
    ),
    (
        r#"{"kind":"eti_ask","from":"R100","no":4,"wagon":"218124712173"}"#,
        r#"{"from":"R100","kind":"eti_ask","no":4,"wagon":"218124712173"}"#,
    ),
    (
        r#"{"kind":"eti","from":"R101","no":6,"wagon":"218124712173","at":"2025-03-01T11:10Z"}"#,
        r#"{"at":"2025-03-01T11:10Z","from":"R101","kind":"eti","no":6,"wagon":"218124712173"}"#,
    ),
    (
        r#"{"kind":"leg_time","from":"R102","no":1,"wagon":"218124712173","leg":1,"minutes":280}"#,
        r#"{"from":"R102","kind":"leg_time","leg":1,"minutes":280,"no":1,"wagon":"218124712173"}"#,
    ),
    (
        r#"{"kind":"offer","from":"R101","no":9,"at":"2025-03-01T11:10Z","train":"T-77","place":"AT00002","to":"R102","wagons":["218124712173","338478961232"]}"#,
        r#"{"at":"2025-03-01T11:10Z","from":"R101","kind":"offer","no":9,"place":"AT00002","to":"R102","train":"T-77","wagons":["218124712173","338478961232"]}"#,
    ),
    (
        r#"{"kind":"withdraw","from":"R101","no":10,"at":"2025-03-01T11:12Z","offer":9}"#,
        r#"{"at":"2025-03-01T11:12Z","from":"R101","kind":"withdraw","no":10,"offer":9}"#,
    ),
    (
        r#"{"kind":"answer","from":"R102","no":2,"at":"2025-03-01T11:20Z","offerer":"R101","offer":11,"received":["218124712173"],"refused":["338478961232"],"manager":"I300"}"#,
        r#"{"at":"2025-03-01T11:20Z","from":"R102","kind":"answer","manager":"I300","no":2,"offer":11,"offerer":"R101","received":["218124712173"],"refused":["338478961232"]}"#,
    ),
    (
        r#"{"kind":"answer","from":"R102","no":2,"at":"2025-03-01T11:20Z","offerer":"R101","offer":11,"received":[],"refused":["338478961232"],"manager":null}"#,
        r#"{"at":"2025-03-01T11:20Z","from":"R102","kind":"answer","no":2,"offer":11,"offerer":"R101","received":[],"refused":["338478961232"]}"#,
    ),
    (
        r#"{"kind":"reroute","from":"R100","no":5,"wagon":"338478961232","legs":[{"ru":"R103","origin":"AT00002","target":"IT00003","minutes":260}]}"#,
        r#"{"from":"R100","kind":"reroute","legs":[{"minutes":260,"origin":"AT00002","ru":"R103","target":"IT00003"}],"no":5,"wagon":"338478961232"}"#,
    ),
    (
        r#"{"kind":"arrival","from":"R102","no":4,"wagon":"218124712173","at":"2025-03-01T16:20Z"}"#,
        r#"{"at":"2025-03-01T16:20Z","from":"R102","kind":"arrival","no":4,"wagon":"218124712173"}"#,
    ),
    (
        r#"{"kind":"delivery","from":"R102","no":5,"wagon":"218124712173","at":"2025-03-01T16:50Z"}"#,
        r#"{"at":"2025-03-01T16:50Z","from":"R102","kind":"delivery","no":5,"wagon":"218124712173"}"#,
    ),
    (
        r#"{"kind":"ask","from":"R103","wagon":"338478961232","note":"unknown"}"#,
        r#"{"from":"R103","kind":"ask","wagon":"338478961232"}"#,
    ),
    (
        r#"{"kind":"ask_unit","from":"R102","unit":"CSQU3054383"}"#,
        r#"{"from":"R102","kind":"ask_unit","unit":"CSQU3054383"}"#,
    ),
    (
        r#"{"kind": "deviation", "from": "R100", "consignment": "C-1"}"#,
        r#"{"consignment":"C-1","from":"R100","kind":"deviation"}"#,
    ),
    (
        r#"{"kind":"fetch","from":"R103","limit":10}"#,
        r#"{"from":"R103","kind":"fetch","limit":10}"#,
    ),
    (
        r#"{"kind":"ack","from":"R100","item":5}"#,
        r#"{"from":"R100","item":5,"kind":"ack"}"#,
    ),
];

// Fails with what is written for the call of a record, unless it is this text behind what was there.
fn is_written_as(alloc: Global, line: &str, text: &str) -> Result<(), Fail> {
    let call = read_call(alloc, line.as_bytes())?;
    let mut out = Buffer::new(Vec::from_slice(alloc, b"before\n")?);
    append_call(alloc, &mut out, &call)?;
    match shown(out.as_slice()).strip_prefix("before\n") {
        Some(written) if written == text => Ok(()),
        _ => Err(Fail::new(line)),
    }
}

#[test]
fn a_call_of_each_kind(rt: HostRuntime) -> Result<(), Fail> {
    for (line, text) in &RECORDS {
        is_written_as(rt.alloc(), line, text)?;
    }
    Ok(())
}
