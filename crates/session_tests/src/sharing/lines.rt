//! The lines of sessions, and their calls. After `> ` stands the line of the reply.

use call_reader::read_call;
use std::alloc::Global;
use std::test::Fail;
use taf_messages::{Call, RecordFault};
use test_scripts::Script;

/// What a railway sends of its wagon.
pub(crate) static FIRST: &str = test_scripts::FIRST;

/// What another sends of its own.
pub(crate) static SECOND: &str = test_scripts::SECOND;

/// An interchange: of two wagons that are offered one is received. Then the records and the outboxes.
pub(crate) static INTERCHANGE: &str =
    r#"{"kind":"plan","from":"R100","no":1,"consignment":"C-1","load":"loaded","commit":"2025-03-01T15:30Z","wagons":["218124712173","338478961232"],"legs":[{"ru":"R101","origin":"DE00001","target":"AT00002","minutes":300},{"ru":"R102","origin":"AT00002","target":"IT00003","minutes":240}]}
{"at":"2025-03-01T05:30Z","from":"R100","kind":"release","no":2,"wagon":"218124712173"}
{"at":"2025-03-01T06:00Z","from":"R101","kind":"depart","no":1,"wagon":"218124712173"}
{"at":"2025-03-01T10:40Z","from":"R101","kind":"yard_in","no":2,"place":"AT00002","wagon":"218124712173"}
{"at":"2025-03-01T05:30Z","from":"R100","kind":"release","no":3,"wagon":"338478961232"}
{"at":"2025-03-01T06:00Z","from":"R101","kind":"depart","no":3,"wagon":"338478961232"}
{"at":"2025-03-01T10:50Z","from":"R101","kind":"offer","no":4,"place":"AT00002","to":"R102","train":"T-77","wagons":["218124712173","338478961232"]}
{"at":"2025-03-01T10:45Z","from":"R101","kind":"yard_in","no":5,"place":"AT00002","wagon":"338478961232"}
{"at":"2025-03-01T10:50Z","from":"R101","kind":"offer","no":6,"place":"AT00002","to":"R102","train":"T-77","wagons":["218124712173","338478961232"]}
{"at":"2025-03-01T11:10Z","from":"R102","kind":"answer","manager":"I300","no":1,"offer":6,"offerer":"R101","received":["218124712173"],"refused":["338478961232"]}
{"from":"R100","kind":"ask","wagon":"218124712173"}
{"from":"R100","kind":"ask","wagon":"338478961232"}
{"from":"R100","kind":"fetch","limit":50}
{"from":"R101","kind":"fetch","limit":50}
{"from":"R102","kind":"fetch","limit":50}
{"from":"I300","kind":"fetch","limit":50}"#;

/// The call of a line.
pub(crate) fn call_of(alloc: Global, line: &str) -> Result<Call, RecordFault> {
    read_call(alloc, line.as_bytes())
}

/// The lines of the replies to a session, as they are to be.
pub(crate) fn wanted_replies(alloc: Global, session: &str) -> Result<Vec<u8>, Fail> {
    let mut script = Script::new(alloc);
    script.add(session)?;
    Ok(script.wanted)
}
