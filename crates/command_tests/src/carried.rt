//! `carry` on files of the system: a trip that is closed is left behind, and one that is not goes on.

use crate::commands::end_of;
use crate::journals::path_of;
use std::fs;
use std::fs::File;
use std::net::{Net, TcpListener, TcpStream};
use std::random::RandomSource;
use std::rt::{Clock, Files};
use std::sync::Wait;
use std::test::Fail;
use std::thread::Threads;

// A trip that is delivered, and whose railways have acknowledged all items; and one whose wagon is released.
const BEFORE: &str =
    r#"{"kind":"plan","from":"R100","no":1,"consignment":"C-1","load":"loaded","commit":"2025-03-01T15:30Z","wagons":["218124712173"],"legs":[{"ru":"R101","origin":"DE00001","target":"AT00002","minutes":300}]}
{"kind":"plan","from":"R200","no":1,"consignment":"C-2","load":"loaded","commit":"2025-03-01T15:30Z","wagons":["338478961232"],"legs":[{"ru":"R201","origin":"DE00001","target":"AT00002","minutes":300}]}
{"kind":"release","from":"R100","no":2,"wagon":"218124712173","at":"2025-03-01T05:30Z"}
{"kind":"ask","from":"R100","wagon":"218124712173"}
{"kind":"depart","from":"R101","no":1,"wagon":"218124712173","at":"2025-03-01T05:30Z"}
{"kind":"release","from":"R200","no":2,"wagon":"338478961232","at":"2025-03-01T05:30Z"}
{"kind":"arrival","from":"R101","no":2,"wagon":"218124712173","at":"2025-03-01T10:30Z"}
{"kind":"delivery","from":"R101","no":3,"wagon":"218124712173","at":"2025-03-01T10:40Z"}
{"kind":"ack","from":"R101","item":2}
{"kind":"ack","from":"R100","item":4}
{"kind":"ack","from":"R201","item":1}
"#;

// Eleven calls; the two messages of the second trip stay, and one acknowledgement.
const CARRIED: &str = "calls 11\ncarried 3\n";

// What comes behind the calls of the new journal: what stays has its first reply and its item; what was left behind is not known,
// and its names are free.
const AFTER: &str =
    r#"{"kind":"release","from":"R200","no":2,"wagon":"338478961232","at":"2025-03-01T05:30Z"}
{"kind":"fetch","from":"R201","limit":10}
{"kind":"ask","from":"R100","wagon":"218124712173"}
{"kind":"plan","from":"R100","no":1,"consignment":"C-1","load":"empty","commit":"2025-03-02T15:30Z","wagons":["218124712173"],"legs":[{"ru":"R101","origin":"AT00002","target":"DE00001","minutes":300}]}
"#;

const REPLIES: &str = r#"{"no":1,"reply":"accepted"}
{"no":2,"reply":"accepted"}
{"acknowledged":1,"reply":"acknowledged"}
{"no":2,"reply":"accepted"}
{"items":[{"item":2,"message":{"at":"2025-03-01T05:30Z","from":"R200","kind":"release","no":2,"wagon":"338478961232"},"type":"notice"}],"reply":"items"}
{"reply":"refused","wagon":"218124712173","why":"unknown_wagon"}
{"no":1,"reply":"accepted"}
wagons 2
338478961232 R200 ---- 0 released  DE00001 2025-03-01T10:30Z         0 loading
218124712173 R100 ---- 0 planned   AT00002 -----------------         0 fleet_control
"#;

// The output of a command that ends with status 0.
fn output_of<H>(rt: &H, words: &[&str], input: &str) -> Result<Vec<u8>, Fail>
where
    H: Files<File = File>
        + Net<Listener = TcpListener, Stream = TcpStream>
        + Threads
        + Wait
        + Clock
        + Sync
        + RandomSource
        + AllocGlobal,
{
    let mut line = String::new(rt.alloc());
    for word in words {
        line.push_str(word)?;
    }
    let ended = end_of(rt, line.as_str(), input)?;
    if ended.status != 0 {
        return Err(Fail::new("the status is not 0"));
    }
    Ok(ended.output)
}

// What carrying prints, and what the new journal then answers.
fn carried<H>(rt: &H, journal: &str, next: &str) -> Result<bool, Fail>
where
    H: Files<File = File>
        + Net<Listener = TcpListener, Stream = TcpStream>
        + Threads
        + Wait
        + Clock
        + Sync
        + RandomSource
        + AllocGlobal,
{
    let _answers = output_of(rt, &["taf_hub|replay|--journal|", journal], BEFORE)?;
    let counts = output_of(rt, &["taf_hub|carry|", journal, "|", next], "")?;
    // In this process the new journal is still open, and so it is read as a stream of records.
    let mut lines = fs::read_to_string(rt, next)?;
    lines.push_str(AFTER)?;
    let answers = output_of(rt, &["taf_hub|replay"], lines.as_str())?;
    let again = end_of(rt, "taf_hub|carry|/dev/null|/dev/null", "")?;
    Ok(
        counts.as_slice() == CARRIED.as_bytes()
            && answers.as_slice() == REPLIES.as_bytes()
            && again.status == 8,
    )
}

#[test]
fn a_closed_trip_is_left_behind(rt: HostRuntime) -> Result<(), Fail> {
    let journal = path_of(rt, 100)?;
    let next = path_of(rt, 101)?;
    let done = carried(&rt, journal.as_str(), next.as_str());
    let gone = fs::remove_file(&rt, journal.as_str());
    let next_gone = fs::remove_file(&rt, next.as_str());
    assert!(rt; done?);
    assert!(rt; gone.is_ok() && next_gone.is_ok());
    Ok(())
}
