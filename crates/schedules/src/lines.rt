//! The lines that sessions read.

use crate::draws::Draws;
use std::alloc::Global;
use taf_codes::Memory;

// What the lead sends, in the order of two journeys.
static LEAD: [&str; 16] = [
    r#"{"kind":"hello","from":"R100"}"#,
    r#"{"kind":"plan","from":"R100","no":1,"consignment":"C-1","load":"loaded","commit":"2025-03-01T15:30Z","wagons":["218124712173","338478961232"],"legs":[{"ru":"R101","origin":"DE00001","target":"AT00002","minutes":300},{"ru":"R102","origin":"AT00002","target":"IT00003","minutes":240}],"units":[{"unit":"CSQU3054383","wagon":"218124712173"}]}"#,
    r#"{"kind":"release","from":"R100","no":2,"wagon":"218124712173","at":"2025-03-01T05:30Z"}"#,
    r#"{"kind":"release","from":"R100","no":3,"wagon":"338478961232","at":"2025-03-01T05:30Z"}"#,
    r#"{"kind":"ask","from":"R100","wagon":"218124712173"}"#,
    r#"{"kind":"fetch","from":"R100","limit":10}"#,
    r#"{"kind":"eti_ask","from":"R100","no":4,"wagon":"218124712173"}"#,
    r#"{"kind":"deviation","from":"R100","consignment":"C-1"}"#,
    r#"{"kind":"reroute","from":"R100","no":5,"wagon":"338478961232","legs":[{"ru":"R102","origin":"AT00002","target":"CH00004","minutes":180}]}"#,
    r#"{"kind":"ack","from":"R100","item":3}"#,
    r#"{"kind":"plan","from":"R100","no":6,"consignment":"C-2","load":"empty","commit":"2025-03-02T15:30Z","wagons":["338478961232"],"legs":[{"ru":"R102","origin":"IT00003","target":"AT00002","minutes":240}]}"#,
    r#"{"kind":"ask_unit","from":"R100","unit":"CSQU3054383"}"#,
    r#"{"kind":"fetch","from":"R100","limit":50}"#,
    r#"{"kind":"release","from":"R100","no":2,"wagon":"218124712173","at":"2025-03-01T05:30Z"}"#,
    r#"{"kind":"release","from":"R100","no":2,"wagon":"338478961232","at":"2025-03-01T05:30Z"}"#,
    r#"{"kind":"ack","from":"R100","item":1000}"#,
];

// What the railway of the first leg sends.
static FIRST: [&str; 16] = [
    r#"{"kind":"hello","from":"R101"}"#,
    r#"{"kind":"depart","from":"R101","no":1,"wagon":"218124712173","at":"2025-03-01T06:00Z"}"#,
    r#"{"kind":"exception","from":"R101","no":2,"wagon":"218124712173","at":"2025-03-01T07:00Z","delay":45}"#,
    r#"{"kind":"depart","from":"R101","no":3,"wagon":"338478961232","at":"2025-03-01T06:00Z"}"#,
    r#"{"kind":"fetch","from":"R101","limit":5}"#,
    r#"{"kind":"yard_in","from":"R101","no":4,"wagon":"218124712173","at":"2025-03-01T10:40Z","place":"AT00002"}"#,
    r#"{"kind":"eti","from":"R101","no":5,"wagon":"338478961232","at":"2025-03-01T11:10Z"}"#,
    r#"{"kind":"ack","from":"R101","item":2}"#,
    r#"{"kind":"yard_in","from":"R101","no":6,"wagon":"338478961232","at":"2025-03-01T10:45Z","place":"AT00002"}"#,
    r#"{"kind":"offer","from":"R101","no":7,"at":"2025-03-01T10:50Z","train":"T-77","place":"AT00002","to":"R102","wagons":["218124712173","338478961232"]}"#,
    r#"{"kind":"withdraw","from":"R101","no":8,"at":"2025-03-01T11:00Z","offer":7}"#,
    r#"{"kind":"offer","from":"R101","no":9,"at":"2025-03-01T11:05Z","train":"T-77","place":"AT00002","to":"R102","wagons":["338478961232"]}"#,
    r#"{"kind":"ask","from":"R101","wagon":"338478961232"}"#,
    r#"{"kind":"offer","from":"R101","no":10,"at":"2025-03-01T11:20Z","train":"T-77","place":"AT00002","to":"R102","wagons":["218124712173"]}"#,
    r#"{"kind":"exception","from":"R101","no":2,"wagon":"218124712173","at":"2025-03-01T07:00Z","delay":45}"#,
    r#"{"kind":"fetch","from":"R101","limit":50}"#,
];

// What the railway of the second leg sends.
static SECOND: [&str; 16] = [
    r#"{"kind":"hello","from":"R102"}"#,
    r#"{"kind":"leg_time","from":"R102","no":1,"wagon":"218124712173","leg":1,"minutes":200}"#,
    r#"{"kind":"fetch","from":"R102","limit":10}"#,
    r#"{"kind":"answer","from":"R102","no":2,"at":"2025-03-01T11:10Z","offerer":"R101","offer":7,"received":["218124712173"],"refused":["338478961232"],"manager":"I300"}"#,
    r#"{"kind":"answer","from":"R102","no":3,"at":"2025-03-01T11:15Z","offerer":"R101","offer":9,"received":["338478961232"],"refused":[]}"#,
    r#"{"kind":"answer","from":"R102","no":4,"at":"2025-03-01T11:25Z","offerer":"R101","offer":10,"received":["218124712173"],"refused":[]}"#,
    r#"{"kind":"yard_out","from":"R102","no":5,"wagon":"218124712173","at":"2025-03-01T11:30Z","place":"AT00002"}"#,
    r#"{"kind":"ask","from":"R102","wagon":"218124712173"}"#,
    r#"{"kind":"arrival","from":"R102","no":6,"wagon":"218124712173","at":"2025-03-01T15:00Z"}"#,
    r#"{"kind":"ack","from":"R102","item":4}"#,
    r#"{"kind":"yard_out","from":"R102","no":7,"wagon":"338478961232","at":"2025-03-01T11:40Z","place":"AT00002"}"#,
    r#"{"kind":"delivery","from":"R102","no":8,"wagon":"218124712173","at":"2025-03-01T15:20Z"}"#,
    r#"{"kind":"arrival","from":"R102","no":9,"wagon":"338478961232","at":"2025-03-01T15:30Z"}"#,
    r#"{"kind":"delivery","from":"R102","no":10,"wagon":"338478961232","at":"2025-03-01T15:40Z"}"#,
    r#"{"kind":"ask_unit","from":"R102","unit":"CSQU3054383"}"#,
    r#"{"kind":"fetch","from":"R102","limit":50}"#,
];

// What the infrastructure manager sends.
static MANAGER: [&str; 4] = [
    r#"{"kind":"hello","from":"I300"}"#,
    r#"{"kind":"fetch","from":"I300","limit":10}"#,
    r#"{"kind":"ack","from":"I300","item":1}"#,
    r#"{"kind":"ask","from":"I300","wagon":"218124712173"}"#,
];

// Lines that are no calls of the session, or of no railway.
static STRAY: [&str; 12] = [
    "",
    " \t\r",
    "[]",
    "{",
    "noise",
    r#"{"kind":"hello"}"#,
    r#"{"kind":"hello","from":"r100"}"#,
    r#"{"kind":"hello","from":"R100"}"#,
    r#"{"kind":"fetch","from":"R104","limit":10}"#,
    r#"{"kind":"fetch","from":"R100","limit":0}"#,
    r#"{"kind":"cancel","from":"R100","no":9}"#,
    r#"{"kind":"plan","from":"R100","no":7,"consignment":"C-3","load":"empty","commit":"2025-03-02T15:30Z","wagons":["218124712173"],"legs":[]}"#,
];

// How many lines are drawn for a session at most.
const MOST_LINES: usize = 40;

// The lines of a railway, its hello first.
fn lines_of(railway: usize) -> &'static [&'static str] {
    match railway {
        0 => LEAD.as_slice(),
        1 => FIRST.as_slice(),
        2 => SECOND.as_slice(),
        _ => MANAGER.as_slice(),
    }
}

// A line of these, drawn.
fn drawn(draws: &mut Draws, lines: &'static [&'static str]) -> &'static str {
    if lines.is_empty() {
        return "";
    }
    lines[draws.below(lines.len())]
}

/// The lines of a session, and the hello of its railway.
#[derive(Drop)]
pub(crate) struct SessionLines {
    hello: &'static str,
    lines: Vec<&'static str>,
}

impl SessionLines {
    /// Draws what a session reads: the lines of a railway in the order of its journeys, with others among them.
    pub(crate) fn draw(alloc: Global, draws: &mut Draws) -> Result<SessionLines, Memory> {
        let own = lines_of(draws.below(4));
        let hello = match own.first() {
            Some(line) => *line,
            None => "",
        };
        let mut in_order = own.iter();
        let mut lines = Vec::new(alloc);
        for _ in 0..draws.below(MOST_LINES) + 1 {
            let line = match draws.below(8) {
                0 => drawn(draws, STRAY.as_slice()),
                1 => drawn(draws, own),
                _ => match in_order.next() {
                    Some(line) => *line,
                    None => drawn(draws, own),
                },
            };
            lines.push(line)?;
        }
        Ok(SessionLines { hello, lines })
    }

    /// What the next session reads where the railway comes back: its hello, and these lines from the one at this index on.
    pub(crate) fn again(&self, alloc: Global, from: usize) -> Result<SessionLines, Memory> {
        let mut lines = Vec::new(alloc);
        lines.push(self.hello)?;
        for line in self.lines.iter().skip(from) {
            lines.push(*line)?;
        }
        Ok(SessionLines {
            hello: self.hello,
            lines,
        })
    }

    /// How many lines there are.
    pub(crate) fn count(&self) -> usize {
        self.lines.len()
    }

    /// The line at this index, if there is one.
    pub(crate) fn get(&self, index: usize) -> Option<&'static str> {
        match self.lines.get(index) {
            Some(line) => Some(*line),
            None => None,
        }
    }
}
