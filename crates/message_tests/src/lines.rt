//! Lines that several tests read.
use crate::parts::message;
use std::alloc::Global;
use std::test::Fail;
use taf_messages::{Message, Shared};

/// Messages of which no two say the same. The last is of as many wagons and legs as a plan has.
pub(crate) static MESSAGES: &str =
    r#"{"kind":"plan","from":"R100","no":1,"consignment":"C-1","load":"loaded","commit":"2025-03-01T15:30Z","wagons":["218124712173","338478961232"],"legs":[{"ru":"R101","origin":"DE00001","target":"AT00002","minutes":300},{"ru":"R102","origin":"AT00002","target":"IT00003","minutes":240}]}
{"kind":"plan","from":"R100","no":1,"consignment":"C-1","load":"empty","commit":"2025-03-01T15:30Z","wagons":["218124712173"],"legs":[{"ru":"R101","origin":"DE00001","target":"AT00002","minutes":300}]}
{"kind":"plan","from":"R100","no":1,"consignment":"C-1","load":"empty","commit":"2025-03-01T15:30Z","wagons":["218124712173"],"legs":[{"ru":"R101","origin":"DE00001","target":"AT00002","minutes":301}]}
{"kind":"plan","from":"R100","no":1,"consignment":"C-1","load":"empty","commit":"2025-03-01T15:30Z","wagons":["218124712173"],"legs":[{"ru":"R101","origin":"DE00001","target":"AT00002","minutes":300}],"units":[{"unit":"CSQU3054383","wagon":"218124712173"}]}
{"kind":"depart","from":"R101","no":1,"wagon":"218124712173","at":"2025-03-01T06:00Z"}
{"kind":"eti","from":"R101","no":1,"wagon":"218124712173","at":"2025-03-01T06:00Z"}
{"kind":"eti","from":"R102","no":1,"wagon":"218124712173","at":"2025-03-01T06:00Z"}
{"kind":"eti","from":"R101","no":2,"wagon":"218124712173","at":"2025-03-01T06:00Z"}
{"kind":"eti","from":"R101","no":1,"wagon":"338478961232","at":"2025-03-01T06:00Z"}
{"kind":"eti","from":"R101","no":1,"wagon":"218124712173","at":"2025-03-01T06:01Z"}
{"kind":"exception","from":"R101","no":2,"wagon":"218124712173","at":"2025-03-01T07:00Z","delay":45}
{"kind":"exception","from":"R101","no":2,"wagon":"218124712173","at":"2025-03-01T07:00Z","delay":46}
{"kind":"yard_in","from":"R101","no":2,"wagon":"218124712173","at":"2025-03-01T10:40Z","place":"AT00002"}
{"kind":"yard_out","from":"R101","no":2,"wagon":"218124712173","at":"2025-03-01T10:40Z","place":"AT00002"}
{"kind":"yard_out","from":"R101","no":2,"wagon":"218124712173","at":"2025-03-01T10:40Z","place":"AT00009"}
{"kind":"eti_ask","from":"R100","no":3,"wagon":"218124712173"}
{"kind":"leg_time","from":"R102","no":1,"wagon":"218124712173","leg":1,"minutes":200}
{"kind":"offer","from":"R101","no":6,"at":"2025-03-01T10:50Z","train":"T-77","place":"AT00002","to":"R102","wagons":["218124712173","338478961232"]}
{"kind":"offer","from":"R101","no":6,"at":"2025-03-01T10:50Z","train":"T-77","place":"AT00002","to":"R102","wagons":["338478961232","218124712173"]}
{"kind":"answer","from":"R102","no":1,"at":"2025-03-01T11:10Z","offerer":"R101","offer":6,"received":["218124712173"],"refused":["338478961232"],"manager":"I300"}
{"kind":"answer","from":"R102","no":1,"at":"2025-03-01T11:10Z","offerer":"R101","offer":6,"received":["218124712173"],"refused":["338478961232"]}
{"kind":"answer","from":"R102","no":1,"at":"2025-03-01T11:10Z","offerer":"R101","offer":6,"received":["338478961232"],"refused":["218124712173"]}
{"kind":"withdraw","from":"R101","no":7,"at":"2025-03-01T11:00Z","offer":6}
{"kind":"reroute","from":"R100","no":3,"wagon":"218124712173","legs":[{"ru":"R103","origin":"AT00002","target":"CH00004","minutes":180}]}
{"kind":"plan","from":"R100","no":1,"consignment":"C-1","load":"loaded","commit":"2025-03-01T15:30Z","wagons":["218124710003","218124710011","218124710029","218124710037","218124710045","218124710052","218124710060","218124710078","218124710086","218124710094","218124710102","218124710110","218124710128","218124710136","218124710144","218124710151","218124710169","218124710177","218124710185","218124710193","218124710201","218124710219","218124710227","218124710235","218124710243","218124710250","218124710268","218124710276","218124710284","218124710292","218124710300","218124710318","218124710326","218124710334","218124710342","218124710359","218124710367","218124710375","218124710383","218124710391","218124710409","218124710417","218124710425","218124710433","218124710441","218124710458","218124710466","218124710474","218124710482","218124710490","218124710508","218124710516","218124710524","218124710532","218124710540","218124710557","218124710565","218124710573","218124710581","218124710599"],"legs":[{"ru":"R101","origin":"DE00001","target":"DE00002","minutes":100000},{"ru":"R102","origin":"DE00002","target":"DE00003","minutes":100000},{"ru":"R103","origin":"DE00003","target":"DE00004","minutes":100000},{"ru":"R104","origin":"DE00004","target":"DE00005","minutes":100000},{"ru":"R105","origin":"DE00005","target":"DE00006","minutes":100000},{"ru":"R106","origin":"DE00006","target":"DE00007","minutes":100000},{"ru":"R107","origin":"DE00007","target":"DE00008","minutes":100000},{"ru":"R108","origin":"DE00008","target":"DE00009","minutes":100000}]}"#;

/// Questions of which no two are the same.
pub(crate) static QUESTIONS: &str = r#"{"kind":"ask","from":"R100","wagon":"318066552148"}
{"kind":"ask","from":"R101","wagon":"318066552148"}
{"kind":"ask","from":"R100","wagon":"218124712173"}
{"kind":"ask_unit","from":"R100","unit":"CSQU3054383"}
{"kind":"deviation","from":"R100","consignment":"C-1"}
{"kind":"fetch","from":"R100","limit":10}
{"kind":"ack","from":"R100","item":10}"#;

/// The messages of their lines.
pub(crate) fn messages(alloc: Global) -> Result<Vec<Shared<Message>>, Fail> {
    let mut messages = Vec::new(alloc);
    for line in MESSAGES.lines() {
        messages.push(message(alloc, line)?)?;
    }
    Ok(messages)
}
