//! Texts of items: notices of each kind, and what else a railway is told.
use crate::checks::{are_call, is_text};
use crate::lines::messages;
use crate::parts::{ONE, message, moment, railway, wagon, wagons, within, within32};
use reply_writer::write_item;
use std::alloc::Global;
use std::test::Fail;
use taf_messages::{Call, Item, ItemBody, Shared, SubNotice, Wagons};

// Lines, and below each the message that its notice carries: the kind's own fields alone, keys in byte order.
static NOTICES: &str =
    r#"{"kind":"plan","from":"R100","no":1,"consignment":"C-1","load":"loaded","commit":"2025-03-01T15:30Z","wagons":["218124712173","338478961232"],"legs":[{"ru":"R101","origin":"DE00001","target":"AT00002","minutes":300},{"ru":"R102","origin":"AT00002","target":"IT00003","minutes":240}]}
{"commit":"2025-03-01T15:30Z","consignment":"C-1","from":"R100","kind":"plan","legs":[{"minutes":300,"origin":"DE00001","ru":"R101","target":"AT00002"},{"minutes":240,"origin":"AT00002","ru":"R102","target":"IT00003"}],"load":"loaded","no":1,"wagons":["218124712173","338478961232"]}
{"kind":"plan","from":"R100","no":1,"consignment":"C-1","load":"empty","commit":"2025-03-01T15:30Z","wagons":["218124712173"],"legs":[{"ru":"R101","origin":"DE00001","target":"AT00002","minutes":300,"note":[]}],"units":[{"unit":"CSQU3054383","wagon":"218124712173","note":1}],"note":"x"}
{"commit":"2025-03-01T15:30Z","consignment":"C-1","from":"R100","kind":"plan","legs":[{"minutes":300,"origin":"DE00001","ru":"R101","target":"AT00002"}],"load":"empty","no":1,"units":[{"unit":"CSQU3054383","wagon":"218124712173"}],"wagons":["218124712173"]}
{"kind":"release","from":"R100","no":2,"wagon":"218124712173","at":"2025-03-01T05:30Z"}
{"at":"2025-03-01T05:30Z","from":"R100","kind":"release","no":2,"wagon":"218124712173"}
{"kind":"depart","from":"R101","no":1,"wagon":"218124712173","at":"2025-03-01T06:00Z"}
{"at":"2025-03-01T06:00Z","from":"R101","kind":"depart","no":1,"wagon":"218124712173"}
{"kind":"yard_in","from":"R101","no":2,"wagon":"218124712173","at":"2025-03-01T10:40Z","place":"AT00002"}
{"at":"2025-03-01T10:40Z","from":"R101","kind":"yard_in","no":2,"place":"AT00002","wagon":"218124712173"}
{"kind":"yard_out","from":"R102","no":4,"wagon":"218124712173","at":"2025-03-01T11:30Z","place":"AT00002"}
{"at":"2025-03-01T11:30Z","from":"R102","kind":"yard_out","no":4,"place":"AT00002","wagon":"218124712173"}
{"kind":"exception","from":"R101","no":2,"wagon":"218124712173","at":"2025-03-01T07:00Z","delay":45}
{"at":"2025-03-01T07:00Z","delay":45,"from":"R101","kind":"exception","no":2,"wagon":"218124712173"}
{"kind":"eti","from":"R101","no":3,"wagon":"218124712173","at":"2025-03-01T11:10Z"}
{"at":"2025-03-01T11:10Z","from":"R101","kind":"eti","no":3,"wagon":"218124712173"}
{"kind":"arrival","from":"R102","no":5,"wagon":"218124712173","at":"2025-03-01T15:00Z"}
{"at":"2025-03-01T15:00Z","from":"R102","kind":"arrival","no":5,"wagon":"218124712173"}
{"kind":"delivery","from":"R102","no":6,"wagon":"218124712173","at":"2025-03-01T15:20Z"}
{"at":"2025-03-01T15:20Z","from":"R102","kind":"delivery","no":6,"wagon":"218124712173"}
{"kind":"eti_ask","from":"R100","no":3,"wagon":"218124712173"}
{"from":"R100","kind":"eti_ask","no":3,"wagon":"218124712173"}
{"kind":"leg_time","from":"R102","no":1,"wagon":"218124712173","leg":1,"minutes":200}
{"from":"R102","kind":"leg_time","leg":1,"minutes":200,"no":1,"wagon":"218124712173"}
{"kind":"offer","from":"R101","no":6,"at":"2025-03-01T10:50Z","train":"T-77","place":"AT00002","to":"R102","wagons":["218124712173","338478961232"]}
{"at":"2025-03-01T10:50Z","from":"R101","kind":"offer","no":6,"place":"AT00002","to":"R102","train":"T-77","wagons":["218124712173","338478961232"]}
{"kind":"answer","from":"R102","no":1,"at":"2025-03-01T11:10Z","offerer":"R101","offer":6,"received":["218124712173"],"refused":["338478961232"],"manager":"I300"}
{"at":"2025-03-01T11:10Z","from":"R102","kind":"answer","manager":"I300","no":1,"offer":6,"offerer":"R101","received":["218124712173"],"refused":["338478961232"]}
{"kind":"answer","from":"R102","no":3,"at":"2025-03-01T11:10Z","offerer":"R101","offer":6,"received":[],"refused":[],"manager":null}
{"at":"2025-03-01T11:10Z","from":"R102","kind":"answer","no":3,"offer":6,"offerer":"R101","received":[],"refused":[]}
{"kind":"withdraw","from":"R101","no":7,"at":"2025-03-01T11:00Z","offer":6}
{"at":"2025-03-01T11:00Z","from":"R101","kind":"withdraw","no":7,"offer":6}
{"kind":"reroute","from":"R100","no":3,"wagon":"218124712173","legs":[{"ru":"R103","origin":"AT00002","target":"CH00004","minutes":180}]}
{"from":"R100","kind":"reroute","legs":[{"minutes":180,"origin":"AT00002","ru":"R103","target":"CH00004"}],"no":3,"wagon":"218124712173"}"#;

// A notice carries its message, and that text is read as the call that sent it.
fn notice(alloc: Global, line: &str, text: &str) -> Result<(), Fail> {
    let body = ItemBody::Notice(message(alloc, line)?);
    let whole = ["{\"item\":7,\"message\":", text, ",\"type\":\"notice\"}"].concat(alloc)?;
    is_text(write_item(alloc, &Item { number: 7, body }), &whole)?;
    are_call(alloc, text, &Call::Send(message(alloc, line)?))
}

#[test]
fn notices(rt: HostRuntime) -> Result<(), Fail> {
    let mut line = None;
    for next in NOTICES.lines() {
        line = match line {
            None => Some(next),
            Some(line) => {
                notice(rt.alloc(), line, next)?;
                None
            }
        };
    }
    Ok(())
}

fn sub(alloc: Global) -> Result<ItemBody, Fail> {
    let at = moment("2025-03-01T11:10Z")?;
    let from = railway("R102")?;
    let offer = within(6)?;
    let offerer = railway("R101")?;
    let Some(wagons) = Wagons::new(wagons(alloc, &[ONE])?) else {
        return Err(Fail::new("no wagons"));
    };
    let sub = SubNotice {
        at,
        from,
        offer,
        offerer,
        wagons,
    };
    Ok(ItemBody::Sub(Shared::new(alloc, sub)?))
}

static DEPARTURE: &str =
    r#"{"kind":"depart","from":"R101","no":1,"wagon":"218124712173","at":"2025-03-01T06:00Z"}"#;

/// The first two items of the lead: the notice of a departure, and when the wagon is expected.
pub(crate) fn two_items(alloc: Global) -> Result<Vec<Item>, Fail> {
    let wagon = wagon(ONE)?;
    let at = moment("2025-03-01T15:00Z")?;
    let mut items = Vec::new(alloc);
    let notice = ItemBody::Notice(message(alloc, DEPARTURE)?);
    add(&mut items, 1, notice)?;
    add(&mut items, 2, ItemBody::Eta { wagon, at })?;
    Ok(items)
}

static TWO_ITEMS: &str =
    r#"{"item":1,"message":{"at":"2025-03-01T06:00Z","from":"R101","kind":"depart","no":1,"wagon":"218124712173"},"type":"notice"}
{"at":"2025-03-01T15:00Z","item":2,"type":"eta","wagon":"218124712173"}"#;

fn add(items: &mut Vec<Item>, number: u64, body: ItemBody) -> Result<(), Fail> {
    Ok(items.push(Item { number, body })?)
}

// Adds items of this number that carry no message.
fn add_others(alloc: Global, items: &mut Vec<Item>, number: u64) -> Result<(), Fail> {
    let wagon = wagon(ONE)?;
    let at = moment("2025-03-01T10:30Z")?;
    add(items, number, sub(alloc)?)?;
    for leg in 0..2 {
        let leg = within32(leg)?;
        add(items, number, ItemBody::Eti { wagon, leg, at })?;
    }
    add(items, number, ItemBody::Eta { wagon, at })?;
    for late_by in [15, u32::MAX] {
        add(items, number, ItemBody::AlertBegins { wagon, late_by })?;
    }
    add(items, number, ItemBody::AlertEnds { wagon })
}

static OTHERS: &str =
    r#"{"at":"2025-03-01T11:10Z","from":"R102","item":1,"offer":6,"offerer":"R101","type":"sub","wagons":["218124712173"]}
{"at":"2025-03-01T10:30Z","item":1,"leg":0,"type":"eti","wagon":"218124712173"}
{"at":"2025-03-01T10:30Z","item":1,"leg":1,"type":"eti","wagon":"218124712173"}
{"at":"2025-03-01T10:30Z","item":1,"type":"eta","wagon":"218124712173"}
{"item":1,"late_by":15,"type":"alert_begins","wagon":"218124712173"}
{"item":1,"late_by":4294967295,"type":"alert_begins","wagon":"218124712173"}
{"item":1,"type":"alert_ends","wagon":"218124712173"}"#;

static OTHERS_OF_THE_GREATEST_NUMBER: &str =
    r#"{"at":"2025-03-01T11:10Z","from":"R102","item":18446744073709551615,"offer":6,"offerer":"R101","type":"sub","wagons":["218124712173"]}
{"at":"2025-03-01T10:30Z","item":18446744073709551615,"leg":0,"type":"eti","wagon":"218124712173"}
{"at":"2025-03-01T10:30Z","item":18446744073709551615,"leg":1,"type":"eti","wagon":"218124712173"}
{"at":"2025-03-01T10:30Z","item":18446744073709551615,"type":"eta","wagon":"218124712173"}
{"item":18446744073709551615,"late_by":15,"type":"alert_begins","wagon":"218124712173"}
{"item":18446744073709551615,"late_by":4294967295,"type":"alert_begins","wagon":"218124712173"}
{"item":18446744073709551615,"type":"alert_ends","wagon":"218124712173"}"#;

/// Items of which no two say the same: notices, and what else a railway is told.
pub(crate) fn items(alloc: Global) -> Result<Vec<Item>, Fail> {
    let mut items = Vec::new(alloc);
    for number in [1, 2] {
        add_others(alloc, &mut items, number)?;
        for message in messages(alloc)? {
            add(&mut items, number, ItemBody::Notice(message))?;
        }
    }
    Ok(items)
}

// Fails unless the items have the texts of these lines.
fn have_texts(alloc: Global, items: &[Item], texts: &str) -> Result<(), Fail> {
    let mut texts = texts.lines();
    for item in items {
        let Some(text) = texts.next() else {
            return Err(Fail::new("no text"));
        };
        is_text(write_item(alloc, item), text)?;
    }
    Ok(())
}

// Fails unless the items of this number that carry no message have the texts of these lines.
fn others_have_texts(alloc: Global, number: u64, texts: &str) -> Result<(), Fail> {
    let mut others = Vec::new(alloc);
    add_others(alloc, &mut others, number)?;
    have_texts(alloc, &others, texts)
}

#[test]
fn texts_of_items(rt: HostRuntime) -> Result<(), Fail> {
    have_texts(rt.alloc(), &two_items(rt.alloc())?, TWO_ITEMS)?;
    others_have_texts(rt.alloc(), 1, OTHERS)?;
    others_have_texts(rt.alloc(), u64::MAX, OTHERS_OF_THE_GREATEST_NUMBER)
}
