//! Replies and their texts.
use crate::checks::is_written;
use crate::items::{items, two_items};
use crate::parts::{ONE, THREE, wagon, within};
use crate::records::{LATE, RUNNING, planned, running};
use std::alloc::Global;
use std::test::Fail;
use taf_messages::{Item, Listed, Refusal, Reply, Shared, Why};

fn add_acceptances(replies: &mut Vec<Reply>) -> Result<(), Fail> {
    for no in [1, 999_999_999_999] {
        replies.push(Reply::Accepted { no: within(no)? })?;
    }
    Ok(replies.push(Reply::Acknowledged(1))?)
}

fn add_refusals(alloc: Global, replies: &mut Vec<Reply>) -> Result<(), Fail> {
    let one = Some(wagon(ONE)?);
    let three = Some(wagon(THREE)?);
    let two = Some(within(2)?);
    for (no, why, wagon, last) in [
        (None, Why::UnknownWagon, three, None),
        (two, Why::WrongStage, one, None),
        (two, Why::NumberReused, None, None),
        (two, Why::OfferClosed, None, None),
        (None, Why::AckAhead, None, Some(5)),
    ] {
        let refusal = Refusal {
            no,
            why,
            wagon,
            last,
        };
        replies.push(Reply::Refused(Shared::new(alloc, refusal)?))?;
    }
    Ok(())
}

// The reasons in the order of their names.
static REASONS: [Why; 20] = [
    Why::UnknownWagon,
    Why::UnknownConsignment,
    Why::UnknownOffer,
    Why::UnknownUnit,
    Why::ConsignmentTaken,
    Why::WagonBusy,
    Why::UnitBusy,
    Why::WrongStage,
    Why::NotYours,
    Why::WrongPlace,
    Why::WrongNext,
    Why::TooManyLegs,
    Why::NoSuchLeg,
    Why::LegStarted,
    Why::NotLastLeg,
    Why::OfferClosed,
    Why::ListsDiffer,
    Why::BeyondCalendar,
    Why::NumberReused,
    Why::AckAhead,
];

fn add_reasons(alloc: Global, replies: &mut Vec<Reply>) -> Result<(), Fail> {
    for why in &REASONS {
        let refusal = Refusal {
            no: None,
            why: *why,
            wagon: None,
            last: None,
        };
        replies.push(Reply::Refused(Shared::new(alloc, refusal)?))?;
    }
    Ok(())
}

fn add_items(alloc: Global, replies: &mut Vec<Reply>, items: Vec<Item>) -> Result<(), Fail> {
    let items = Shared::new(alloc, Listed::from_vec(items))?;
    Ok(replies.push(Reply::Items(items))?)
}

// Adds a list of no records, one of no items and one of two.
fn add_lists(alloc: Global, replies: &mut Vec<Reply>) -> Result<(), Fail> {
    let none = Shared::new(alloc, Listed::from_vec(Vec::new(alloc)))?;
    replies.push(Reply::Many(none))?;
    add_items(alloc, replies, Vec::new(alloc))?;
    add_items(alloc, replies, two_items(alloc)?)
}

// The replies with the texts of the lines below.
fn short_replies(alloc: Global) -> Result<Vec<Reply>, Fail> {
    let mut replies = Vec::new(alloc);
    add_acceptances(&mut replies)?;
    add_refusals(alloc, &mut replies)?;
    add_reasons(alloc, &mut replies)?;
    add_lists(alloc, &mut replies)?;
    Ok(replies)
}

static TEXTS: &str = r#"{"no":1,"reply":"accepted"}
{"no":999999999999,"reply":"accepted"}
{"acknowledged":1,"reply":"acknowledged"}
{"reply":"refused","wagon":"318066552148","why":"unknown_wagon"}
{"no":2,"reply":"refused","wagon":"218124712173","why":"wrong_stage"}
{"no":2,"reply":"refused","why":"number_reused"}
{"no":2,"reply":"refused","why":"offer_closed"}
{"last":5,"reply":"refused","why":"ack_ahead"}
{"reply":"refused","why":"unknown_wagon"}
{"reply":"refused","why":"unknown_consignment"}
{"reply":"refused","why":"unknown_offer"}
{"reply":"refused","why":"unknown_unit"}
{"reply":"refused","why":"consignment_taken"}
{"reply":"refused","why":"wagon_busy"}
{"reply":"refused","why":"unit_busy"}
{"reply":"refused","why":"wrong_stage"}
{"reply":"refused","why":"not_yours"}
{"reply":"refused","why":"wrong_place"}
{"reply":"refused","why":"wrong_next"}
{"reply":"refused","why":"too_many_legs"}
{"reply":"refused","why":"no_such_leg"}
{"reply":"refused","why":"leg_started"}
{"reply":"refused","why":"not_last_leg"}
{"reply":"refused","why":"offer_closed"}
{"reply":"refused","why":"lists_differ"}
{"reply":"refused","why":"beyond_calendar"}
{"reply":"refused","why":"number_reused"}
{"reply":"refused","why":"ack_ahead"}
{"records":[],"reply":"records"}
{"items":[],"reply":"items"}
{"items":[{"item":1,"message":{"at":"2025-03-01T06:00Z","from":"R101","kind":"depart","no":1,"wagon":"218124712173"},"type":"notice"},{"at":"2025-03-01T15:00Z","item":2,"type":"eta","wagon":"218124712173"}],"reply":"items"}"#;

#[test]
fn texts_of_replies(rt: HostRuntime) -> Result<(), Fail> {
    let mut texts = TEXTS.lines();
    for reply in short_replies(rt.alloc())?.iter() {
        let Some(text) = texts.next() else {
            return Err(Fail::new("no text"));
        };
        is_written(rt.alloc(), reply, text)?;
    }
    assert!(rt; texts.next().is_none());
    Ok(())
}

// The reply with one record, of a wagon that runs late or not.
fn one_record(alloc: Global, late: bool) -> Result<Reply, Fail> {
    Ok(Reply::One(Shared::new(alloc, running(alloc, late)?)?))
}

fn two_records(alloc: Global) -> Result<Reply, Fail> {
    let mut records = Vec::new(alloc);
    records.push(running(alloc, true)?)?;
    records.push(running(alloc, false)?)?;
    Ok(Reply::Many(Shared::new(alloc, Listed::from_vec(records))?))
}

// Fails unless the reply has the text of these parts.
fn has_parts(alloc: Global, reply: &Reply, parts: &[&str]) -> Result<(), Fail> {
    let text = parts.concat(alloc)?;
    is_written(alloc, reply, &text)
}

static ONE_RECORD: [&str; 3] = ["{\"record\":", RUNNING, ",\"reply\":\"record\"}"];

static TWO_RECORDS: [&str; 5] = [
    "{\"records\":[",
    LATE,
    ",",
    RUNNING,
    "],\"reply\":\"records\"}",
];

#[test]
fn replies_with_records(rt: HostRuntime) -> Result<(), Fail> {
    has_parts(rt.alloc(), &one_record(rt.alloc(), false)?, &ONE_RECORD)?;
    has_parts(rt.alloc(), &two_records(rt.alloc())?, &TWO_RECORDS)
}

// Adds the reply with a planned wagon's record, those with a running one's, and the one with two records.
fn add_records(alloc: Global, replies: &mut Vec<Reply>) -> Result<(), Fail> {
    replies.push(one_record(alloc, false)?)?;
    replies.push(one_record(alloc, true)?)?;
    replies.push(Reply::One(Shared::new(alloc, planned(alloc)?)?))?;
    Ok(replies.push(two_records(alloc)?)?)
}

/// Replies of which no two say the same.
pub(crate) fn replies(alloc: Global) -> Result<Vec<Reply>, Fail> {
    let mut replies = short_replies(alloc)?;
    add_items(alloc, &mut replies, items(alloc)?)?;
    add_records(alloc, &mut replies)?;
    Ok(replies)
}
