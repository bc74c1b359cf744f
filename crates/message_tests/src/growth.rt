//! Each growth refused in turn: the answer is Memory, nothing is lost, and the call made again gives
//! what it gives with ample memory.
use crate::calls::plan;
use crate::checks::shown;
use crate::items::items;
use crate::legs::two_legs;
use crate::lines::{MESSAGES, messages};
use crate::parts::{ONE, leg, wagon};
use crate::records::running;
use crate::replies::replies;
use call_reader::read_call;
use memory_limit::MemoryLimit;
use reply_writer::{
    Buffer, WagonLegs, append_fault, append_reply, write_fault, write_fleet_legs, write_item,
    write_record, write_reply, write_wagon_legs,
};
use std::alloc::Global;
use std::test::Fail;
use taf_codes::{Memory, UnitCode};
use taf_messages::{
    Call, Field, Item, ItemBody, Message, Record, RecordFault, Reply, Shared, copy, copy_call,
    copy_item, copy_reply,
};
use trip_plan::{Plan, PlanFault, Route};

// How many budgets are tried, each of sixteen bytes more than the one before.
const BUDGETS: usize = 4000;

// What is made with little memory, beside what it is with ample memory.
#[derive(Drop)]
enum Attempt<'a> {
    Read(&'a str, &'a Result<Call, RecordFault>),
    Reply(&'a Reply, &'a [u8]),
    AppendedReply(&'a Reply, &'a [u8]),
    Item(&'a Item, &'a [u8]),
    Record(&'a Record, &'a [u8]),
    WagonLegs(&'a WagonLegs<'a>, &'a [u8]),
    FleetLegs(&'a [WagonLegs<'a>], &'a [u8]),
    Fault(RecordFault, &'a [u8]),
    AppendedFault(RecordFault, &'a [u8]),
    Plan(&'a Plan),
    Route(&'a Route),
}

impl Attempt<'_> {
    // Whether it is made as with ample memory: none where memory was refused. What is appended goes to `out`.
    fn is_made(&self, alloc: Global, out: &mut Buffer) -> Option<bool> {
        match self {
            Attempt::Read(line, whole) => is_read(read_call(alloc, line.as_bytes()), whole),
            Attempt::Reply(reply, text) => is_text(write_reply(alloc, reply), text),
            Attempt::AppendedReply(reply, text) => {
                let appended = append_reply(alloc, out, reply);
                is_appended(appended, out.as_slice(), text)
            }
            Attempt::Item(item, text) => is_text(write_item(alloc, item), text),
            Attempt::Record(known, text) => is_text(write_record(alloc, known), text),
            Attempt::WagonLegs(shown, text) => is_text(write_wagon_legs(alloc, shown), text),
            Attempt::FleetLegs(fleet, text) => is_text(write_fleet_legs(alloc, fleet), text),
            Attempt::Fault(fault, text) => is_fault(alloc, *fault, text),
            Attempt::AppendedFault(fault, text) => is_fault_appended(alloc, out, *fault, text),
            Attempt::Plan(plan) => is_whole(planned_again(alloc, plan), plan),
            Attempt::Route(route) => is_whole(Route::new(alloc, route.legs()), route),
        }
    }
}

fn is_read(answer: Result<Call, RecordFault>, whole: &Result<Call, RecordFault>) -> Option<bool> {
    if answer == Err(RecordFault::Memory) {
        None
    } else {
        Some(answer == *whole)
    }
}

fn is_text(answer: Result<Vec<u8>, Memory>, text: &[u8]) -> Option<bool> {
    let answer = answer.ok()?;
    Some(answer.as_slice() == text)
}

// A text that is refused leaves what was there.
fn is_appended(appended: Result<(), Memory>, out: &[u8], text: &[u8]) -> Option<bool> {
    let rest = out.strip_prefix(b"before")?;
    match appended {
        Ok(()) => Some(rest == text),
        Err(Memory) if rest.is_empty() => None,
        Err(Memory) => Some(false),
    }
}

fn is_fault(alloc: Global, fault: RecordFault, text: &[u8]) -> Option<bool> {
    if fault == RecordFault::Memory {
        return None;
    }
    is_text(write_fault(alloc, &fault), text)
}

fn is_fault_appended(
    alloc: Global,
    out: &mut Buffer,
    fault: RecordFault,
    text: &[u8],
) -> Option<bool> {
    if fault == RecordFault::Memory {
        return None;
    }
    let appended = append_fault(alloc, out, &fault);
    is_appended(appended, out.as_slice(), text)
}

fn planned_again(alloc: Global, plan: &Plan) -> Result<Plan, PlanFault> {
    let units = plan.units();
    if units.len() > 120 {
        return Err(PlanFault::BadPlan(0));
    }
    Plan::with_units(
        alloc,
        plan.lead(),
        plan.consignment(),
        plan.load(),
        plan.wagons(),
        plan.legs(),
        units,
        plan.commit(),
    )
}

fn is_whole<T: PartialEq + Drop>(answer: Result<T, PlanFault>, whole: &T) -> Option<bool> {
    match answer {
        Ok(made) => Some(made == *whole),
        Err(PlanFault::Memory) => None,
        Err(PlanFault::BadPlan(_)) => Some(false),
    }
}

// How often it was refused before it was made. Each time that it was refused, it is made with ample memory then.
fn count_refusals(
    alloc: Global,
    memory_limit: &mut MemoryLimit,
    attempt: &Attempt,
) -> Result<usize, Fail> {
    for budget in 0..BUDGETS {
        let mut out = Buffer::new(Vec::from_slice(alloc, b"before")?);
        memory_limit.limit_to(budget * 16)?;
        let made = attempt.is_made(alloc, &mut out);
        memory_limit.release();
        match made {
            Some(true) => return Ok(budget),
            Some(false) => return Err(Fail::new("made otherwise")),
            None => {}
        }
        if attempt.is_made(alloc, &mut out) != Some(true) {
            return Err(Fail::new("not made afterwards"));
        }
    }
    Err(Fail::new("always refused"))
}

// The same with a limit of its own.
fn refusals(alloc: Global, attempt: &Attempt) -> Result<usize, Fail> {
    let mut memory_limit = MemoryLimit::new(alloc)?;
    count_refusals(alloc, &mut memory_limit, attempt)
}

static QUESTIONS: &str = r#"{"kind":"ask","from":"R100","wagon":"318066552148"}
{"kind":"deviation","from":"R100","consignment":"C-1"}
{"kind":"fetch","from":"R100","limit":0}
{"kind":"ack","item":[1,2,{"a":"b"}]}"#;

fn refusals_of_reading(
    alloc: Global,
    memory_limit: &mut MemoryLimit,
    line: &str,
) -> Result<usize, Fail> {
    let whole = read_call(alloc, line.as_bytes());
    count_refusals(alloc, memory_limit, &Attempt::Read(line, &whole))
}

#[test]
fn reading(rt: HostRuntime) -> Result<(), Fail> {
    let mut memory_limit = MemoryLimit::new(rt.alloc())?;
    let mut refused: usize = 0;
    for line in MESSAGES.lines().chain(QUESTIONS.lines()) {
        let more = refusals_of_reading(rt.alloc(), &mut memory_limit, line)?;
        refused = refused.saturating_add(more);
    }
    // A record without lists takes so little that what was just given back may serve it. The others are refused often.
    assert!(rt; refused > 20, "{refused}");
    Ok(())
}

// Whether the text of the reply is refused, alone and behind other text.
fn is_reply_refused(
    alloc: Global,
    memory_limit: &mut MemoryLimit,
    reply: &Reply,
) -> Result<bool, Fail> {
    let text = write_reply(alloc, reply)?;
    let alone = count_refusals(alloc, memory_limit, &Attempt::Reply(reply, &text))?;
    let behind = count_refusals(alloc, memory_limit, &Attempt::AppendedReply(reply, &text))?;
    Ok(alone > 0 && behind > 0)
}

#[test]
fn writing_replies(rt: HostRuntime) -> Result<(), Fail> {
    let mut memory_limit = MemoryLimit::new(rt.alloc())?;
    for reply in replies(rt.alloc())?.iter() {
        assert!(rt; is_reply_refused(rt.alloc(), &mut memory_limit, reply)?);
    }
    Ok(())
}

fn is_item_refused(
    alloc: Global,
    memory_limit: &mut MemoryLimit,
    item: &Item,
) -> Result<bool, Fail> {
    let text = write_item(alloc, item)?;
    Ok(count_refusals(alloc, memory_limit, &Attempt::Item(item, &text))? > 0)
}

#[test]
fn writing_items(rt: HostRuntime) -> Result<(), Fail> {
    let mut memory_limit = MemoryLimit::new(rt.alloc())?;
    for item in items(rt.alloc())?.iter() {
        assert!(rt; is_item_refused(rt.alloc(), &mut memory_limit, item)?);
    }
    Ok(())
}

fn refusals_of_record(alloc: Global, known: &Record) -> Result<usize, Fail> {
    let text = write_record(alloc, known)?;
    refusals(alloc, &Attempt::Record(known, &text))
}

#[test]
fn writing_a_record(rt: HostRuntime) -> Result<(), Fail> {
    let known = running(rt.alloc(), true)?;
    assert!(rt; refusals_of_record(rt.alloc(), &known)? > 1);
    Ok(())
}

fn are_legs_refused(alloc: Global, shown: &WagonLegs) -> Result<bool, Fail> {
    let text = write_wagon_legs(alloc, shown)?;
    Ok(refusals(alloc, &Attempt::WagonLegs(shown, &text))? > 0)
}

fn is_fleet_refused(alloc: Global, fleet: &[WagonLegs]) -> Result<bool, Fail> {
    let text = write_fleet_legs(alloc, fleet)?;
    Ok(refusals(alloc, &Attempt::FleetLegs(fleet, &text))? > 0)
}

#[test]
fn writing_legs(rt: HostRuntime) -> Result<(), Fail> {
    let legs = two_legs()?;
    let shown = WagonLegs {
        wagon: wagon(ONE)?,
        legs: &legs,
    };
    assert!(rt; are_legs_refused(rt.alloc(), &shown)?);
    assert!(rt; is_fleet_refused(rt.alloc(), &[shown])?);
    Ok(())
}

#[test]
fn writing_a_fault(rt: HostRuntime) -> Result<(), Fail> {
    let fault = RecordFault::BadField(Field::Consignment);
    let text = br#"{"fault":"bad_field","field":"consignment"}"#;
    assert!(rt; refusals(rt.alloc(), &Attempt::Fault(fault, text))? > 0);
    assert!(rt; refusals(rt.alloc(), &Attempt::AppendedFault(fault, text))? > 0);
    Ok(())
}

// Whether it is the copy that was asked for. Copies share what they hold and take no memory.
fn is_copy<T: PartialEq + Drop>(copied: Result<T, Memory>, source: &T) -> bool {
    match copied {
        Ok(copied) => copied == *source,
        Err(Memory) => false,
    }
}

fn is_plan_copied(alloc: Global, plan: &Plan) -> Result<bool, Fail> {
    let mut memory_limit = MemoryLimit::new(alloc)?;
    memory_limit.limit_to(0)?;
    let copied = is_copy(plan.copy(), plan);
    memory_limit.release();
    Ok(copied)
}

// A plan is made of three lists and what they are kept in.
#[test]
fn making_a_plan(rt: HostRuntime) -> Result<(), Fail> {
    let plan = plan(rt.alloc(), Some(UnitCode::read("CSQU3054383")?))?;
    assert!(rt; refusals(rt.alloc(), &Attempt::Plan(&plan))? > 3);
    assert!(rt; is_plan_copied(rt.alloc(), &plan)?);
    Ok(())
}

fn is_route_copied(alloc: Global, route: &Route) -> Result<bool, Fail> {
    let mut memory_limit = MemoryLimit::new(alloc)?;
    memory_limit.limit_to(0)?;
    let copied = is_copy(route.copy(), route);
    memory_limit.release();
    Ok(copied)
}

#[test]
fn making_a_route(rt: HostRuntime) -> Result<(), Fail> {
    let leg = leg("R103", "AT00002", "CH00004", 180)?;
    let route = Route::new(rt.alloc(), &[leg])?;
    assert!(rt; refusals(rt.alloc(), &Attempt::Route(&route))? > 1);
    assert!(rt; is_route_copied(rt.alloc(), &route)?);
    Ok(())
}

// Whether copies are made where no memory is left.
fn are_copied(
    memory_limit: &mut MemoryLimit,
    message: &Message,
    call: &Call,
    item: &Item,
) -> Result<bool, Fail> {
    memory_limit.limit_to(0)?;
    let copied = is_copy(copy(message), message)
        && is_copy(copy_call(call), call)
        && is_copy(copy_item(item), item);
    memory_limit.release();
    Ok(copied)
}

// The same of a message, of its call and of the item that carries it.
fn is_message_copied(
    memory_limit: &mut MemoryLimit,
    message: &Shared<Message>,
) -> Result<bool, Fail> {
    let call = Call::Send(message.clone()?);
    let body = ItemBody::Notice(message.clone()?);
    let item = Item { number: 1, body };
    are_copied(memory_limit, message.get(), &call, &item)
}

#[test]
fn copying_messages(rt: HostRuntime) -> Result<(), Fail> {
    let mut memory_limit = MemoryLimit::new(rt.alloc())?;
    for message in messages(rt.alloc())?.iter() {
        assert!(rt; is_message_copied(&mut memory_limit, message)?);
    }
    Ok(())
}

#[test]
fn copying_replies(rt: HostRuntime) -> Result<(), Fail> {
    let mut memory_limit = MemoryLimit::new(rt.alloc())?;
    for reply in replies(rt.alloc())?.iter() {
        memory_limit.limit_to(0)?;
        let copied = is_copy(copy_reply(reply), reply);
        memory_limit.release();
        assert!(rt; copied);
    }
    Ok(())
}
