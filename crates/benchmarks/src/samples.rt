//! What the benchmarks run on.
ghost use Rattle.std.specs.Prelude.{◌≡◌, length, IfOk};

use anyhow::{Result, bail};
use call_reader::read_call;
use std::alloc::Global;
use taf_messages::{Body, Call, Delay, Item, ItemBody, ItemList, LegIndex, Listed, MessageNumber};
use taf_moment::Moment;
use trip_plan::Plan;
use wagon_number::WagonNumber;

const PLAN: &str =
    r#"{"kind":"plan","from":"R100","no":1,"consignment":"C-1","load":"loaded","commit":"2025-03-01T15:30Z","wagons":["218124712173","338478961232"],"legs":[{"ru":"R101","origin":"DE00001","target":"AT00002","minutes":300},{"ru":"R102","origin":"AT00002","target":"IT00003","minutes":240}]}"#;

// The line of a departure.
fn departure(alloc: Global, number: u64) -> Result<String> {
    let digits = format!(in alloc; "{number}")?;
    let parts = [
        r#"{"kind":"depart","from":"R101","no":"#,
        digits.as_str(),
        r#","wagon":"218124712173","at":"2025-03-01T06:00Z"}"#,
    ];
    Ok(parts.concat(alloc)?)
}

/// Lines of departures, numbered from 1.
pub(crate) fn departures(alloc: Global, count: u64) -> Result<Vec<String>>
    ensures { IfOk result (λ lines. length lines.items ≡ count) }
{
    let mut lines = Vec::new(alloc);
    for before in 0..count {
        lines.push(departure(alloc, before + 1)?)?;
    }
    Ok(lines)
}

/// A plan of two wagons on two legs.
pub(crate) fn plan(alloc: Global) -> Result<Plan> {
    let call = read_call(alloc, PLAN.as_bytes())?;
    let Call::Send(message) = &call else {
        bail!("the sample is no message");
    };
    match message.get().body() {
        Body::Plan(plan) => Ok(plan.copy()?),
        _ => bail!("the sample is no plan"),
    }
}

/// The wagon of the samples.
pub(crate) fn wagon() -> Result<WagonNumber> {
    Ok(WagonNumber::read("218124712173")?)
}

pub(crate) fn number(number: u64) -> Result<MessageNumber> {
    match MessageNumber::new(number) {
        Some(number) => Ok(number),
        None => bail!("no number of a message"),
    }
}

/// A delay of a minute.
pub(crate) fn delay() -> Result<Delay> {
    match Delay::new(1) {
        Some(delay) => Ok(delay),
        None => bail!("no delay"),
    }
}

/// As many estimates as items of an outbox, numbered from 1.
pub(crate) fn estimates(alloc: Global, count: u64) -> Result<ItemList>
    ensures { IfOk result (λ items. length items ≡ count) }
{
    let Some(leg) = LegIndex::new(0) else {
        bail!("no leg");
    };
    let wagon = wagon()?;
    let at = Moment::read("2025-03-01T11:00Z")?;
    let mut items = Vec::new(alloc);
    for before in 0..count {
        let number = before + 1;
        items.push(Item {
            number,
            body: ItemBody::Eti { wagon, leg, at },
        })?;
    }
    Ok(Listed::from_vec(items))
}
