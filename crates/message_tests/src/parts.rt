//! Parts of records, from texts.
use call_reader::read_call;
use std::alloc::Global;
use std::test::Fail;
use taf_codes::{ConsignmentId, Place, Railway};
use taf_messages::{Body, Call, Content, Message, Shared, Within, Within32};
use taf_moment::Moment;
use trip_plan::Leg;
use wagon_number::WagonNumber;

/// Three wagons.
pub(crate) const ONE: &str = "218124712173";

pub(crate) const TWO: &str = "338478961232";

pub(crate) const THREE: &str = "318066552148";

pub(crate) fn railway(text: &str) -> Result<Railway, Fail> {
    Ok(Railway::read(text)?)
}

pub(crate) fn place(text: &str) -> Result<Place, Fail> {
    Ok(Place::read(text)?)
}

pub(crate) fn wagon(text: &str) -> Result<WagonNumber, Fail> {
    Ok(WagonNumber::read(text)?)
}

pub(crate) fn consignment(text: &str) -> Result<ConsignmentId, Fail> {
    Ok(ConsignmentId::read(text)?)
}

pub(crate) fn moment(text: &str) -> Result<Moment, Fail> {
    Ok(Moment::read(text)?)
}

pub(crate) fn within<const LOW: u64, const HIGH: u64>(
    number: u64,
) -> Result<Within<LOW, HIGH>, Fail> {
    match Within::new(number) {
        Some(number) => Ok(number),
        None => Err(Fail::new("a number outside its limits")),
    }
}

pub(crate) fn within32<const LOW: u32, const HIGH: u32>(
    number: u64,
) -> Result<Within32<LOW, HIGH>, Fail> {
    match Within32::new(number) {
        Some(number) => Ok(number),
        None => Err(Fail::new("a number outside its limits")),
    }
}

pub(crate) fn wagons(alloc: Global, texts: &[&str]) -> Result<Vec<WagonNumber>, Fail> {
    let mut wagons = Vec::new(alloc);
    for text in texts {
        wagons.push(WagonNumber::read(text)?)?;
    }
    Ok(wagons)
}

pub(crate) fn leg(ru: &str, origin: &str, target: &str, minutes: u32) -> Result<Leg, Fail> {
    Ok(Leg {
        ru: railway(ru)?,
        origin: place(origin)?,
        target: place(target)?,
        minutes,
    })
}

/// The call of sending a message.
pub(crate) fn send(alloc: Global, by: &str, no: u64, body: Body) -> Result<Call, Fail> {
    let by = railway(by)?;
    let no = within(no)?;
    match Message::new(Content { by, no, body }) {
        Some(message) => Ok(Call::Send(Shared::new(alloc, message)?)),
        None => Err(Fail::new("a plan of another lead")),
    }
}

/// The message that the line sends.
pub(crate) fn message(alloc: Global, line: &str) -> Result<Shared<Message>, Fail> {
    match read_call(alloc, line.as_bytes())? {
        Call::Send(message) => Ok(message),
        _ => Err(Fail::new("no message")),
    }
}
