//! Records in: the call that a line is, or its first fault.
ghost use Rattle.std.specs.Prelude.{◌≡◌, IsUtf8, Err};
ghost use Rattle.serde_json.specs.Read.{read as read_text};
ghost use Rattle.json_tokens.specs.JsonValues.{json_value_data};
ghost use Rattle.call_reader.specs.Reading as reading;
ghost use Rattle.call_reader.specs.Reading.{Gives};

use crate::kinds::kind_named;
use crate::unit_loads::UnitLoads;
use crate::value::{DecodeError, FromJson};
use json::Scratch;
use json_tokens::{FlatRecord, JsonTape, JsonValue};
use serde_json::Value;
use std::alloc::Global;
use taf_codes::Railway;
use taf_messages::{
    Body, BodyName, Call, Content, Field, Kind, Listed, Message, Movement, MovementKind,
    MovementName, RecordFault, Shared, TrainAnswer, TrainOffer,
};
use trip_plan::{Leg, Plan, PlanParts, Route};
use wagon_number::WagonNumber;

/// The call that the line is, or the first fault of it. Memory may be refused in place of any answer.
pub fn read_call(alloc: Global, line: &[u8]) -> Result<Call, RecordFault>
    // A line that is text is what its JSON says.
    ensures text { IsUtf8 line.now → Gives result (reading.call_read (read_text line.now)) }
    ensures no_text { ¬ (IsUtf8 line.now) → Gives result (Err RecordFault.BadJson) }
{
    CallReader::new(alloc).read(&mut FlatRecord::new(alloc), line)
}

/// Reads the calls of many lines, and keeps the memory that reading takes from line to line.
#[derive(Drop)]
pub struct CallReader {
    alloc: Global,
    scratch: Scratch,
}

impl CallReader {
    /// A reader that has read no line. Takes no memory.
    pub fn new(alloc: Global) -> CallReader {
        CallReader {
            alloc,
            scratch: Scratch::new(alloc),
        }
    }

    /// The call that the line is, or the first fault of it, whatever was read before. A line without lists is read into the
    /// record, whose memory lines that stay use one after another. Memory may be refused in place of any answer.
    pub fn read<'a>(
        &mut self,
        record: &mut FlatRecord<'a>,
        line: &'a [u8],
    ) -> Result<Call, RecordFault>
        // A line that is text is what its JSON says.
        ensures text { IsUtf8 line.now → Gives result (reading.call_read (read_text line.now)) }
        ensures no_text { ¬ (IsUtf8 line.now) → Gives result (Err RecordFault.BadJson) }
    {
        match str::from_utf8(line) {
            Ok(text) => read_line(self.alloc, record, text, &mut self.scratch),
            Err(_) => Err(RecordFault::BadJson),
        }
    }
}

// The call that a text is. Most records have no lists, and are read into one list of their fields.
fn read_line<'a>(
    alloc: Global,
    record: &mut FlatRecord<'a>,
    text: &'a str,
    scratch: &mut Scratch,
) -> Result<Call, RecordFault>
    ensures { Gives result (reading.call_read (read_text text.now)) }
{
    if record.read(text)? {
        let value = JsonValue::Flat(record);
        return read_record(&Fields { alloc, value });
    }
    read_tape(alloc, text, scratch)
}

// The call that a text is, by its tape. A tree is needed only where a number is no whole one, or for
// what is no JSON.
fn read_tape(alloc: Global, text: &str, scratch: &mut Scratch) -> Result<Call, RecordFault>
    ensures { Gives result (reading.call_read (read_text text.now)) }
{
    if let Some(tape) = JsonTape::read(alloc, text, scratch)? {
        let value = JsonValue::Tape(tape.root());
        return read_record(&Fields { alloc, value });
    }
    read_tree(alloc, text)
}

// The call that a text is, by its tree.
fn read_tree(alloc: Global, text: &str) -> Result<Call, RecordFault>
    ensures { Gives result (reading.call_read (read_text text.now)) }
{
    let tree = match Value::from_str(alloc, text) {
        Ok(tree) => tree,
        Err(error) if error.is_memory() => return Err(RecordFault::Memory),
        Err(_) => return Err(RecordFault::BadJson),
    };
    let value = JsonValue::Tree(&tree);
    read_record(&Fields { alloc, value })
}

// The fields of a record, and where the lists of its call are to lie.
#[derive(Drop)]
struct Fields<'r, 'a> {
    alloc: Global,
    value: JsonValue<'r, 'a>,
}

impl Fields<'_, '_> {
    // The value of a field.
    #[inline(always)]
    fn read<T: FromJson>(&self, field: Field) -> Result<T, RecordFault>
        ensures { Gives result (reading.field_of T.good field (json_value_data self.now.value)) }
    {
        let Some(value) = self.value.get(field.name()) else {
            return Err(RecordFault::MissingField(field));
        };
        match T::of_value(self.alloc, &value) {
            Ok(value) => Ok(value),
            Err(DecodeError::Bad) => Err(RecordFault::BadField(field)),
            Err(DecodeError::Memory) => Err(RecordFault::Memory),
        }
    }

    // The value of a field that may be absent or null.
    fn read_if<T: FromJson>(&self, field: Field) -> Result<Option<T>, RecordFault>
        ensures { Gives result
            (reading.optional_field_of T.good field (json_value_data self.now.value)) }
    {
        match self.value.get(field.name()) {
            None => Ok(None),
            Some(value) if value.is_null() => Ok(None),
            Some(value) => match T::of_value(self.alloc, &value) {
                Ok(value) => Ok(Some(value)),
                Err(DecodeError::Bad) => Err(RecordFault::BadField(field)),
                Err(DecodeError::Memory) => Err(RecordFault::Memory),
            },
        }
    }

    fn kind(&self) -> Result<Kind, RecordFault>
        ensures { result ≡ reading.kind_of (json_value_data self.now.value) }
    {
        match self.value.get("kind") {
            Some(value) => value
                .as_str()
                .and_then(kind_named)
                .ok_or(RecordFault::BadKind),
            None => Err(RecordFault::BadKind),
        }
    }
}

#[tactic(auto, unfolding(crate::specs::Reading::call_of, crate::specs::Reading::call_of_kind))]
fn read_record(fields: &Fields<'_, '_>) -> Result<Call, RecordFault>
    ensures { Gives result (reading.call_of (json_value_data fields.now.value)) }
{
    if !fields.value.is_object() {
        return Err(RecordFault::BadJson);
    }
    match fields.kind()? {
        Kind::Send(name) => {
            let message = read_message(fields, name)?;
            Ok(Call::Send(Shared::new(fields.alloc, message)?))
        }
        Kind::Ask => Ok(Call::Ask {
            by: fields.read(Field::From)?,
            wagon: fields.read(Field::Wagon)?,
        }),
        Kind::AskUnit => Ok(Call::AskUnit {
            by: fields.read(Field::From)?,
            unit: fields.read(Field::Unit)?,
        }),
        Kind::Deviation => Ok(Call::Deviation {
            by: fields.read(Field::From)?,
            consignment: fields.read(Field::Consignment)?,
        }),
        Kind::Fetch => Ok(Call::Fetch {
            by: fields.read(Field::From)?,
            limit: fields.read(Field::Limit)?,
        }),
        Kind::Ack => Ok(Call::Ack {
            by: fields.read(Field::From)?,
            item: fields.read(Field::Item)?,
        }),
    }
}

#[tactic(auto, using(crate::proofs::SentLemmas::read_from_its_lead), unfolding(crate::specs::Reading::message_of))]
fn read_message(fields: &Fields<'_, '_>, name: BodyName) -> Result<Message, RecordFault>
    ensures { Gives result (reading.message_of name (json_value_data fields.now.value)) }
{
    let by = fields.read(Field::From)?;
    let content = Content {
        by,
        no: fields.read(Field::No)?,
        body: read_body(fields, by, name)?,
    };
    match Message::new(content) {
        Some(message) => Ok(message),
        None => unreachable!(),
    }
}

#[tactic(auto, unfolding(crate::specs::Reading::body_of))]
fn read_body(fields: &Fields<'_, '_>, by: Railway, name: BodyName) -> Result<Body, RecordFault>
    ensures { Gives result (reading.body_of name by (json_value_data fields.now.value)) }
{
    match name {
        BodyName::Plan => Ok(Body::Plan(read_plan(fields, by)?)),
        BodyName::Movement(name) => Ok(Body::Movement(read_movement(fields, name)?)),
        BodyName::EtiAsk => Ok(Body::EtiAsk {
            wagon: fields.read(Field::Wagon)?,
        }),
        BodyName::LegTime => Ok(Body::LegTime {
            wagon: fields.read(Field::Wagon)?,
            leg: fields.read(Field::Leg)?,
            minutes: fields.read(Field::Minutes)?,
        }),
        BodyName::Offer => Ok(Body::Offer(Shared::new(fields.alloc, read_offer(fields)?)?)),
        BodyName::Answer => Ok(Body::Answer(Shared::new(fields.alloc, read_answer(fields)?)?)),
        BodyName::Withdraw => Ok(Body::Withdraw {
            at: fields.read(Field::At)?,
            offer: fields.read(Field::Offer)?,
        }),
        BodyName::Reroute => {
            let wagon: WagonNumber = fields.read(Field::Wagon)?;
            let route = read_route(fields)?;
            Ok(Body::Reroute { wagon, route })
        }
    }
}

#[tactic(auto, unfolding(crate::specs::Reading::movement_of))]
fn read_movement(fields: &Fields<'_, '_>, name: MovementName) -> Result<Movement, RecordFault>
    ensures { Gives result (reading.movement_of name (json_value_data fields.now.value)) }
{
    Ok(Movement {
        wagon: fields.read(Field::Wagon)?,
        at: fields.read(Field::At)?,
        what: read_movement_kind(fields, name)?,
    })
}

#[tactic(auto, unfolding(crate::specs::Reading::movement_kind_of))]
fn read_movement_kind(
    fields: &Fields<'_, '_>,
    name: MovementName,
) -> Result<MovementKind, RecordFault>
    ensures { Gives result (reading.movement_kind_of name (json_value_data fields.now.value)) }
{
    match name {
        MovementName::Release => Ok(MovementKind::Release),
        MovementName::Departure => Ok(MovementKind::Departure),
        MovementName::YardArrival => Ok(MovementKind::YardArrival {
            place: fields.read(Field::Place)?,
        }),
        MovementName::YardDeparture => Ok(MovementKind::YardDeparture {
            place: fields.read(Field::Place)?,
        }),
        MovementName::Exception => Ok(MovementKind::Exception {
            delay: fields.read(Field::Delay)?,
        }),
        MovementName::Estimate => Ok(MovementKind::Estimate),
        MovementName::Arrival => Ok(MovementKind::Arrival),
        MovementName::Delivery => Ok(MovementKind::Delivery),
    }
}

#[tactic(auto, unfolding(crate::specs::Reading::offer_of))]
fn read_offer(fields: &Fields<'_, '_>) -> Result<TrainOffer, RecordFault>
    ensures { Gives result (reading.offer_of (json_value_data fields.now.value)) }
{
    Ok(TrainOffer {
        at: fields.read(Field::At)?,
        train: fields.read(Field::Train)?,
        place: fields.read(Field::Place)?,
        to: fields.read(Field::To)?,
        wagons: fields.read(Field::Wagons)?,
    })
}

#[tactic(auto, unfolding(crate::specs::Reading::answer_of))]
fn read_answer(fields: &Fields<'_, '_>) -> Result<TrainAnswer, RecordFault>
    ensures { Gives result (reading.answer_of (json_value_data fields.now.value)) }
{
    Ok(TrainAnswer {
        at: fields.read(Field::At)?,
        offerer: fields.read(Field::Offerer)?,
        offer: fields.read(Field::Offer)?,
        received: fields.read(Field::Received)?,
        refused: fields.read(Field::Refused)?,
        manager: fields.read_if(Field::Manager)?,
    })
}

#[tactic(auto, unfolding(crate::specs::Reading::plan_of))]
fn read_plan(fields: &Fields<'_, '_>, lead: Railway) -> Result<Plan, RecordFault>
    ensures { Gives result (reading.plan_of lead (json_value_data fields.now.value)) }
{
    let consignment = fields.read(Field::Consignment)?;
    let load = fields.read(Field::Load)?;
    let commit = fields.read(Field::Commit)?;
    let wagons: Listed<WagonNumber> = fields.read(Field::Wagons)?;
    let legs: Listed<Leg> = fields.read(Field::Legs)?;
    let units = read_units(fields)?;
    let parts = PlanParts {
        lead,
        consignment,
        load,
        commit,
        wagons: wagons.into_vec(),
        legs: legs.into_vec(),
        units: units.into_vec(),
    };
    Ok(Plan::from_parts(fields.alloc, parts)?)
}

// The intermodal units of a plan: absent, null and empty are the same.
fn read_units(fields: &Fields<'_, '_>) -> Result<UnitLoads, RecordFault>
    ensures { Gives result (reading.units_of (json_value_data fields.now.value)) }
{
    match fields.read_if(Field::Units)? {
        Some(units) => Ok(units),
        None => Ok(UnitLoads::none(fields.alloc)),
    }
}

fn read_route(fields: &Fields<'_, '_>) -> Result<Route, RecordFault>
    ensures { Gives result (reading.route_of (json_value_data fields.now.value)) }
{
    let legs: Listed<Leg> = fields.read(Field::Legs)?;
    Ok(Route::new(fields.alloc, legs.as_slice())?)
}
