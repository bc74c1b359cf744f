//! What the values of fields are read as.
ghost use Rattle.std.specs.Prelude.{◌≡◌, Option};
ghost use Rattle.serde_json.specs.Data.{Data};
ghost use Rattle.json_tokens.specs.JsonValues.{json_value_data, json_items_data};
ghost use Rattle.call_reader.specs.Values as good;
ghost use Rattle.call_reader.specs.Values.{Reads, ReadsList};
ghost use Rattle.call_reader.specs.declared.value.DecodeError.TheVariants.{Memory};

use crate::unit_loads::UnitLoads;
use json_tokens::{JsonItems, JsonValue};
use std::alloc::{AllocError, AllocFailed, Global};
use taf_codes::{ConsignmentId, Place, Railway, TrainId, UnitCode};
use taf_messages::{Field, Listed, OfferedWagons, Wagons, Within, Within32};
use taf_moment::Moment;
use trip_plan::{Leg, Load, UnitLoad};
use wagon_number::WagonNumber;

/// Why a value was not read.
#[derive(Clone, Copy, Debug, PartialEq, Eq)]
pub(crate) enum DecodeError {
    /// It is not good for its field.
    Bad,
    Memory,
}

impl From<AllocError> for DecodeError {
    ghost from_gives = { λ _ unread. unread ≡ Memory };

    fn from(_refused: AllocError) -> DecodeError {
        DecodeError::Memory
    }
}

impl<T: Drop> From<AllocFailed<T>> for DecodeError {
    ghost from_gives = { λ _ unread. unread ≡ Memory };

    fn from(_refused: AllocFailed<T>) -> DecodeError {
        DecodeError::Memory
    }
}

/// What the value of a field is read as.
pub(crate) trait FromJson: Sized {
    ghost good: { Data → Option Self };

    fn of_value(alloc: Global, value: &JsonValue<'_, '_>) -> Result<Self, DecodeError>
        ensures { Reads result (good (json_value_data value.now)) };
}

impl<const LOW: u64, const HIGH: u64> FromJson for Within<LOW, HIGH> {
    ghost good = { good.number LOW HIGH };

    fn of_value(_alloc: Global, value: &JsonValue<'_, '_>) -> Result<Self, DecodeError> {
        let number = value.as_u64().ok_or(DecodeError::Bad)?;
        Within::new(number).ok_or(DecodeError::Bad)
    }
}

impl<const LOW: u32, const HIGH: u32> FromJson for Within32<LOW, HIGH> {
    ghost good = { good.number LOW HIGH };

    fn of_value(_alloc: Global, value: &JsonValue<'_, '_>) -> Result<Self, DecodeError> {
        let number = value.as_u64().ok_or(DecodeError::Bad)?;
        Within32::new(number).ok_or(DecodeError::Bad)
    }
}

impl FromJson for u32 {
    ghost good = { good.number 0 4_294_967_295 };

    fn of_value(_alloc: Global, value: &JsonValue<'_, '_>) -> Result<u32, DecodeError> {
        let number = value.as_u64().ok_or(DecodeError::Bad)?;
        u32::try_from(number).map_err(|_| DecodeError::Bad)
    }
}

impl FromJson for Railway {
    ghost good = { good.railway };

    fn of_value(_alloc: Global, value: &JsonValue<'_, '_>) -> Result<Railway, DecodeError> {
        let text = value.as_str().ok_or(DecodeError::Bad)?;
        Railway::read(text).map_err(|_| DecodeError::Bad)
    }
}

impl FromJson for Place {
    ghost good = { good.place };

    fn of_value(_alloc: Global, value: &JsonValue<'_, '_>) -> Result<Place, DecodeError> {
        let text = value.as_str().ok_or(DecodeError::Bad)?;
        Place::read(text).map_err(|_| DecodeError::Bad)
    }
}

impl FromJson for ConsignmentId {
    ghost good = { good.consignment };

    fn of_value(_alloc: Global, value: &JsonValue<'_, '_>) -> Result<ConsignmentId, DecodeError> {
        let text = value.as_str().ok_or(DecodeError::Bad)?;
        ConsignmentId::read(text).map_err(|_| DecodeError::Bad)
    }
}

impl FromJson for TrainId {
    ghost good = { good.train };

    fn of_value(_alloc: Global, value: &JsonValue<'_, '_>) -> Result<TrainId, DecodeError> {
        let text = value.as_str().ok_or(DecodeError::Bad)?;
        TrainId::read(text).map_err(|_| DecodeError::Bad)
    }
}

impl FromJson for UnitCode {
    ghost good = { good.unit };

    fn of_value(_alloc: Global, value: &JsonValue<'_, '_>) -> Result<UnitCode, DecodeError> {
        let text = value.as_str().ok_or(DecodeError::Bad)?;
        UnitCode::read(text).map_err(|_| DecodeError::Bad)
    }
}

impl FromJson for Moment {
    ghost good = { good.moment };

    fn of_value(_alloc: Global, value: &JsonValue<'_, '_>) -> Result<Moment, DecodeError> {
        let text = value.as_str().ok_or(DecodeError::Bad)?;
        Moment::read(text).map_err(|_| DecodeError::Bad)
    }
}

impl FromJson for WagonNumber {
    ghost good = { good.wagon };

    fn of_value(_alloc: Global, value: &JsonValue<'_, '_>) -> Result<WagonNumber, DecodeError> {
        let text = value.as_str().ok_or(DecodeError::Bad)?;
        WagonNumber::read(text).map_err(|_| DecodeError::Bad)
    }
}

impl FromJson for Load {
    ghost good = { good.load };

    fn of_value(_alloc: Global, value: &JsonValue<'_, '_>) -> Result<Load, DecodeError> {
        let text = value.as_str().ok_or(DecodeError::Bad)?;
        if text == "loaded" {
            Ok(Load::Loaded)
        } else if text == "empty" {
            Ok(Load::Empty)
        } else {
            Err(DecodeError::Bad)
        }
    }
}

impl FromJson for Leg {
    ghost good = { good.leg };

    #[tactic(auto, unfolding(crate::specs::Values::leg))]
    fn of_value(alloc: Global, value: &JsonValue<'_, '_>) -> Result<Leg, DecodeError> {
        Ok(Leg {
            ru: member_of(alloc, value, Field::Ru)?,
            origin: member_of(alloc, value, Field::Origin)?,
            target: member_of(alloc, value, Field::Target)?,
            minutes: member_of(alloc, value, Field::Minutes)?,
        })
    }
}

impl FromJson for UnitLoad {
    ghost good = { good.unit_load };

    #[tactic(auto, unfolding(crate::specs::Values::unit_load))]
    fn of_value(alloc: Global, value: &JsonValue<'_, '_>) -> Result<UnitLoad, DecodeError> {
        Ok(UnitLoad {
            unit: member_of(alloc, value, Field::Unit)?,
            wagon: member_of(alloc, value, Field::Wagon)?,
        })
    }
}

impl<T: FromJson + Drop> FromJson for Listed<T> {
    ghost good = { good.list T.good };

    fn of_value(alloc: Global, value: &JsonValue<'_, '_>) -> Result<Listed<T>, DecodeError> {
        Ok(Listed::from_vec(items_of(alloc, value)?))
    }
}

impl FromJson for Wagons {
    ghost good = { good.wagons };

    fn of_value(alloc: Global, value: &JsonValue<'_, '_>) -> Result<Wagons, DecodeError> {
        let items = items_of(alloc, value)?;
        Wagons::new(items).ok_or(DecodeError::Bad)
    }
}

impl FromJson for OfferedWagons {
    ghost good = { good.offered_wagons };

    fn of_value(alloc: Global, value: &JsonValue<'_, '_>) -> Result<OfferedWagons, DecodeError> {
        let items = items_of(alloc, value)?;
        OfferedWagons::new(items).ok_or(DecodeError::Bad)
    }
}

impl FromJson for UnitLoads {
    ghost good = { good.unit_loads };

    fn of_value(alloc: Global, value: &JsonValue<'_, '_>) -> Result<UnitLoads, DecodeError> {
        let items = items_of(alloc, value)?;
        UnitLoads::new(items).ok_or(DecodeError::Bad)
    }
}

// The value under a key of an object.
fn member_of<T: FromJson>(
    alloc: Global,
    value: &JsonValue<'_, '_>,
    field: Field,
) -> Result<T, DecodeError>
    ensures { Reads result (good.member T.good field (json_value_data value.now)) }
{
    match value.get(field.name()) {
        Some(value) => T::of_value(alloc, &value),
        None => Err(DecodeError::Bad),
    }
}

// The items of an array, if each is good.
fn items_of<T: FromJson + Drop>(
    alloc: Global,
    value: &JsonValue<'_, '_>,
) -> Result<Vec<T>, DecodeError>
    ensures { ReadsList result (good.list T.good (json_value_data value.now)) }
{
    match value.items() {
        Some(values) => each_of(alloc, values, count_of(value)),
        None => Err(DecodeError::Bad),
    }
}

// How many items a list has, for which room is taken.
fn count_of(value: &JsonValue<'_, '_>) -> usize {
    let Some(mut values) = value.items() else {
        return 0;
    };
    let mut count: usize = 0;
    'items: while let Some(_) = values.next() {
        count = count.saturating_add(1);
    }
    count
}

// The items, if each is good.
fn each_of<T: FromJson + Drop>(
    alloc: Global,
    mut values: JsonItems<'_, '_>,
    count: usize,
) -> Result<Vec<T>, DecodeError>
    ensures { ReadsList result (good.each T.good (json_items_data values.entry)) }
{
    let mut items = Vec::with_capacity(alloc, count)?;
    while let Some(value) = values.next() {
        let item = T::of_value(alloc, &value)?;
        items.push(item)?;
    }
    Ok(items)
}
