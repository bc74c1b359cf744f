//! The legs of wagons as JSON: they stand beside the records of these wagons, which have no legs.
ghost use Rattle.std.specs.Prelude.{◌≡◌, IfOk, Some};
ghost use Rattle.serde_json.specs.Read.{read};
ghost use Rattle.serde_json.specs.Written.{compact_text};
ghost use Rattle.reply_writer.specs.LegShapes.{wagon_legs_fields, wagon_legs_data, fleet_legs_fields, fleet_legs_data};

use crate::put::{Json, Object, put_field, put_object};
use crate::write::text_of;
use json_tokens::Writer;
use std::alloc::{AllocError, Global};
use std::marker::Model;
use taf_codes::Memory;
use trip_plan::Leg;
use wagon_number::WagonNumber;

/// A wagon, and the legs of its journey in their order. In contracts it is the record `WagonLegs` of `specs/LegShapes.antt`:
/// the number and the list.
#[derive(Drop)]
pub struct WagonLegs<'a> {
    pub wagon: WagonNumber,
    pub legs: &'a [Leg],
}

impl<'a> Model for WagonLegs<'a> {
    ghost use Rattle.reply_writer.specs.LegShapes.{WagonLegs};

    ghost Value = { WagonLegs };

    ghost view = { λ w. record { wagon = w.wagon; legs = w.legs.now } };
}

impl<'a> Json for WagonLegs<'a> {
    ghost shape = { wagon_legs_data };

    fn put(&self, out: &mut Writer) -> Result<(), AllocError> {
        put_object(out, self)
    }
}

impl<'a> Object for WagonLegs<'a> {
    ghost members = { wagon_legs_fields };

    #[tactic(auto, unfolding(crate::specs::LegShapes::wagon_legs_fields))]
    fn put_members(&self, out: &mut Writer) -> Result<(), AllocError> {
        put_field(out, "legs", &self.legs)?;
        put_field(out, "wagon", &self.wagon)?;
        Ok(())
    }
}

// The legs of several wagons.
#[derive(Drop)]
struct FleetLegs<'a> {
    wagons: &'a [WagonLegs<'a>],
}

impl<'a> Json for FleetLegs<'a> {
    ghost shape = { λ fleet. fleet_legs_data fleet.wagons.now };

    fn put(&self, out: &mut Writer) -> Result<(), AllocError> {
        put_object(out, self)
    }
}

impl<'a> Object for FleetLegs<'a> {
    ghost members = { λ fleet. fleet_legs_fields fleet.wagons.now };

    fn put_members(&self, out: &mut Writer) -> Result<(), AllocError> {
        put_field(out, "legs", &self.wagons)
    }
}

/// The text of the legs of one wagon. No limit of a plan (1 to 8 legs, each of 1 to 100,000 minutes) is asked for.
pub fn write_wagon_legs(alloc: Global, shown: &WagonLegs) -> Result<Vec<u8>, Memory>
    ensures text { IfOk result (λ text. text.items ≡ compact_text (wagon_legs_data shown.now)) }
    ensures read_back { IfOk result (λ text. read text.items ≡ Some (wagon_legs_data shown.now)) }
{
    text_of(alloc, shown)
}

/// The text of the legs of several wagons, in their order.
pub fn write_fleet_legs(alloc: Global, fleet: &[WagonLegs]) -> Result<Vec<u8>, Memory>
    ensures text { IfOk result (λ text. text.items ≡ compact_text (fleet_legs_data fleet.now)) }
    ensures read_back { IfOk result (λ text. read text.items ≡ Some (fleet_legs_data fleet.now)) }
{
    text_of(alloc, &FleetLegs { wagons: fleet })
}
