//! The rules that the parts of a plan keep.
ghost use Rattle.std.specs.Prelude.{◌≡◌};
ghost use Rattle.std.specs.List.{list_all};
ghost use Rattle.trip_plan.specs.Rules as rules;

use crate::parts::{Leg, UnitLoad};
use taf_codes::UnitCode;
use wagon_number::WagonNumber;

/// Whether each leg begins where the one before it ends.
pub(crate) fn are_connected(legs: &[Leg]) -> bool
    ensures { result ≡ rules.is_connected legs.now }
{
    legs.iter()
        .zip(legs.iter().skip(1))
        .all(|(leg, next)| leg.target == next.origin)
}

/// Whether no railway runs two legs in succession.
pub(crate) fn change_railway(legs: &[Leg]) -> bool
    ensures { result ≡ rules.changes_railway legs.now }
{
    legs.iter()
        .zip(legs.iter().skip(1))
        .all(|(leg, next)| leg.ru != next.ru)
}

/// Whether each leg takes 1 to 100,000 minutes.
pub(crate) fn take_time(legs: &[Leg]) -> bool
    ensures { result ≡ list_all rules.takes_time legs.now }
{
    legs.iter()
        .all(|leg| leg.minutes > 0 && leg.minutes <= 100_000)
}

/// Whether no wagon is named twice.
pub fn all_differ(wagons: &[WagonNumber]) -> bool
    ensures { result ≡ rules.all_differ wagons.now }
{
    wagons.iter().all(|wagon| times_named(wagons, *wagon) == 1)
}

fn times_named(wagons: &[WagonNumber], wagon: WagonNumber) -> usize
    ensures { result ≡ rules.times_named wagons.now wagon }
{
    wagons.iter().filter(|other| **other == wagon).count()
}

/// Whether no unit is loaded twice.
pub(crate) fn units_differ(units: &[UnitLoad]) -> bool
    ensures { result ≡ rules.units_differ units.now }
{
    units
        .iter()
        .all(|loaded| times_loaded(units, loaded.unit) == 1)
}

fn times_loaded(units: &[UnitLoad], unit: UnitCode) -> usize
    ensures { result ≡ rules.times_loaded units.now unit }
{
    units.iter().filter(|other| other.unit == unit).count()
}

/// Whether each unit is loaded on one of the wagons.
pub(crate) fn are_aboard(wagons: &[WagonNumber], units: &[UnitLoad]) -> bool
    ensures { result ≡ rules.are_aboard wagons.now units.now }
{
    units.iter().all(|loaded| is_among(wagons, loaded.wagon))
}

fn is_among(wagons: &[WagonNumber], wagon: WagonNumber) -> bool
    ensures { result ≡ rules.has wagons.now wagon }
{
    wagons.contains(&wagon)
}
