use taf_codes::{Place, Railway, UnitCode};
use wagon_number::WagonNumber;

/// Whether the wagons run loaded or empty.
#[derive(Clone, Copy, Debug, PartialEq, Eq)]
pub enum Load {
    Loaded,
    Empty,
}

/// A part of a trip that one railway undertaking runs.
#[derive(Clone, Copy, Debug, PartialEq, Eq)]
pub struct Leg {
    pub ru: Railway,
    pub origin: Place,
    pub target: Place,
    /// How many minutes the leg takes.
    pub minutes: u32,
}

/// An intermodal unit, and the wagon that it is loaded on.
#[derive(Clone, Copy, Debug, PartialEq, Eq)]
pub struct UnitLoad {
    pub unit: UnitCode,
    pub wagon: WagonNumber,
}
