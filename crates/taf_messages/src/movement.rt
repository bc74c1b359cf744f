ghost use Rattle.std.specs.Prelude.{◌≡◌};

use crate::kind::MovementName;
use crate::number::Delay;
use taf_codes::Place;
use taf_moment::Moment;
use wagon_number::WagonNumber;

/// A message on the movement of one wagon at one moment.
#[derive(Clone, Copy, Debug, PartialEq, Eq)]
pub struct Movement {
    pub wagon: WagonNumber,
    pub at: Moment,
    pub what: MovementKind,
}

/// The notices of wagon movement (4.2.7), and the reported estimate (4.2.6).
#[derive(Clone, Copy, Debug, PartialEq, Eq)]
pub enum MovementKind {
    Release,
    Departure,
    YardArrival { place: Place },
    YardDeparture { place: Place },
    Exception { delay: Delay },
    Estimate,
    Arrival,
    Delivery,
}

impl MovementKind {
    ghost use Rattle.taf_messages.specs.Details.{delay_in, name_of, place_in};

    /// The name of the kind.
    pub fn name(self) -> MovementName
        ensures { result ≡ name_of self }
    {
        match self {
            MovementKind::Release => MovementName::Release,
            MovementKind::Departure => MovementName::Departure,
            MovementKind::YardArrival { .. } => MovementName::YardArrival,
            MovementKind::YardDeparture { .. } => MovementName::YardDeparture,
            MovementKind::Exception { .. } => MovementName::Exception,
            MovementKind::Estimate => MovementName::Estimate,
            MovementKind::Arrival => MovementName::Arrival,
            MovementKind::Delivery => MovementName::Delivery,
        }
    }

    /// The yard that a yard arrival or a yard departure names.
    pub fn place(self) -> Option<Place>
        ensures { result ≡ place_in self }
    {
        match self {
            MovementKind::YardArrival { place } | MovementKind::YardDeparture { place } => Some(
                place,
            ),
            _ => None,
        }
    }

    /// The delay of an exception.
    pub fn delay(self) -> Option<Delay>
        ensures { result ≡ delay_in self }
    {
        match self {
            MovementKind::Exception { delay } => Some(delay),
            _ => None,
        }
    }
}
