ghost use Rattle.std.specs.Prelude.{◌≡◌, ◌≤◌, ◌&&◌, ℕ, Some, None, nat_le, if◌then◌else◌};

use std::marker::Model;

/// A number from `LOW` to `HIGH`.
#[derive(Clone, Copy, Debug, PartialEq, Eq, PartialOrd, Ord, Hash)]
pub struct Within<const LOW: u64, const HIGH: u64> {
    number: u64,
}

impl<const LOW: u64, const HIGH: u64> Model for Within<LOW, HIGH> {
    ghost Value = { ℕ };

    ghost view = { λ a. a.number };

    ghost invariant = { λ a. (LOW ≤ a.number) × (a.number ≤ HIGH) };

    ghost inverse = { λ n. record { number = n } };
}

impl<const LOW: u64, const HIGH: u64> Within<LOW, HIGH> {
    /// The number, if it keeps the limits.
    pub fn new(number: u64) -> Option<Self>
        ensures { result ≡ (if nat_le LOW number && nat_le number HIGH then Some number else None) }
    {
        if LOW <= number && number <= HIGH {
            Some(Within { number })
        } else {
            None
        }
    }

    pub fn get(self) -> u64
        ensures value { result ≡ self.entry }
        ensures low { LOW ≤ result }
        ensures high { result ≤ HIGH }
    {
        self.number
    }
}

/// A number from `LOW` to `HIGH`, in half the memory.
#[derive(Clone, Copy, Debug, PartialEq, Eq, PartialOrd, Ord, Hash)]
pub struct Within32<const LOW: u32, const HIGH: u32> {
    number: u32,
}

impl<const LOW: u32, const HIGH: u32> Model for Within32<LOW, HIGH> {
    ghost Value = { ℕ };

    ghost view = { λ a. a.number };

    ghost invariant = { λ a. (LOW ≤ a.number) × (a.number ≤ HIGH) };

    ghost inverse = { λ n. record { number = n } };
}

impl<const LOW: u32, const HIGH: u32> Within32<LOW, HIGH> {
    /// The number, if it keeps the limits.
    pub fn new(number: u64) -> Option<Self>
        ensures { result ≡ (if nat_le LOW number && nat_le number HIGH then Some number else None) }
    {
        if u64::from(LOW) <= number && number <= u64::from(HIGH) {
            Some(Within32 {
                number: number as u32,
            })
        } else {
            None
        }
    }

    pub fn get(self) -> u32
        ensures value { result ≡ self.entry }
        ensures low { LOW ≤ result }
        ensures high { result ≤ HIGH }
    {
        self.number
    }
}

/// The number of a message, which its sender chose: 1 to 999,999,999,999.
pub type MessageNumber = Within<1, 999_999_999_999>;

/// The number of an item, as a railway acknowledges it: 0 to 999,999,999,999.
pub type ItemNumber = Within<0, 999_999_999_999>;

/// A leg of a plan, counted from 0: 0 to 7.
pub type LegIndex = Within32<0, 7>;

/// The minutes of a leg: 1 to 100,000.
pub type LegMinutes = Within32<1, 100_000>;

/// The minutes of a delay: 0 to 100,000.
pub type Delay = Within32<0, 100_000>;

/// How many items are fetched at most: 1 to 50.
pub type FetchLimit = Within<1, 50>;
