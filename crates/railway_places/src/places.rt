ghost use Rattle.std.specs.Prelude.{◌≡◌, ◌<◌, replicate};
ghost use Rattle.std.specs.List.{slice_index, slice_set};
ghost use Rattle.railway_places.specs.Slots.{slot_of};

use std::marker::Model;
use taf_codes::Railway;

// By it the four letters count some 40, 36, 10 and 1 in the slot, as the digits of 1000, 100, 10 and 1 do where one counts round
// 64. So codes of digits that follow one another mostly have slots of their own.
const SPREAD: usize = 2_693_801_988;

/// The place of the railway that was found last, of each slot.
#[derive(Drop)]
pub struct RailwayPlaces {
    places: [usize; 64],
}

impl Model for RailwayPlaces {
    ghost use Rattle.std.specs.Prelude.{List, ℕ};

    ghost Value = { List ℕ };

    ghost view = { λ p. p.places };
}

impl RailwayPlaces {
    /// Place 0 for each railway.
    pub fn new() -> RailwayPlaces
        ensures { result ≡ replicate 64 0 }
    {
        RailwayPlaces { places: [0; 64] }
    }

    /// The place that was noted last for the railway or for another one of its slot, 0 where none was.
    #[inline(always)]
    pub fn place(&self, railway: Railway) -> usize
        ensures { result ≡ slice_index self.now (slot_of railway) }
    {
        self.places[slot_of(railway)]
    }

    /// Notes the place at which the railway was found.
    #[inline(always)]
    pub fn note(&mut self, railway: Railway, place: usize)
        ensures { self.new ≡ slice_set self.old (slot_of railway) place }
    {
        self.places[slot_of(railway)] = place;
    }
}

// The slot of a railway. Its letters are one number of four bytes, and the slot is six bits of this number times `SPREAD`.
#[inline(always)]
fn slot_of(railway: Railway) -> usize
    ensures slot { result ≡ slot_of railway }
    ensures within { result < 64 }
{
    let letters = railway.as_str().as_bytes();
    let number = letters[0] as usize
        + 256 * letters[1] as usize
        + 65_536 * letters[2] as usize
        + 16_777_216 * letters[3] as usize;
    number * SPREAD % 4_294_967_296 / 67_108_864
}
