//! What is drawn from a seed.
ghost use Rattle.std.specs.Prelude.{◌<◌};

use rand_core::Rng;
use rand_pcg::Pcg32;

/// Numbers that are drawn from a seed: the same seed gives the same numbers.
#[derive(Drop)]
pub(crate) struct Draws {
    numbers: Pcg32,
}

impl Draws {
    pub(crate) fn new(seed: u64) -> Draws {
        Draws {
            numbers: Pcg32::new(seed, 0),
        }
    }

    /// A number below the limit.
    pub(crate) fn below(&mut self, limit: usize) -> usize
        requires { 0 < limit }
        ensures { result < limit }
    {
        self.numbers.next_u32() as usize % limit
    }

    /// Whether it is one time of so many.
    pub(crate) fn once_in(&mut self, times: usize) -> bool
        requires { 0 < times }
    {
        self.below(times) == 0
    }
}
