//! How many calls failed: a number that contracts alone see, and that has no last value.
ghost use Rattle.std.specs.Prelude.{◌≡◌, ◌+◌};
ghost use Rattle.taf_codes.specs.Counting.{count};

use std::snapshot::Snapshot;

/// A count of failures, in one byte: each failure remembers, for contracts alone, the count before it.
#[derive(Drop)]
pub enum Failures {
    /// No call failed.
    Start,

    /// One more call failed than before.
    After(Snapshot<Failures>),
}

impl Failures {
    /// No failure yet.
    pub fn new() -> Failures
        ensures { count result ≡ 0 }
    {
        Failures::Start
    }

    /// Counts one more failure.
    pub fn add_one(&mut self)
        ensures { count self.new ≡ count self.old + 1 }
    {
        let before = Snapshot::of(self);
        *self = Failures::After(before);
    }
}

impl Default for Failures {
    ghost is_default = { λ failures. count failures ≡ 0 };

    fn default() -> Failures {
        Failures::new()
    }
}
