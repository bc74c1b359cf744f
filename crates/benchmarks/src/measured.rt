ghost use Rattle.std.specs.Prelude.{◌≡◌, ◌+◌, ◌-◌, ◌^◌, min, IfOk};
ghost use Rattle.benchmarks.specs.Rates.{rate};

use anyhow::Result;
use std::fmt;
use std::time::{Clock, Instant};

/// How many things were done, and how long it took.
#[derive(Clone, Copy, Debug, PartialEq, Eq)]
pub struct Measured {
    pub count: u64,
    pub nanos: u64,
}

impl Measured {
    /// So many things since then. More nanoseconds than 64 bits hold count as the most they hold.
    pub fn since(clock: &impl Clock, start: Instant, count: u64) -> Result<Measured>
        ensures { IfOk result (λ measured. measured.count ≡ count) }
    {
        let nanos = start.elapsed(clock)?.as_nanos();
        Ok(Measured {
            count,
            nanos: u64::try_from(nanos).unwrap_or(u64::MAX),
        })
    }

    /// Adds what was done further, as far as 64 bits go.
    pub fn add(&mut self, more: Measured)
        ensures count { self.new.count ≡ min (self.old.count + more.count) (2 ^ 64 - 1) }
        ensures nanos { self.new.nanos ≡ min (self.old.nanos + more.nanos) (2 ^ 64 - 1) }
    {
        self.count = self.count.saturating_add(more.count);
        self.nanos = self.nanos.saturating_add(more.nanos);
    }

    /// How many things were done a second. What took no time counts as a nanosecond.
    pub fn per_second(self) -> u128
        ensures { result ≡ rate self.count self.nanos }
    {
        u128::from(self.count) * 1_000_000_000 / u128::from(self.nanos.max(1))
    }
}

impl fmt::Display for Measured {
    fn fmt<W: fmt::Write>(&self, f: &mut fmt::Formatter<W>) -> fmt::Result {
        write!(
            f,
            "{} things, {} ms, {} per second",
            self.count,
            self.nanos / 1_000_000,
            self.per_second()
        )
    }
}
