//! The hash builder.
use std::hash::{BuildHasher, FoldHasher, Hasher};
use std::random::RandomSource;

/// Makes the hasher of each key of a table, which begins from this table's seed.
#[derive(Clone, Copy)]
pub struct SeededState {
    // The hasher that has hashed the seed, so that each key costs no more than without one.
    initial: FoldHasher,
}

impl SeededState {
    /// The seed that is the same in each run.
    pub fn fixed() -> SeededState {
        SeededState {
            initial: FoldHasher::default(),
        }
    }

    /// A seed that the system draws. Where it gives no random bytes, this is the fixed one.
    pub fn drawn(rt: &impl RandomSource) -> SeededState {
        let mut initial = FoldHasher::default();
        let mut seed = [0u8; 8];
        if rt.fill_bytes(&mut seed).is_ok() {
            initial.write(&seed);
        }
        SeededState { initial }
    }
}

impl BuildHasher for SeededState {
    type Hasher = FoldHasher;

    ghost build_hasher = { λ state. state.initial };

    fn build_hasher(&self) -> FoldHasher {
        self.initial
    }
}
