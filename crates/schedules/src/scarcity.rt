//! Memory that is refused now and then.

use crate::draws::Draws;
use memory_limit::MemoryLimit;

// Of so many bytes at most there is room while memory is scarce.
const BUDGET: usize = 4096;

/// Whether, and how seldom, memory is scarce.
#[derive(Drop)]
pub(crate) enum Scarcity<'b> {
    /// It never is.
    Never,
    /// It is one time of so many.
    OnceIn(usize, &'b mut MemoryLimit),
}

impl Scarcity<'_> {
    /// Takes up memory now and then, and says whether it does.
    pub(crate) fn begin(&mut self, draws: &mut Draws) -> bool {
        match self {
            Scarcity::OnceIn(times, memory_limit) if *times > 0 && draws.once_in(*times) => {
                let _ = memory_limit.limit_to(draws.below(BUDGET));
                true
            }
            _ => false,
        }
    }

    /// Gives back what was taken up.
    pub(crate) fn end(&mut self) {
        if let Scarcity::OnceIn(_, memory_limit) = self {
            memory_limit.release();
        }
    }
}
