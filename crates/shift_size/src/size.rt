//! How large a shift is.
ghost use Rattle.std.specs.Prelude.{◌≡◌, ◌≤◌, ◌↔◌, IsSome, IfSome};
ghost use Rattle.shift_size.specs.Sizes.{IsSize};

/// How many sessions a shift has, 1 to 64, and how many workers, 1 to 8.
#[derive(Clone, Copy, Debug, PartialEq, Eq)]
pub struct ShiftSize {
    sessions: usize,
    workers: usize,
    ghost within: { IsSize sessions workers },
}

impl ShiftSize {
    /// None where there are no sessions or more than 64, or no workers or more than 8.
    pub fn new(sessions: usize, workers: usize) -> Option<ShiftSize>
        ensures within { IsSome result ↔ IsSize sessions workers }
        ensures sessions { IfSome result (λ s. s.sessions ≡ sessions) }
        ensures workers { IfSome result (λ s. s.workers ≡ workers) }
    {
        let is_within = 1 <= sessions && sessions <= 64 && 1 <= workers && workers <= 8;
        if is_within {
            Some(ShiftSize { sessions, workers })
        } else {
            None
        }
    }

    pub fn sessions(self) -> usize
        ensures { result ≡ self.sessions }
    {
        self.sessions
    }

    pub fn workers(self) -> usize
        ensures { result ≡ self.workers }
    {
        self.workers
    }
}
