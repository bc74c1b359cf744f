//! What the thread of a session begins with, and what it gives back.
ghost use Rattle.std.specs.Prelude.{◌≡◌};
ghost use Rattle.session_lanes.specs.Ends.{end_of};

use inbox::Pass;
use session_serving::SessionFault;
use tallies::Tally;

/// How a session ended.
#[derive(Clone, Copy, Debug, PartialEq, Eq)]
pub enum SessionEnd {
    /// Its reader came to the end, and each of its jobs has its answer.
    Complete,
    /// An answer came that was not to its oldest job; it read no further.
    Stranger,
    /// It could not be served to the end.
    Fault(SessionFault),
}

// How a session ended, by what serving answered and by whether the session has failed.
pub(crate) fn session_end(served: Result<(), SessionFault>, has_failed: bool) -> SessionEnd
    ensures { result ≡ end_of served has_failed }
{
    match served {
        Ok(()) if has_failed => SessionEnd::Stranger,
        Ok(()) => SessionEnd::Complete,
        Err(fault) => SessionEnd::Fault(fault),
    }
}

/// What the thread of a session begins with: the session's number, its reader and writer, and its pass of the lane.
#[derive(Drop)]
pub struct SessionStart<S, K> {
    pub session: u32,
    pub reader: S,
    pub writer: K,
    pub pass: Pass,
}

/// What the thread of a session gives back: how the session ended, its tally, and its pass.
#[derive(Drop)]
pub struct Served {
    pub end: SessionEnd,
    pub tally: Tally,
    pub pass: Pass,
}
