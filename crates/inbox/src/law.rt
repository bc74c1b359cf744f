//! The law of lanes.
ghost use Rattle.inbox.specs.Sessions.{LaneInOrder};

/// A lane is an inbox with one taking pass, into which each session puts by a pass of its own. When a lane is closed, what
/// the taking pass took of a session's jobs is the first part of what the session's pass put, and what is left of them is
/// the rest, in order. It does nothing.
pub fn lane_in_order()
    ensures { LaneInOrder }
{}
