//! The law of histories that are told.
ghost use Rattle.hub_shared.specs.Orders.{ToldInOrder};

/// In a history that is told by tallies, as [`settle`](crate::settle) finds it, every entry behind those that were there before is
/// of exactly one tally, and the entries of a tally stand there in the tally's order, each once. It does nothing.
pub fn told_sessions_interleave()
    ensures { ToldInOrder }
{}
