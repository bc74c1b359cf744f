//! The law of the legs. It is the contract of a function that does nothing.
ghost use Rattle.journey.specs.NewestLegs.{
  AsManyLegs,
  LegsAreTheNewest,
  OnLegsByCount,
  RerouteUndoesTimes,
};

/// The legs of a wagon are what the newest events that set them say.
///
/// A plan sets all its legs. A reroute with k legs that comes while the wagon is on leg c, counted from 0, sets legs
/// c + 1 to c + k, and the wagon then has c + 1 + k legs. Each of its legs is what the newest event that sets it says,
/// with the minutes, 1 to 100,000, of the newest event that sets it or is a time for it. This holds of each list
/// of events that begins with a plan of one to eight legs and of which each further event could come next.
///
/// The leg on which an event comes is the number of receptions before it.
pub fn legs_are_what_the_newest_event_sets()
    ensures on_their_legs { OnLegsByCount }
    ensures legs { LegsAreTheNewest }
    ensures as_many { AsManyLegs }
    ensures a_reroute { RerouteUndoesTimes }
{}
