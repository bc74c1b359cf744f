//! What the sessions and the workers gave back, and the end of the lanes.
ghost use Rattle.std.specs.Prelude.{◌≡◌, ◌+◌, ◌<◌, ◌≤◌, [], ◌∷◌, ◌++◌, length, map, slice_index_or, vec_len, sum_by, IfOk};
ghost use Rattle.std.specs.List.{All};
ghost use Rattle.inbox.specs.Rules.{ALL_PARTS};
ghost use Rattle.inbox.specs.States.{IsKeptBy};
ghost use Rattle.session_lanes.specs.Lanes.{EachAt, EachPair, of_lane, TakesBack, EachLane};
ghost use Rattle.session_lanes.specs.Room.{IsEmptyWithRoom};

use crate::ends::{Served, SessionEnd};
use crate::lane::Lane;
use crate::room::with_room;
use inbox::{Left, Pass};
use std::alloc::Global;
use std::sync::Wait;
use taf_codes::Memory;
use tallies::Tally;

/// How each session ended, and its tally, in their order.
#[derive(Drop)]
pub struct Outcomes {
    pub ends: Vec<SessionEnd>,
    pub tallies: Vec<Tally>,
}

impl Outcomes {
    /// Empty lists with room for so many sessions. Want of memory is the only error.
    pub fn with_room(alloc: Global, sessions: usize) -> Result<Outcomes, Memory>
        ensures ends { IfOk result (λ o. IsEmptyWithRoom o.ends sessions) }
        ensures tallies { IfOk result (λ o. IsEmptyWithRoom o.tallies sessions) }
    {
        let ends = with_room(alloc, sessions)?;
        let tallies = with_room(alloc, sessions)?;
        Ok(Outcomes { ends, tallies })
    }
}

/// Takes the passes of up to 64 sessions back into their lanes, to which none came back yet, and gives how they ended and their
/// tallies, in the lists that have room for them. It takes no memory.
pub fn take_sessions(lanes: &mut [Lane], served: Vec<Served>, outcomes: Outcomes) -> Outcomes
    requires some { 1 ≤ length lanes.old }
    requires few { vec_len served ≤ 64 }
    requires none { EachAt (λ k l. l.back ≡ []) lanes.old }
    requires ends { IsEmptyWithRoom outcomes.ends (vec_len served) }
    requires tallies { IsEmptyWithRoom outcomes.tallies (vec_len served) }
    ensures ends { result.ends.items ≡ map (λ s. s.end) served.items }
    ensures tallies { result.tallies.items ≡ map (λ s. s.tally) served.items }
    ensures lanes { EachLane (λ k before after. TakesBack before after
        (of_lane k (length lanes.old) 0 (map (λ s. s.pass) served.items))) lanes.old lanes.new }
{
    let Outcomes { ends, tallies } = outcomes;
    let (mut ends, mut tallies) = (ends, tallies);
    for back in served {
        let Served { end, tally, pass } = back;
        let lane = tallies.len() % lanes.len();
        lanes[lane].take_back(pass);
        ends.push_reserved(end);
        tallies.push_reserved(tally);
    }
    Outcomes { ends, tallies }
}

/// Takes the passes of the workers back, that of worker `k` into lane `k`. To each lane at most 64 passes came back yet. It
/// takes no memory.
pub fn take_passes(lanes: &mut [Lane], passes: Vec<Pass>)
    requires count { vec_len passes ≡ length lanes.old }
    requires few { EachAt (λ k l. length l.back ≤ 64) lanes.old }
    ensures { (k : _) (d : _) (e : _) → k < length lanes.old
        → TakesBack (slice_index_or lanes.old k d) (slice_index_or lanes.new k d)
        (slice_index_or passes.items k e ∷ []) }
{
    let mut lane = 0;
    for back in passes {
        lanes[lane].take_back(back);
        lane += 1;
    }
}

/// Closes each lane, once all passes came back, and puts what each still held into a list that has room for it. It takes no
/// memory.
pub fn close_lanes(rt: &impl Wait, lanes: Vec<Lane>, left: Vec<Left>) -> Vec<Left>
    requires own { EachAt (λ k l. All (λ p. p.inbox ≡ l.id) l.back) lanes.items }
    requires parts { EachAt (λ k l. sum_by (λ p. p.parts) l.back + l.pass.parts ≡ ALL_PARTS)
        lanes.items }
    requires few { EachAt (λ k l. length l.back < 66) lanes.items }
    requires left { IsEmptyWithRoom left (vec_len lanes) }
    ensures { EachPair (λ k l left. IsKeptBy (l.back ++ l.pass ∷ []) left)
        lanes.items result.items }
{
    let mut all = left;
    for lane in lanes {
        all.push_reserved(lane.close(rt));
    }
    all
}
