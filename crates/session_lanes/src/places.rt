//! What the threads of sessions and workers begin with: everything is handed out before the first one starts.
ghost use Rattle.std.specs.Prelude.{◌≡◌, ◌+◌, ◌%◌, ◌≤◌, length, map, vec_len, IfOk};
ghost use Rattle.session_lanes.specs.Lanes.{new_lane, lane_capacity, IsPassOf, EachAt, of_lane, HandsOut, EachLane};

use crate::ends::SessionStart;
use crate::lane::{Lane, make_lanes, start_sessions};
use inbox::Pass;
use std::alloc::Global;
use std::sync::Wait;
use taf_codes::Memory;

/// The lanes, what the threads of the sessions begin with, and the passes of the workers.
#[derive(Drop)]
pub struct LanePlaces<S, K> {
    pub lanes: Vec<Lane>,
    pub sessions: Vec<SessionStart<S, K>>,
    pub passes: Vec<Pass>,
}

/// Makes 1 to 8 lanes, and hands out their passes to up to 64 sessions and to the workers.
///
/// Session `i` has its reader, its writer and a pass of lane `i mod workers`. The pass of worker `k` is of lane `k`. Each has one
/// part. A lane has a place for each job that its sessions may have out. Want of memory is the only error.
pub fn make_lane_places<S: Drop, K: Drop>(
    rt: &impl Wait,
    alloc: Global,
    sessions: Vec<(S, K)>,
    workers: usize,
) -> Result<LanePlaces<S, K>, Memory>
    requires sessions { vec_len sessions ≤ 64 }
    requires workers { (1 ≤ workers) × (workers ≤ 8) }
    ensures counts { IfOk result (λ p. (vec_len p.lanes ≡ workers) × (vec_len p.passes ≡ workers)
        × (vec_len p.sessions ≡ vec_len sessions)) }
    ensures ends { IfOk result (λ p. map (λ s. (s.reader, s.writer)) p.sessions.items
        ≡ sessions.items) }
    ensures lanes { IfOk result (λ p. EachAt (λ k l.
        HandsOut (new_lane l.id (lane_capacity k workers (vec_len sessions))) l
        (1 + length (of_lane k workers 0 p.sessions.items))) p.lanes.items) }
    ensures sessions { IfOk result (λ p. EachAt (λ i s. (s.session ≡ i)
        × IsPassOf p.lanes.items (i % workers) s.pass) p.sessions.items) }
    ensures passes { IfOk result (λ p. EachAt (λ k t. IsPassOf p.lanes.items k t) p.passes.items) }
{
    let mut lanes = make_lanes(rt, alloc, workers, sessions.len())?;
    let passes = hand_out_each(rt, alloc, lanes.as_mut_slice())?;
    let sessions = start_sessions(rt, alloc, lanes.as_mut_slice(), sessions)?;
    Ok(LanePlaces {
        lanes,
        sessions,
        passes,
    })
}

// A pass of each lane, of one part.
fn hand_out_each(rt: &impl Wait, alloc: Global, lanes: &mut [Lane]) -> Result<Vec<Pass>, Memory>
    requires { EachAt (λ k l. 1000 ≤ l.pass.parts) lanes.old }
    ensures count { IfOk result (λ v. vec_len v ≡ length lanes.old) }
    ensures passes { IfOk result (λ v. EachAt (λ k t. IsPassOf lanes.old k t) v.items) }
    ensures lanes { IfOk result (λ v. EachLane (λ k before after. HandsOut before after 1)
        lanes.old lanes.new) }
{
    let mut passes = Vec::new(alloc);
    for lane in lanes.iter_mut() {
        let pass = lane.hand_out(rt);
        passes.push(pass).map_err(|_| Memory)?;
    }
    Ok(passes)
}
