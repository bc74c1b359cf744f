//! What the threads of sessions and workers begin with: everything is handed out before the first one starts.
ghost use Rattle.std.specs.Prelude.{◌≡◌, ◌+◌, ◌%◌, ◌≤◌, length, map, vec_len, IfOk};
ghost use Rattle.session_lanes.specs.Lanes.{new_lane, lane_capacity, IsPassOf, EachAt, of_lane, HandsOut};
ghost use Rattle.hub_shared.specs.Seats.{new_seat};

use crate::worker::Worker;
use hub_shared::{Seat, split_seat};
use inbox::Pass;
use session_lanes::{Lane, LanePlaces, SessionStart, make_lane_places};
use std::alloc::Global;
use std::sync::Wait;
use std::sync::ledger::Ledger;
use taf_codes::Memory;

/// The lanes, and what the threads of the sessions and of the workers begin with.
#[derive(Drop)]
pub struct Places<L: Ledger, S, K> {
    pub lanes: Vec<Lane>,
    pub sessions: Vec<SessionStart<S, K>>,
    pub workers: Vec<Worker<L>>,
}

/// Makes 1 to 8 lanes, and hands out their passes to up to 64 sessions and to the workers, and the parts of the seat, of which
/// one is kept.
///
/// Session `i` has its reader, its writer and a pass of lane `i mod workers`, worker `k` a pass of lane
/// `k`, each of one part. A lane has a place for each job that its sessions may have out. Want of
/// memory is the only error.
pub fn make_places<L: Ledger, S: Drop, K: Drop>(
    rt: &impl Wait,
    alloc: Global,
    sessions: Vec<(S, K)>,
    workers: usize,
    seat: &mut Seat<L>,
) -> Result<Places<L, S, K>, Memory>
    requires sessions { vec_len sessions ≤ 64 }
    requires workers { (1 ≤ workers) × (workers ≤ 8) }
    requires seat { seat.old ≡ new_seat (workers + 1) }
    ensures counts { IfOk result (λ p. (vec_len p.lanes ≡ workers) × (vec_len p.workers ≡ workers)
        × (vec_len p.sessions ≡ vec_len sessions)) }
    ensures ends { IfOk result (λ p. map (λ s. (s.reader, s.writer)) p.sessions.items
        ≡ sessions.items) }
    ensures lanes { IfOk result (λ p. EachAt (λ k l.
        HandsOut (new_lane l.id (lane_capacity k workers (vec_len sessions))) l
        (1 + length (of_lane k workers 0 p.sessions.items))) p.lanes.items) }
    ensures sessions { IfOk result (λ p. EachAt (λ i s. (s.session ≡ i)
        × IsPassOf p.lanes.items (i % workers) s.pass) p.sessions.items) }
    ensures workers { IfOk result (λ p. EachAt (λ k w. (w.seat ≡ new_seat 1)
        × IsPassOf p.lanes.items k w.pass) p.workers.items) }
    ensures seat { IfOk result (λ p. seat.new ≡ new_seat 1) }
{
    let LanePlaces {
        lanes,
        sessions,
        passes,
    } = make_lane_places(rt, alloc, sessions, workers)?;
    let workers = seat_workers(alloc, passes, seat)?;
    Ok(Places {
        lanes,
        sessions,
        workers,
    })
}

// A worker with each of these passes, and a part of the seat, of which one is kept.
fn seat_workers<L: Ledger>(
    alloc: Global,
    passes: Vec<Pass>,
    seat: &mut Seat<L>,
) -> Result<Vec<Worker<L>>, Memory>
    requires { seat.old ≡ new_seat (length passes.items + 1) }
    ensures passes { IfOk result (λ v. map (λ w. w.pass) v.items ≡ passes.items) }
    ensures seats { IfOk result (λ v. EachAt (λ k w. w.seat ≡ new_seat 1) v.items) }
    ensures seat { IfOk result (λ v. seat.new ≡ new_seat 1) }
{
    let mut workers = Vec::new(alloc);
    for pass in passes {
        let seat = split_seat(seat);
        workers.push(Worker { pass, seat }).map_err(|_| Memory)?;
    }
    Ok(workers)
}
