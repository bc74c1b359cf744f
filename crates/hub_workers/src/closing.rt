//! What the workers gave back, and the end of the hub.
ghost use Rattle.std.specs.Prelude.{◌≡◌, ◌≤◌, ◌+◌, length, map, vec_len, vec_capacity, sum_by, IfOk};
ghost use Rattle.session_lanes.specs.Lanes.{EachAt};
ghost use Rattle.session_lanes.specs.Room.{IsEmptyWithRoom};
ghost use Rattle.hub_shared.specs.Seats.{IsRun, new_seat};

use crate::worker::Worker;
use hub_core::Hub;
use hub_shared::{Seat, SharedHub};
use inbox::Pass;
use session_lanes::with_room;
use std::alloc::Global;
use std::sync::ledger::Ledger;
use taf_codes::Memory;

/// The passes of workers, and their seats, in the order of the workers.
#[derive(Drop)]
pub struct WorkerParts<L: Ledger> {
    pub passes: Vec<Pass>,
    pub seats: Vec<Seat<L>>,
}

impl<L: Ledger> WorkerParts<L> {
    /// Empty lists with room for what up to 8 workers have, and for one seat more. Want of memory is the only error.
    pub fn with_room(alloc: Global, workers: usize) -> Result<WorkerParts<L>, Memory>
        requires few { workers ≤ 8 }
        ensures passes { IfOk result (λ p. IsEmptyWithRoom p.passes workers) }
        ensures seats { IfOk result (λ p. IsEmptyWithRoom p.seats (workers + 1)) }
    {
        let passes = with_room(alloc, workers)?;
        let seats = with_room(alloc, workers + 1)?;
        Ok(WorkerParts { passes, seats })
    }
}

/// Puts the passes of workers, and their seats, into lists that have room for them. It takes no memory.
pub fn split_workers<L: Ledger>(workers: Vec<Worker<L>>, parts: WorkerParts<L>) -> WorkerParts<L>
    requires passes { IsEmptyWithRoom parts.passes (vec_len workers) }
    requires seats { IsEmptyWithRoom parts.seats (vec_len workers) }
    ensures passes { result.passes.items ≡ map (λ w. w.pass) workers.items }
    ensures seats { result.seats.items ≡ map (λ w. w.seat) workers.items }
    ensures room { vec_capacity result.seats ≡ vec_capacity parts.seats }
{
    let WorkerParts { passes, seats } = parts;
    let (mut passes, mut seats) = (passes, seats);
    for back in workers {
        let Worker { pass, seat } = back;
        passes.push_reserved(pass);
        seats.push_reserved(seat);
    }
    WorkerParts { passes, seats }
}

/// The faults of up to 9 seats together.
pub fn add_refused<L: Ledger>(seats: &[Seat<L>]) -> u64
    requires { length seats.now ≤ 9 }
    ensures { result ≡ sum_by (λ s. s.refused) seats.now }
{
    let mut refused = 0;
    for seat in seats {
        refused += seat.refused();
    }
    refused
}

/// What workers leave: the hub, how many calls were answered and how many met a fault, and the passes of the workers.
#[derive(Drop)]
pub struct ClosedHub {
    pub hub: Hub,
    pub sum: u64,
    pub refused: u64,
    pub passes: Vec<Pass>,
}

/// Closes the hub of up to 8 workers, each of which has one part of the seats, by the part that was kept. It takes no memory.
///
/// The sum is the length of the hub's history.
pub fn close_hub<L: Ledger>(
    hub: SharedHub<L>,
    seat: Seat<L>,
    worked: Vec<Worker<L>>,
    parts: WorkerParts<L>,
) -> ClosedHub
    requires own { EachAt (λ k w. w.seat.parts ≡ 1) worked.items }
    requires seat { (seat ≡ new_seat 1) × (L.parts ≡ length worked.items + 1) }
    requires few { length worked.items ≤ 8 }
    requires passes { IsEmptyWithRoom parts.passes (vec_len worked) }
    requires seats { IsEmptyWithRoom parts.seats (vec_len worked + 1) }
    ensures run { IsRun result.hub }
    ensures sum { result.sum ≡ length result.hub }
    ensures calls { sum_by (λ w. w.seat.count) worked.items ≡ result.sum }
    ensures faults { sum_by (λ w. w.seat.refused) worked.items ≡ result.refused }
    ensures passes { result.passes.items ≡ map (λ w. w.pass) worked.items }
{
    let WorkerParts { passes, seats } = split_workers(worked, parts);
    let mut seats = seats;
    seats.push_reserved(seat);
    let refused = add_refused(seats.as_slice());
    let (hub, sum) = hub.close(seats);
    ClosedHub {
        hub,
        sum,
        refused,
        passes,
    }
}
