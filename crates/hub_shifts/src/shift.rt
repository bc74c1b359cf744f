//! A whole shift.
ghost use Rattle.std.specs.Prelude.{◌≡◌, ◌≤◌, map, vec_len, IfOk};
ghost use Rattle.session_lanes.specs.Ends.{streams_of};
ghost use Rattle.hub_shifts.specs.Shifts.{IsShift, shift_of};
ghost use Rattle.hub_shifts.specs.Faults.{fault_of_threads};

use crate::one_session::OneSession;
use hub_core::Hub;
use hub_serving::{Hooks, HubKeeper, NoKeeper, ServedHub, serve_hub};
use hub_shared::Tally;
use hub_threads::{Lent, ThreadFault};
use hub_workers::Gate;
use inbox::Left;
use session_lanes::SessionEnd;
use std::alloc::Global;
use std::random::RandomSource;
use std::sync::Wait;
use std::thread::Threads;
use taf_codes::{Sink, Source};
use thiserror::Error;

/// What a shift leaves.
#[derive(Drop)]
pub struct Shift {
    pub hub: Hub,
    /// How many calls the history had before the shift.
    pub earlier: u64,
    /// How many calls its workers made that were answered: those that the history has since.
    pub sum: u64,
    /// How many calls met a fault of the hub.
    pub refused: u64,
    /// How each session ended, in their order.
    pub ends: Vec<SessionEnd>,
    /// What each session was told, in their order.
    pub tallies: Vec<Tally>,
    /// What each lane still held.
    pub left: Vec<Left>,
}

/// Why a shift has no hub.
#[derive(Clone, Copy, Debug, PartialEq, Eq, Error)]
pub enum ShiftFault {
    #[error("a thread could not be started")]
    Thread,
    #[error("memory was refused")]
    Memory,
}

impl From<ThreadFault> for ShiftFault {
    ghost from_gives = { λ threads fault. fault ≡ fault_of_threads threads };

    fn from(fault: ThreadFault) -> ShiftFault {
        match fault {
            ThreadFault::Thread => ShiftFault::Thread,
            ThreadFault::Memory => ShiftFault::Memory,
        }
    }
}

/// Serves 1 to 64 sessions, each by its reader and writer in a thread of its own, with 1 to 8 workers in threads of their
/// own.
///
/// Session `i` is served by worker `i mod workers`. It returns once each session has come to its end and the workers have
/// made all calls that were left, so it waits for the readers. All memory that the shift takes for itself is taken before the
/// first thread starts: where it is refused, the answer is [`ShiftFault::Memory`]. No session begins before all threads are there:
/// where one can't be started the others end at once, and the answer is [`ShiftFault::Thread`]. After either fault no line was read,
/// no thread is left, and there is no hub. A session that ends by a fault gives its tally all the same.
///
/// A session that has no answer to write sleeps until all its jobs that are out are answered. So a gate that holds one of them
/// until the reply to another of the same session was written holds both for ever.
pub fn run_shift<S, K, G, R>(
    rt: &R,
    alloc: Global,
    gate: &G,
    sessions: Vec<(S, K)>,
    workers: usize,
) -> Result<Shift, ShiftFault>
where
    S: Source + Send + Drop,
    K: Sink + Send + Drop,
    G: Gate + Sync,
    R: Threads + Wait + Sync + RandomSource,
    requires sessions { (1 ≤ vec_len sessions) × (vec_len sessions ≤ 64) }
    requires workers { (1 ≤ workers) × (workers ≤ 8) }
    ensures { IfOk result (λ s. IsShift
        (map (λ p. streams_of (S.remaining p.0) (K.contents p.1)) sessions.items) workers s) }
{
    let keeper = &NoKeeper;
    run_kept_shift(rt, alloc, Hooks { gate, keeper }, sessions, workers)
}

/// Serves sessions as [`run_shift`] does, with a keeper: the calling thread does what it does, and the hub is looked at meanwhile where
/// it does so.
pub fn run_kept_shift<S, K, G, D, R>(
    rt: &R,
    alloc: Global,
    hooks: Hooks<'_, G, D>,
    sessions: Vec<(S, K)>,
    workers: usize,
) -> Result<Shift, ShiftFault>
where
    S: Source + Send + Drop,
    K: Sink + Send + Drop,
    G: Gate + Sync,
    D: HubKeeper + Sync,
    R: Threads + Wait + Sync + RandomSource,
    requires sessions { (1 ≤ vec_len sessions) × (vec_len sessions ≤ 64) }
    requires workers { (1 ≤ workers) × (workers ≤ 8) }
    ensures { IfOk result (λ s. IsShift
        (map (λ p. streams_of (S.remaining p.0) (K.contents p.1)) sessions.items) workers s) }
{
    let Hooks { gate, keeper } = hooks;
    let lent = Lent {
        shared: gate,
        kind: &OneSession,
        keeper,
    };
    let served = serve_hub(rt, alloc, lent, sessions, workers)?;
    Ok(into_shift(served))
}

// The shift whose sessions were the threads that served.
pub(crate) fn into_shift(served: ServedHub) -> Shift
    ensures { result ≡ shift_of served }
{
    let ServedHub {
        hub,
        earlier,
        sum,
        refused,
        ends,
        tallies,
        left,
    } = served;
    Shift {
        hub,
        earlier,
        sum,
        refused,
        ends,
        tallies,
        left,
    }
}
