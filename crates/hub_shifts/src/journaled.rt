//! A whole shift with a journal.
ghost use Rattle.std.specs.Prelude.{◌≤◌, map, vec_len, IfOk};
ghost use Rattle.session_lanes.specs.Ends.{streams_of};
ghost use Rattle.journaled_hub.specs.JournaledHubs.{IsOnDisk};
ghost use Rattle.hub_shifts.specs.JournaledShifts.{IsJournaledShift};

use crate::one_session::OneSession;
use crate::shift::{Shift, ShiftFault, into_shift};
use hub_serving::{HubKeeper, ServedJournaledHub, serve_journaled_hub};
use hub_threads::Lent;
use journal::{Journal, RawFile};
use journaled_hub::JournaledHub;
use std::alloc::Global;
use std::sync::Wait;
use std::thread::Threads;
use taf_codes::{Sink, Source};

/// What a shift with a journal leaves.
#[derive(Drop)]
pub struct JournaledShift<F> {
    pub shift: Shift,
    /// The journal. Where a call of its file failed ([`Journal::has_failed`]), the last calls of the shift may be lacking on the
    /// disk, and no session was told of them.
    pub journal: Journal<F>,
}

/// Serves 1 to 64 sessions on the hub of a journal, each by its reader and writer in a thread of its own, with one worker.
///
/// It is as [`run_kept_shift`](crate::run_kept_shift), on a hub that has a history. A job is answered once its call is on the disk; the jobs
/// that come while a sync is waited for share the next one. Where a call of the journal's file fails, no session is answered any more:
/// each ends by the next line that it gives a job for, or where its reader comes to its end.
pub fn run_journaled_shift<F, S, K, D, R>(
    rt: &R,
    alloc: Global,
    keeper: &D,
    sessions: Vec<(S, K)>,
    hub: JournaledHub<F>,
) -> Result<JournaledShift<F>, ShiftFault>
where
    F: RawFile + Send + Drop,
    S: Source + Send + Drop,
    K: Sink + Send + Drop,
    D: HubKeeper + Sync,
    R: Threads + Wait + Sync,
    requires sessions { (1 ≤ vec_len sessions) × (vec_len sessions ≤ 64) }
    requires on_disk { IsOnDisk hub }
    ensures { IfOk result (λ s. IsJournaledShift
        (map (λ p. streams_of (S.remaining p.0) (K.contents p.1)) sessions.items) hub s) }
{
    let lent = Lent {
        shared: &(),
        kind: &OneSession,
        keeper,
    };
    let ServedJournaledHub { served, journal } = serve_journaled_hub(
        rt, alloc, lent, sessions, hub,
    )?;
    Ok(JournaledShift {
        shift: into_shift(served),
        journal,
    })
}
