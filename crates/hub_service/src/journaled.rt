//! A whole service with a journal.
ghost use Rattle.std.specs.Prelude.{◌≤◌, vec_len, IfOk};
ghost use Rattle.journaled_hub.specs.JournaledHubs.{IsOnDisk};
ghost use Rattle.hub_service.specs.JournaledServices.{IsJournaledService};

use crate::service::{Service, into_service};
use connection_handlers::ConnectionHandlers;
use connections::Connections;
use hub_serving::{HubKeeper, ServedJournaledHub, serve_journaled_hub};
use hub_threads::{Lent, ThreadFault};
use journal::{Journal, RawFile};
use journaled_hub::JournaledHub;
use std::alloc::Global;
use std::sync::Wait;
use std::thread::Threads;

/// What a service with a journal leaves.
#[derive(Drop)]
pub struct JournaledService<F> {
    pub service: Service,
    /// The journal. Where a call of its file failed ([`Journal::has_failed`]), the last calls of the service may be lacking on the
    /// disk, and no session was told of them.
    pub journal: Journal<F>,
}

/// Serves whoever connects on the hub of a journal, by 1 to 64 connection handlers in threads of their own, with one worker.
///
/// It is as [`run_service`](crate::run_service), on a hub that has a history. A job is answered once its call is on the disk; the jobs
/// that come while a sync is waited for share the next one. Where a call of the journal's file fails, no session is answered any more:
/// each ends by the next line that it gives a job for, or where its reader comes to its end, and a handler whose session ended by such
/// a line serves no other.
pub fn run_journaled_service<F, A, D, R>(
    rt: &R,
    alloc: Global,
    keeper: &D,
    handlers: Vec<(A, ())>,
    hub: JournaledHub<F>,
) -> Result<JournaledService<F>, ThreadFault>
where
    F: RawFile + Send + Drop,
    A: Connections + Send + Drop,
    D: HubKeeper + Sync,
    R: Threads + Wait + Sync,
    requires handlers { (1 ≤ vec_len handlers) × (vec_len handlers ≤ 64) }
    requires on_disk { IsOnDisk hub }
    ensures { IfOk result (λ s. IsJournaledService (vec_len handlers) hub s) }
{
    let lent = Lent {
        shared: &(),
        kind: &ConnectionHandlers,
        keeper,
    };
    let ServedJournaledHub { served, journal } = serve_journaled_hub(
        rt, alloc, lent, handlers, hub,
    )?;
    Ok(JournaledService {
        service: into_service(served),
        journal,
    })
}
