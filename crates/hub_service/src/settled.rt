//! A settled service.
ghost use Rattle.std.specs.Prelude.{◌≡◌, ◌+◌, ◌≤◌, length, IfOk, IfErr, OnOk};
ghost use Rattle.hub_shared.specs.Settling.{IsTold, IsSettleFault};

use crate::service::Service;
use hub_shared::{SettleFault, settle};
use std::alloc::Global;

/// A service whose history is told by its tallies, and how many calls it made.
#[derive(Drop)]
pub struct SettledService {
    pub service: Service,
    pub calls: u64,
}

/// Compares the history of a service with the tallies of its handlers, as [`settle`] does.
///
/// The calls are those of the service, at most 1,000,000. The fault says where the tallies do not tell the history, or that memory
/// was refused; then nothing is left of the service.
pub fn settle_service(alloc: Global, service: Service) -> Result<SettledService, SettleFault>
    requires within { service.earlier ≤ length service.hub }
    ensures same { IfOk result (λ s. s.service ≡ service) }
    ensures calls { IfOk result (λ s. s.calls + service.earlier ≡ length service.hub) }
    ensures ok { OnOk result (IsTold service.hub service.earlier service.tallies.items) }
    ensures err { IfErr result (λ f.
        IsSettleFault f service.hub service.earlier service.tallies.items) }
    ensures told { IsTold service.hub service.earlier service.tallies.items
        → IfErr result (λ f. f ≡ SettleFault.Memory) }
{
    let earlier = service.earlier as usize;
    match settle(alloc, &service.hub, earlier, service.tallies.as_slice()) {
        Ok(settled) => Ok(SettledService {
            service,
            calls: settled.calls,
        }),
        Err(fault) => Err(fault),
    }
}
