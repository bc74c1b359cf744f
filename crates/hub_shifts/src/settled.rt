//! A settled shift.
ghost use Rattle.std.specs.Prelude.{◌≡◌, ◌+◌, ◌≤◌, length, IfOk, IfErr, OnOk};
ghost use Rattle.hub_shared.specs.Settling.{IsTold, IsSettleFault};

use crate::shift::Shift;
use hub_shared::{SettleFault, settle};
use std::alloc::Global;

/// A shift whose history is told by its tallies, and how many calls it made.
#[derive(Drop)]
pub struct SettledShift {
    pub shift: Shift,
    pub calls: u64,
}

/// Compares the history of a shift with the tallies of its sessions, as [`settle`] does.
///
/// The calls are those of the shift, at most 1,000,000. The fault says where the tallies do not tell the history, or that memory was refused; then
/// nothing is left of the shift.
pub fn settle_shift(alloc: Global, shift: Shift) -> Result<SettledShift, SettleFault>
    requires within { shift.earlier ≤ length shift.hub }
    ensures same { IfOk result (λ s. s.shift ≡ shift) }
    ensures calls { IfOk result (λ s. s.calls + shift.earlier ≡ length shift.hub) }
    ensures ok { OnOk result (IsTold shift.hub shift.earlier shift.tallies.items) }
    ensures err { IfErr result (λ f. IsSettleFault f shift.hub shift.earlier shift.tallies.items) }
    ensures told { IsTold shift.hub shift.earlier shift.tallies.items
        → IfErr result (λ f. f ≡ SettleFault.Memory) }
{
    let earlier = shift.earlier as usize;
    match settle(alloc, &shift.hub, earlier, shift.tallies.as_slice()) {
        Ok(settled) => Ok(SettledShift {
            shift,
            calls: settled.calls,
        }),
        Err(fault) => Err(fault),
    }
}
