//! Looks at a hub: they make no call, so nothing is entered.
ghost use Rattle.std.specs.Prelude.{◌≡◌, IfOk};
ghost use Rattle.hub_shared.specs.declared.looks.LookFault.TheVariants as faults;
ghost use Rattle.hub_shared.specs.Looks.{AreCounts, AreCountsAt, AreRefusals, IsFleetLook, IsFleetLookAt, IsWagonLook, IsWagonLookAt};

use crate::refusals::look_at_refusals;
use crate::shared::SharedHub;
use hub_answers::ShownWagon;
use hub_core::Hub;
use std::alloc::Global;
use std::sync::Wait;
use std::sync::ledger::Ledger;
use taf_codes::{Memory, Railway};
use taf_messages::{Reply, Why};
use thiserror::Error;
use wagon_number::WagonNumber;

/// How many calls the hub had taken, and how many wagons were planned, each counted once.
#[derive(Clone, Copy, Debug, PartialEq, Eq)]
pub struct HubCounts {
    pub calls: usize,
    pub wagons: usize,
}

/// What a look at one wagon found: the reply that a railway's question for it would get, and the wagon as the railway is shown it, if
/// it may see it.
#[derive(Drop)]
pub struct WagonLook {
    pub reply: Reply,
    pub shown: Option<ShownWagon>,
}

/// Why there was no look.
#[derive(Clone, Copy, Debug, PartialEq, Eq, Error)]
pub enum LookFault {
    #[error("memory was refused")]
    Memory,
    #[error("the hub has ended")]
    Ended,
}

impl From<Memory> for LookFault {
    ghost from_gives = { λ _ fault. fault ≡ faults.Memory };

    fn from(_: Memory) -> LookFault {
        LookFault::Memory
    }
}

/// What looks at a hub, while others make calls. Each look is of the hub after some history that one thread could have made. It may
/// wait.
pub trait HubLooks {
    /// How many calls the hub has taken, and how many wagons were planned.
    fn counts(&self) -> Result<HubCounts, LookFault>
        ensures { IfOk result AreCounts };

    /// What the railway may see of at most so many planned wagons, from this place of their order on, which is counted from 0.
    fn fleet(&self, by: Railway, from: usize, most: usize) -> Result<Vec<ShownWagon>, LookFault>
        ensures { IfOk result (λ seen. IsFleetLook by from most seen.items) };

    /// What the railway is told and shown of a wagon.
    fn wagon(&self, by: Railway, wagon: WagonNumber) -> Result<WagonLook, LookFault>
        ensures { IfOk result (IsWagonLook by wagon) };

    /// Why calls were refused, those that were, of at most so many calls of the history, from this position on, which is counted from
    /// 0.
    fn refusals(&self, alloc: Global, from: usize, most: usize) -> Result<Vec<Why>, LookFault>
        ensures { IfOk result (λ whys. AreRefusals from most whys.items) };
}

/// Looks at a shared hub, each under its lock.
#[derive(Drop)]
pub struct SharedLooks<'h, L: Ledger, R> {
    rt: &'h R,
    hub: &'h SharedHub<L>,
}

impl<'h, L: Ledger, R> SharedLooks<'h, L, R> {
    pub fn new(rt: &'h R, hub: &'h SharedHub<L>) -> SharedLooks<'h, L, R> {
        SharedLooks { rt, hub }
    }
}

impl<'h, L: Ledger, R: Wait> HubLooks for SharedLooks<'h, L, R> {
    fn counts(&self) -> Result<HubCounts, LookFault> {
        Ok(self.hub.counts(self.rt))
    }

    fn fleet(&self, by: Railway, from: usize, most: usize) -> Result<Vec<ShownWagon>, LookFault> {
        Ok(self.hub.look_at_fleet(self.rt, by, from, most)?)
    }

    fn wagon(&self, by: Railway, wagon: WagonNumber) -> Result<WagonLook, LookFault> {
        Ok(self.hub.look_at_wagon(self.rt, by, wagon)?)
    }

    fn refusals(&self, alloc: Global, from: usize, most: usize) -> Result<Vec<Why>, LookFault> {
        Ok(self.hub.look_at_refusals(self.rt, alloc, from, most)?)
    }
}

/// Looks at a hub that nobody calls meanwhile.
#[derive(Drop)]
pub struct OwnLooks<'h> {
    hub: &'h Hub,
}

impl<'h> OwnLooks<'h> {
    pub fn new(hub: &'h Hub) -> OwnLooks<'h> {
        OwnLooks { hub }
    }
}

impl<'h> HubLooks for OwnLooks<'h> {
    fn counts(&self) -> Result<HubCounts, LookFault> {
        Ok(counts_of(self.hub))
    }

    fn fleet(&self, by: Railway, from: usize, most: usize) -> Result<Vec<ShownWagon>, LookFault> {
        Ok(look_at_fleet(self.hub, by, from, most)?)
    }

    fn wagon(&self, by: Railway, wagon: WagonNumber) -> Result<WagonLook, LookFault> {
        Ok(look_at_wagon(self.hub, by, wagon)?)
    }

    fn refusals(&self, alloc: Global, from: usize, most: usize) -> Result<Vec<Why>, LookFault> {
        Ok(look_at_refusals(alloc, self.hub, from, most)?)
    }
}

/// How many calls the hub has taken, and how many wagons were planned.
pub fn counts_of(hub: &Hub) -> HubCounts
    ensures at { AreCountsAt hub.now result }
    ensures run { AreCounts result }
{
    hub.history_is_legal();
    HubCounts {
        calls: hub.len(),
        wagons: hub.wagon_count(),
    }
}

/// What the railway may see of at most so many planned wagons, from this place of their order on, which is counted from 0. Want of
/// memory is the only error.
pub fn look_at_fleet(
    hub: &Hub,
    by: Railway,
    from: usize,
    most: usize,
) -> Result<Vec<ShownWagon>, Memory>
    ensures at { IfOk result (λ seen. IsFleetLookAt hub.now by from most seen.items) }
    ensures run { IfOk result (λ seen. IsFleetLook by from most seen.items) }
{
    hub.history_is_legal();
    hub.shown_part(by, from, most)
}

/// What the railway is told and shown of a wagon. Want of memory is the only error.
pub fn look_at_wagon(hub: &Hub, by: Railway, wagon: WagonNumber) -> Result<WagonLook, Memory>
    ensures at { IfOk result (IsWagonLookAt hub.now by wagon) }
    ensures run { IfOk result (IsWagonLook by wagon) }
{
    hub.history_is_legal();
    let reply = hub.asked(by, wagon)?;
    let shown = hub.shown_wagon(by, wagon)?;
    Ok(WagonLook { reply, shown })
}
