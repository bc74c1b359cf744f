//! Why there is no settled shift or service.
ghost use Rattle.std.specs.Prelude.{◌≡◌};
ghost use Rattle.server_faults.specs.Faults.{fault_of_settling};
ghost use Rattle.server_faults.specs.declared.fault.ServerFault.TheVariants as faults;

use hub_shared::SettleFault;
use taf_codes::Memory;
use thiserror::Error;

/// Why the connections of a listener came to no settled shift or service.
#[derive(Clone, Copy, Debug, PartialEq, Eq, Error)]
pub enum ServerFault {
    #[error("a thread could not be started")]
    Thread,
    #[error("memory was refused")]
    Memory,
    /// The history is not told by the tallies of what sessions were told: in this respect.
    #[error("the history is not told by the tallies: {0}")]
    NotSettled(SettleFault),
    /// A call of the journal's file failed: no further answer was given, and the journal has to be opened again.
    #[error("a call of the journal's file failed")]
    Journal,
}

impl From<Memory> for ServerFault {
    ghost from_gives = { λ _ fault. fault ≡ faults.Memory };

    fn from(_: Memory) -> ServerFault {
        ServerFault::Memory
    }
}

impl From<SettleFault> for ServerFault {
    ghost from_gives = { λ settling fault. fault ≡ fault_of_settling settling };

    fn from(fault: SettleFault) -> ServerFault {
        match fault {
            SettleFault::Memory => ServerFault::Memory,
            fault => ServerFault::NotSettled(fault),
        }
    }
}
