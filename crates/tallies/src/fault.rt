use taf_messages::Call;
use thiserror::Error;

/// Why the hub took no call.
#[derive(Debug, Drop, Error)]
pub enum HubFault {
    /// The history has 1,000,000 entries. The call is handed back.
    #[error("the history is full")]
    Full(Call),
    /// Memory was refused. The hub is as it was.
    #[error("memory was refused")]
    Memory,
}
