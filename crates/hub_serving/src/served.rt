//! What the threads around a hub leave.
use hub_core::Hub;
use hub_shared::Tally;
use inbox::Left;
use session_lanes::SessionEnd;

/// What the threads around a hub leave: those that served, and the workers that made their calls.
#[derive(Drop)]
pub struct ServedHub {
    pub hub: Hub,
    /// How many calls the history had before.
    pub earlier: u64,
    /// How many calls the workers made that were answered: those that the history has since.
    pub sum: u64,
    /// How many calls met a fault of the hub.
    pub refused: u64,
    /// How each thread ended that served, in their order.
    pub ends: Vec<SessionEnd>,
    /// What each was told, in their order.
    pub tallies: Vec<Tally>,
    /// What each lane still held.
    pub left: Vec<Left>,
}
