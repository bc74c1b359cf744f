//! How a shift or a service is run.
ghost use Rattle.std.specs.Prelude.{◌≤◌};

use accept_queue::Limits;
use shift_size::ShiftSize;

/// How a shift is run.
#[derive(Clone, Copy, Debug, PartialEq, Eq)]
pub struct ShiftOptions {
    /// Not 0.
    pub port: u16,
    pub size: ShiftSize,
    /// The port of the board, if it has one.
    pub board: Option<u16>,
    ghost port_within: { (1 ≤ port) × (port ≤ 65535) },
}

/// How a service is run.
#[derive(Clone, Copy, Debug, PartialEq, Eq)]
pub struct ServiceOptions {
    /// Not 0.
    pub port: u16,
    /// How many sessions are served at a time, and how long anything may take.
    pub limits: Limits,
    /// How many workers make the calls, 1 to 8.
    pub workers: usize,
    /// The port of the board, if it has one.
    pub board: Option<u16>,
    ghost port_within: { (1 ≤ port) × (port ≤ 65535) },
    ghost workers_within: { (1 ≤ workers) × (workers ≤ 8) },
}
