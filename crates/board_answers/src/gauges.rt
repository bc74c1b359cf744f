//! Numbers of the server that serves the hub.

/// Numbers of a server, those that are known.
#[derive(Clone, Copy, Debug, PartialEq, Eq)]
pub struct ServerNumbers {
    /// How many sessions are under way.
    pub sessions: Option<u64>,
    /// How many connections wait for a connection handler.
    pub waiting: Option<u64>,
    /// How many bytes of memory the process has.
    pub memory: Option<u64>,
}

/// What knows the numbers of a server, and a clock.
pub trait Gauges {
    /// The numbers now.
    fn numbers(&self) -> ServerNumbers;

    /// How many microseconds have passed since some moment.
    fn microseconds(&self) -> u64;
}
