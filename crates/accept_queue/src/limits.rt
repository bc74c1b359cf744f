//! The limits of an accept queue.
ghost use Rattle.std.specs.Prelude.{◌≡◌, ◌≤◌, ◌<◌, ◌↔◌, IsSome, IfSome};
ghost use Rattle.std.specs.Option.{ForSome};
ghost use Rattle.std.specs.Duration.{as_nanos};

use std::time::Duration;

/// How many connections are served and wait, and how long anything may take.
///
/// A time is kept by the clock of the system, and what ends by it ends a little later: some milliseconds, where the machine has time.
#[derive(Clone, Copy, Debug, PartialEq, Eq)]
pub struct Limits {
    /// How many connection handlers there are, 1 to 64. Each serves one session at a time.
    pub handlers: usize,

    /// How many connections wait for a handler at most, 1 to 64.
    pub waiting: usize,

    /// How long a connection waits for a handler before it is told that there is none.
    pub wait_before_full: Duration,

    /// How long a client may send nothing until its first line is complete, more than zero.
    pub silence_before_hello: Duration,

    /// How long a client may send nothing after that, while bytes of it are waited for, more than zero; None for as long as it wants.
    pub silence_between_lines: Option<Duration>,

    /// How long a client may take nothing of what is written to it, more than zero.
    pub write_timeout: Duration,

    /// How long sessions may go on once the service ends.
    pub grace: Duration,

    ghost handlers_within: { (1 ≤ handlers) × (handlers ≤ 64) },
    ghost waiting_within: { (1 ≤ waiting) × (waiting ≤ 64) },
    ghost hello_is_waited_for: { 0 < as_nanos silence_before_hello },
    ghost lines_are_waited_for: { ForSome silence_between_lines (λ d. 0 < as_nanos d) },
    ghost writes_are_waited_for: { 0 < as_nanos write_timeout },
}

impl Limits {
    /// The limits of a service with so many connection handlers: 64 connections wait, for a second; a client may be silent for ten
    /// seconds before its hello, and for as long as it wants after that; a write may take 30 seconds; and sessions have five seconds
    /// once the service ends. None where there are no handlers or more than 64.
    pub fn new(handlers: usize) -> Option<Limits>
        ensures within { IsSome result ↔ ((1 ≤ handlers) × (handlers ≤ 64)) }
        ensures handlers { IfSome result (λ limits. limits.handlers ≡ handlers) }
        ensures waiting { IfSome result (λ limits. limits.waiting ≡ 64) }
    {
        let is_within = 1 <= handlers && handlers <= 64;
        if !is_within {
            return None;
        }
        Some(Limits {
            handlers,
            waiting: 64,
            wait_before_full: Duration::from_secs(1),
            silence_before_hello: Duration::from_secs(10),
            silence_between_lines: None,
            write_timeout: Duration::from_secs(30),
            grace: Duration::from_secs(5),
        })
    }
}
