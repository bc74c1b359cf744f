//! The limits of the board's connections.
ghost use Rattle.std.specs.Prelude.{◌≡◌, ◌*◌, ◌≤◌};
ghost use Rattle.std.specs.Duration.{as_nanos};

use std::time::Duration;

/// How many clients are connected, how many answers wait for them, and how long anything may take.
///
/// A time is kept by the clock of the system, and what ends by it ends up to a second later.
#[derive(Clone, Copy, Debug, PartialEq, Eq)]
pub struct Limits {
    /// How many clients are connected at most, 1 to 64.
    pub clients: usize,

    /// How many of them may have an answer waiting at most.
    pub waiting_answers: usize,

    /// How long a client may neither send nor take anything.
    pub silence: Duration,

    /// How long a request may take to come whole, from its first bytes.
    pub request: Duration,

    /// How long a connection lasts, but for an answer that is going out.
    pub age: Duration,

    ghost at_least_one: { 1 ≤ clients },
    ghost at_most_64: { clients ≤ 64 },
}

impl Limits {
    /// The limits of the board: 64 clients, of which eight may have an answer waiting; ten seconds of silence, ten for a request, and
    /// sixty for a connection.
    pub fn new() -> Limits
        ensures clients { result.clients ≡ 64 }
        ensures waiting { result.waiting_answers ≡ 8 }
        ensures silence { as_nanos result.silence ≡ 10 * 1000000000 }
        ensures request { as_nanos result.request ≡ 10 * 1000000000 }
        ensures age { as_nanos result.age ≡ 60 * 1000000000 }
    {
        Limits {
            clients: 64,
            waiting_answers: 8,
            silence: Duration::from_secs(10),
            request: Duration::from_secs(10),
            age: Duration::from_secs(60),
        }
    }
}
