//! How many connections an accept queue has.
ghost use Rattle.std.specs.Prelude.{◌≡◌};
ghost use Rattle.accept_queue.specs.Counts.{served_of};

/// How many connections are served, and how many wait for a handler.
#[derive(Clone, Copy, Debug, PartialEq, Eq)]
pub struct QueueCounts {
    pub sessions: usize,
    pub waiting: usize,
}

// How many handlers serve a connection.
pub(crate) fn served_of<T>(sessions: &[Option<T>]) -> usize
    ensures { result ≡ served_of sessions.now }
{
    sessions.iter().filter(|session| session.is_some()).count()
}
