//! What goes on beside the threads around a hub.
use hub_shared::{HubLooks, SharedHub, SharedLooks};
use hub_threads::Keeper;
use journal_workers::{JournalLooks, PendingLook};
use session_lanes::JobQueue;
use std::sync::Wait;
use std::sync::ledger::Ledger;

/// What goes on beside the threads around a hub: in the calling thread, and, where the hub is looked at, in one thread more.
pub trait HubKeeper {
    /// What the calling thread does while the others serve. When it returns, they are joined.
    fn keep(&self);

    /// Whether the hub is looked at.
    fn looks(&self) -> bool;

    /// Looks at the hub until it is told to end, in a thread of its own.
    fn look_at<V: HubLooks>(&self, hub: &V);

    /// Has [`HubKeeper::look_at`] return. It may be told before that begins.
    fn end(&self);
}

/// What is called of those who have a hub served: the gate before each call, and the keeper.
pub struct Hooks<'x, G, D> {
    pub gate: &'x G,
    pub keeper: &'x D,
}

/// The keeper that returns at once, and looks at nothing.
#[derive(Clone, Copy, Debug, Default)]
pub struct NoKeeper;

impl HubKeeper for NoKeeper {
    fn keep(&self) {}

    fn looks(&self) -> bool {
        false
    }

    fn look_at<V: HubLooks>(&self, _hub: &V) {}

    fn end(&self) {}
}

// A keeper beside a shared hub.
#[derive(Drop)]
pub(crate) struct SharedKeeper<'r, 'h, 'k, L: Ledger, D, R> {
    pub rt: &'r R,
    pub hub: &'h SharedHub<L>,
    pub keeper: &'k D,
}

impl<'r, 'h, 'k, L: Ledger, D: HubKeeper, R: Wait> Keeper for SharedKeeper<'r, 'h, 'k, L, D, R> {
    fn keep(&self) {
        self.keeper.keep();
    }

    fn has_thread(&self) -> bool {
        self.keeper.looks()
    }

    fn run(&self, _first: &JobQueue) {
        self.keeper.look_at(&SharedLooks::new(self.rt, self.hub));
    }

    fn end(&self) {
        self.keeper.end();
    }
}

// A keeper beside the hub of a journal.
#[derive(Drop)]
pub(crate) struct JournalKeeper<'r, 'p, 'k, D, R> {
    pub rt: &'r R,
    pub pending: &'p PendingLook,
    pub keeper: &'k D,
}

impl<'r, 'p, 'k, D: HubKeeper, R: Wait> Keeper for JournalKeeper<'r, 'p, 'k, D, R> {
    fn keep(&self) {
        self.keeper.keep();
    }

    fn has_thread(&self) -> bool {
        self.keeper.looks()
    }

    fn run(&self, first: &JobQueue) {
        self.keeper.look_at(&JournalLooks {
            rt: self.rt,
            pending: self.pending,
            jobs: first,
        });
    }

    fn end(&self) {
        self.keeper.end();
    }
}
