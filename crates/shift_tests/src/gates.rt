//! Gates that hold jobs.

use crate::streams::Written;
use hub_shifts::Gate;
use inbox::Job;
use std::alloc::Global;
use std::sync::atomic::{AtomicBool, Ordering};
use std::thread;

// How often a gate looks at most.
const TURNS: u32 = 1_000_000;

// Waits until this is set. Whether it came in time.
fn wait_for(flag: &AtomicBool) -> bool {
    for _ in 0..TURNS {
        if flag.load(Ordering::SeqCst) {
            return true;
        }
        thread::yield_now();
    }
    false
}

// Waits until so many lines are written. Whether they came in time.
fn wait_for_lines(written: &Written, lines: u64) -> bool {
    for _ in 0..TURNS {
        if written.lines() >= lines {
            return true;
        }
        thread::yield_now();
    }
    false
}

/// Holds the first job of each of two sessions until the other's has come too, and then that of the first session until the
/// reply to the other's was written. It has what the writers of both took.
#[derive(Drop)]
pub(crate) struct Meeting {
    came: [AtomicBool; 2],
    written: [Written; 2],
    is_late: AtomicBool,
}

impl Meeting {
    pub(crate) fn new(alloc: Global) -> Meeting {
        Meeting {
            came: [AtomicBool::new(false), AtomicBool::new(false)],
            written: [Written::new(alloc), Written::new(alloc)],
            is_late: AtomicBool::new(false),
        }
    }

    /// What the writers of both sessions took.
    pub(crate) fn written(&self) -> &[Written; 2] {
        &self.written
    }

    /// Whether a job waited in vain.
    pub(crate) fn is_late(&self) -> bool {
        self.is_late.load(Ordering::SeqCst)
    }

    // Holds the first job of session 0 or 1. Whether what it waits for came.
    fn hold(&self, session: usize) -> bool {
        if session == 0 {
            self.came[0].store(true, Ordering::SeqCst);
            wait_for(&self.came[1]) && wait_for_lines(&self.written[1], 2)
        } else {
            self.came[1].store(true, Ordering::SeqCst);
            wait_for(&self.came[0])
        }
    }
}

impl Gate for Meeting {
    fn before(&self, job: &Job) {
        if job.index == 0 && !self.hold(job.session as usize) {
            self.is_late.store(true, Ordering::SeqCst);
        }
    }
}

/// Holds the first job of session 0 until another of it comes, which none is to do.
#[derive(Drop)]
pub(crate) struct Holding {
    is_through: AtomicBool,
    is_reached: AtomicBool,
}

impl Holding {
    pub(crate) fn new() -> Holding {
        Holding {
            is_through: AtomicBool::new(false),
            is_reached: AtomicBool::new(false),
        }
    }

    /// Whether the first job came and was let through before any other came.
    pub(crate) fn is_in_order(&self) -> bool {
        self.is_through.load(Ordering::SeqCst) && !self.is_reached.load(Ordering::SeqCst)
    }
}

impl Gate for Holding {
    fn before(&self, job: &Job) {
        if job.session != 0 {
            return;
        }
        if job.index == 0 {
            wait_for(&self.is_reached);
            self.is_through.store(true, Ordering::SeqCst);
        } else if !self.is_through.load(Ordering::SeqCst) {
            self.is_reached.store(true, Ordering::SeqCst);
        }
    }
}
