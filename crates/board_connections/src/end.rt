//! The end of serving.
use mio::Waker;
use std::sync::atomic::{AtomicBool, Ordering};

/// Ends [`BoardListener::serve`](crate::BoardListener::serve), from any thread.
#[derive(Drop)]
pub struct ServingEnd {
    waker: Waker,
    is_told: AtomicBool,
}

impl ServingEnd {
    pub(crate) fn new(waker: Waker) -> ServingEnd {
        ServingEnd {
            waker,
            is_told: AtomicBool::new(false),
        }
    }

    /// Tells the serving thread to accept nothing more, to close its connections and to return. It does so at once, or within a second
    /// where the system refuses to wake it. Called again it does the same.
    pub fn end(&self) {
        self.is_told.store(true, Ordering::SeqCst);
        let _ = self.waker.wake();
    }

    pub(crate) fn is_told(&self) -> bool {
        self.is_told.load(Ordering::SeqCst)
    }
}
