//! The thread that accepts connections.
use crate::listening::Listening;
use accept_queue::{accept_connections, end_service};
use hub_threads::Beside;
use std::rt::Clock;
use std::sync::Wait;

// Accepts connections in a thread beside the service.
#[derive(Drop)]
pub(crate) struct AcceptThread<'a, R> {
    pub rt: &'a R,
    pub listening: &'a Listening,
}

impl<'a, R: Wait + Clock> Beside for AcceptThread<'a, R> {
    fn is_wanted(&self) -> bool {
        true
    }

    fn run(&self) {
        let Listening {
            listener,
            control,
            queue,
            ..
        } = self.listening;
        accept_connections(self.rt, listener, control, queue);
    }

    // Where the service came to nothing it is ended here, so that the thread ends.
    fn end(&self) {
        end_service(self.rt, &self.listening.queue, &self.listening.control);
    }
}
