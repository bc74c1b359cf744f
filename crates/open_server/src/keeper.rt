//! What goes on beside the connection handlers: the calling thread reads the input, and the board looks at the hub.
use crate::listening::Listening;
use accept_queue::end_service;
use hub_service::HubKeeper;
use hub_shared::HubLooks;
use std::io::{ErrorKind, Read};
use std::rt::Clock;
use std::sync::{Mutex, Wait};

// Reads an input to its end, and then ends the service. The board looks at the hub meanwhile.
#[derive(Drop)]
pub(crate) struct InputKeeper<'a, I, R> {
    rt: &'a R,
    listening: &'a Listening,
    input: Mutex<I>,
}

impl<'a, I, R> InputKeeper<'a, I, R> {
    pub(crate) fn new(rt: &'a R, listening: &'a Listening, input: I) -> InputKeeper<'a, I, R> {
        InputKeeper {
            rt,
            listening,
            input: Mutex::new(input),
        }
    }
}

impl<'a, I: Read, R: Wait + Clock> HubKeeper for InputKeeper<'a, I, R> {
    fn keep(&self) {
        read_to_end(&mut *self.input.lock(self.rt));
        end_service(self.rt, &self.listening.queue, &self.listening.control);
    }

    fn looks(&self) -> bool {
        self.listening.board.is_some()
    }

    fn look_at<V: HubLooks>(&self, hub: &V) {
        if let Some(board) = &self.listening.board {
            let Listening { keys, queue, .. } = self.listening;
            board.serve(self.rt, hub, keys.as_ref(), Some(queue));
        }
    }

    fn end(&self) {
        if let Some(board) = &self.listening.board {
            board.end();
        }
    }
}

// Reads until the end, or until a read fails.
fn read_to_end<I: Read>(input: &mut I) {
    let mut bytes = [0; 512];
    for _ in 0..u64::MAX {
        match input.read(&mut bytes) {
            Ok(0) => return,
            Ok(_) => {}
            Err(error) if error.kind() == ErrorKind::Interrupted => {}
            Err(_) => return,
        }
    }
}
