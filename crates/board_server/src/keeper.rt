//! The board beside a shift.
use crate::server::BoardServer;
use hub_serving::HubKeeper;
use hub_shared::HubLooks;
use std::sync::Wait;
use std::time::Clock;

/// The keeper of a shift that has a board, or none.
#[derive(Drop)]
pub struct BoardKeeper<'a, R> {
    pub rt: &'a R,
    pub board: Option<&'a BoardServer>,
}

impl<'a, R: Wait + Clock> HubKeeper for BoardKeeper<'a, R> {
    fn keep(&self) {}

    fn looks(&self) -> bool {
        self.board.is_some()
    }

    fn look_at<V: HubLooks>(&self, hub: &V) {
        if let Some(board) = self.board {
            board.serve(self.rt, hub, None, None);
        }
    }

    fn end(&self) {
        if let Some(board) = self.board {
            board.end();
        }
    }
}
