//! Tests of `board_answers`, `board_file` and `board_texts`, over memory.
//!
//! The board of a hub that has taken the calls of two railways is asked for each resource, and for what is refused. What is expected are
//! the bytes of the answers: of a wagon those that its railway's question gets, of a list the same records without events. Each growth of
//! memory is refused in turn.

mod asked;
mod file;
mod lists;
mod metrics;
mod refused;
mod wagons;
