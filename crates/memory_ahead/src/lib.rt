//! Memory that the allocator gets from the system ahead.
//!
//! The allocator of a thread asks the system for a few bytes at a time, a page or less, and each time the system stops the threads
//! of the program to give them. [`ask_ahead`] has it get many pages at once, which it keeps for what is taken next. Called once for
//! some thousand messages, it spares a thread most of these calls. What a program computes does not depend on it.
#![tactic(auto)]

use std::alloc::{AllocError, Global};

// So many bytes are asked for. The allocator gives the first ones back to the system, and then keeps as many for later: at its end
// it gives back only what is more than twice the greatest block that was given back before.
const AHEAD: usize = 2_097_152;

/// Takes memory and gives it back, so that the allocator gets it from the system at once and not page by page. It does nothing
/// where memory is refused.
pub fn ask_ahead(alloc: Global) {
    let room: Result<Vec<u8>, AllocError> = Vec::with_capacity(alloc, AHEAD);
    drop(room);
}
