//! Tests of the stores: the crates `history_pages`, `replay_numbers`, `outbox` and `interchange`, and of the `memory_limit` that
//! takes up memory.
//!
//! What is kept is found again under its number or name. Each growth of memory is refused in turn: what was kept before
//! stays, and the call that is made again succeeds.

mod budgets;
mod first_sends;
mod given;
mod items;
mod items_refused;
mod offers;
mod pages;
