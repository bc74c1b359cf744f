//! Takes up memory, so that a test can have a growth refused. Nothing but tests uses it.
//!
//! [`MemoryLimit::new`] takes the address space that can be had in large blocks, which are never touched, but for some room;
//! [`MemoryLimit::limit_to`] then takes the small blocks too, but for a budget of so many bytes. A growth that goes past the
//! budget is refused by the allocator itself, so the code under test runs as it always does. [`MemoryLimit::release`] gives the
//! small blocks back.
//!
//! A test goes through the budgets 0, 16, 32 and so on until its calls meet no refusal. Each call that was refused is made
//! again after `release`, and the answers are compared with those of a run with ample memory. So each growth is refused in
//! turn, whatever its size. The real allocator is what refuses: this works in a program that is built, as by `rt test`.
//!
//! In contracts a limit is how many blocks it holds of each kind. How much memory that leaves no contract says.
#![tactic(auto)]

mod weight;

pub use weight::MemoryLimit;
