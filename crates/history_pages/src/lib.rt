//! A list in pages, which keeps the entries of a history.
//!
//! [`Pages`] holds up to 2^62 entries, in the order in which they were pushed, 1,024 to a page. A push never moves an entry
//! that stands: a page is made with all its places, and where there are more pages, only their headers move. So a push
//! takes no longer when the list is long.
//!
//! In contracts a value is its list of entries and `spare`, the number of pushes that can be made without memory.
//! [`Pages::push`] hands the value back where memory was refused. What must not fail is done in two steps:
//! [`Pages::reserve`] first, which may be refused, and [`Pages::push_reserved`], which may not.
#![tactic(auto)]

mod pages;

pub use pages::Pages;
