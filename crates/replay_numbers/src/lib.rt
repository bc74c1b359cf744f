//! The messages that were sent, by their names.
//!
//! The name of a message is its sender and the number that the sender gave it. A railway that got no answer sends its message
//! once more under the same name, and by [`Seen`] the hub finds the position at which the name was sent first. So a look-up
//! takes the same time however long the history is.
//!
//! Railways mostly count their messages on, so the positions of a railway lie in a row that begins at its first number. A
//! number that comes before, or is far behind the row's end, lies aside.
//!
//! In contracts a value is known by `position_of`, the position that was noted for a name, and by `has_room`, whether a name
//! can be noted without memory. What must not fail is done in two steps: [`Seen::find_or_make_room`] first, which may be refused
//! memory, and [`Seen::note_reserved`], which takes none.
#![tactic(auto)]

mod railways;
mod seen;
mod sent;

pub use seen::Seen;
