//! The items that wait for their railways.
//!
//! Each railway has a box. The items that are pushed into it are numbered from 1 and stay until the railway acknowledges
//! them: a fetch shows the first ones and changes nothing, and an acknowledgement of a number drops all items up to it.
//! So a box holds only what was not acknowledged, and each item is dropped once. A number past the last item is ahead
//! ([`AckAhead`]) and changes nothing.
//!
//! A box is a ring, in which items are added at the end and dropped at the front without memory while there is room.
//!
//! In contracts [`Outboxes`] is the list of its boxes. Of each, `outbox_state_of` gives what is kept for the railway, the
//! acknowledged number and the bodies of the items after it, and `room_for` how many items more have room
//! (`specs/OutboxStates.antt`). [`boxes_keep_the_lists`] says that what is kept is all that one needs of the whole list of what a
//! railway ever got (`specs/Keeping.antt`).
//!
//! What must not fail is done in two steps: [`Outboxes::make_room`] first, which may be refused memory, and
//! [`Outboxes::put`], which may not.
#![tactic(auto)]

mod boxes;
mod fault;
mod laws;
mod outbox;
mod outboxes;

pub use fault::AckAhead;
pub use laws::boxes_keep_the_lists;
pub use outboxes::Outboxes;
