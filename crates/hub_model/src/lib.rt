//! What the hub is defined to reply and to send, and the laws of these definitions.
//!
//! Railways send messages on the movement of wagons and ask questions (Regulation (EU) No
//! 1305/2014, Annex, 4.2.6, 4.2.7, 4.2.8, 4.2.11). From the list of their calls alone, oldest first,
//! the definitions in `specs/` say what each call is replied and which items each railway gets:
//!
//! - `HubState`: what is looked up after calls (journeys, plans, offers, first sends, outboxes,
//!   the fleet), the wagons that a message names, and a wagon's event of it;
//! - `Faults`: why a new message is refused; `Units`: where the intermodal units are;
//! - `Items`: what an accepted message makes for the railways;
//! - `Replies`: the reply to each call; `Updates`: what a call with its reply changes; `Histories`: what
//!   is known after a history, and the histories whose replies are these;
//! - `AcceptedMessages`: the accepted messages, and the lists that the look-ups are of;
//! - `Changes`, `Responsibility`, `Consent`, `Laws`, `Bounds`: what holds of them at every moment;
//! - `Senders`: which railway may send a message;
//! - `NeedToKnow`: who is shown records, and who gets items;
//! - `Overtaking`: the messages that may come in either order.
//!
//! A hub keeps tables and walks no list. That it answers the same is what its own contracts say, in
//! these words.
//!
//! There is no code here but three types: [`Entry`] is a call with its reply, [`Fault`] why a message
//! is refused and at which wagon, [`AddressedItem`] an item with the railway that it goes to. The
//! functions do nothing when they are called: the contract of each is a law of the definitions, for
//! all calls that can come.
#![tactic(auto)]

mod addressed_item;
mod entry;
mod fault;
mod laws;

pub use addressed_item::AddressedItem;
pub use entry::Entry;
pub use fault::Fault;
pub use laws::{
    estimates_fit, first_sends_stand_in_the_history, histories_are_runs,
    items_and_events_are_bounded, last_receiver_answers, lookups_are_the_lists,
    messages_are_taken_once, messages_may_overtake, offers_are_in_order,
    railways_see_what_concerns_them, responsibility_passes_by_consent, senders_may_send,
    wagons_are_on_their_legs,
};
