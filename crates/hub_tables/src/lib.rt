//! The tables by which the hub looks things up, to check a message and to answer a question: wagons with their journeys
//! and estimates (4.2.6, 4.2.7), plans by consignment and by intermodal unit (4.2.11), and offers at interchange (4.2.8).
//!
//! In contracts [`Tables`] is the record of its entries, `TableEntries`, and `table_state` is what is known by them: a `HubState` of
//! the crate `hub_model` but for first sends and outboxes, which are kept elsewhere. Each look-up answers what the model's state
//! says.
//!
//! [`Tables::take`] asks first what may be wrong with a new message as a whole. A plan is then asked for a wagon that is busy, and
//! for an intermodal unit that is. With any other message each wagon that it names is checked in the message's order, and its journey
//! goes on at once. The first check that fails is the answer, with the wagon at which it failed, and the journeys that went on
//! before it are taken back. So a message without a fault has gone on with all its journeys, and may be accepted.
//!
//! | message | as a whole | each wagon |
//! |---|---|---|
//! | plan | its consignment is new | it has no journey without delivery; then its units have none |
//! | answer | the offer is known, asks the sender, is open, and has the answered wagons | no estimate passes the calendar |
//! | withdrawal | the offer is known and open | |
//! | any other | | it is known, its journey admits the event, no estimate passes the calendar |
//!
//! The wagons of an answer or a withdrawal are offered, so their journeys admit it, and of these two only an answer can make an
//! estimate pass the calendar. So one check serves every message that goes on with journeys (`both_asked` in `proofs/ContinuationLemmas.antt`).
//! It looks each wagon up once, and makes its event once; the event is added at the position where the wagon was found. The wagons
//! of a message all differ, so the check of one does not depend on the journeys that have gone on before it.
//!
//! Not every event is asked whether an estimate passes the calendar. That none does once a wagon has passed its checks is what the
//! caller knows (`KeepsCalendar`): for a legal history it is a law of `hub_model`.
//!
//! A list that the caller lends gets a [`Change`] for each wagon whose journey went on: its position, and what was kept beside its
//! events before. So the items of the message are made by what was kept before and by what the tables say now. Then
//! [`Tables::complete`] does what is left: it begins the journeys of a plan, which is then found by its consignment and by its units,
//! and opens or closes an offer. What is known then is what `after_acceptance` of `hub_model` says. Where the message cannot be
//! accepted after all, since memory is refused, [`Tables::take_back`] takes the changes back, and what is known is what was known
//! before (`known_before`). It takes no memory.
//!
//! [`Tables::take`] and [`Tables::complete`] may be refused memory. In a plan and in an offer all that may be refused comes first:
//! copies, and room in each table. Then come steps that cannot fail. Where a journey cannot go on for want of memory, those that
//! went on before it are taken back. So where one of the two answers [`Memory`](taf_codes::Memory), all is as it was before the call.
#![tactic(auto)]

mod accept;
mod changes;
mod going_on;
mod tables;
mod taking;
mod unit_checks;
mod units;
mod wagon;
mod wagon_checks;
mod wagon_events;
mod whole;

pub use changes::Change;
pub use tables::Tables;
pub use units::units_in;
pub use wagon::{Wagon, WagonState};
pub use wagon_events::has;
