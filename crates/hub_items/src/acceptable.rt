//! A message whose items are made.
use hub_tables::{Change, Tables};
use taf_messages::Message;

/// A message that may be accepted, with the tables, where the journeys of its wagons have gone on by it, and the changes of these.
#[derive(Clone, Copy)]
pub(crate) struct Acceptable<'a> {
    pub tables: &'a Tables,
    pub message: &'a Message,
    pub changes: &'a [Change],
}
