//! Carrying over.
ghost use Rattle.std.specs.Prelude.{◌≡◌, [], ◌∷◌, OnOk};
ghost use Rattle.closed_trips.specs.ClosedNames.{names_but};
ghost use Rattle.closed_trips.specs.Closed.{AreClosed};
ghost use Rattle.journaled_hub.specs.HistoryLines.{calls_of};
ghost use Rattle.journaled_hub.specs.JournaledHubs.{history_of, IsJournaled, IsOnDisk};
ghost use Rattle.carried_hub.specs.Carried.{GoesOnWith};

use crate::calls::{give_acknowledgements, give_messages, put_on_disk};
use crate::fault::CarryFault;
use crate::items::have_same_items;
use carry_over::{others_can_be_left_behind, others_do_not_matter};
use closed_trips::{ClosedNames, are_closed};
use hub_core::Hub;
use journal::RawFile;
use journaled_hub::JournaledHub;

/// Has a new hub go on with all trips of an old one but those of these names, which are closed. Its calls are in its journal, on the
/// disk.
///
/// What is left behind is given up: its names may be used again, and a repeat of its messages is a new message. Items are numbered
/// anew, from 1 for each railway. After an `Err` the new hub and its journal are good for nothing.
pub fn carry_over<F: RawFile>(
    old: &Hub,
    names: &ClosedNames,
    next: &mut JournaledHub<F>,
) -> Result<(), CarryFault>
    requires new { history_of next.old ≡ [] }
    requires journaled { IsJournaled next.old }
    ensures closed { OnOk result (AreClosed (names_but names.now) (calls_of old.now)) }
    ensures goes_on { OnOk result (GoesOnWith (names_but names.now) (calls_of old.now)
        (calls_of (history_of next.new))) }
    ensures on_disk { OnOk result (IsOnDisk next.new) }
{
    others_can_be_left_behind();
    others_do_not_matter();
    if !are_closed(old, names)? {
        return Err(CarryFault::NotClosed);
    }
    give_messages(old, names, next)?;
    let railways = old.railways()?;
    give_acknowledgements(old, &railways, next)?;
    if !have_same_items(old, next.hub())? {
        return Err(CarryFault::OtherItems);
    }
    old.history_is_legal();
    next.history_is_legal();
    put_on_disk(next)
}
