//! The calls that a new hub is given.
ghost use Rattle.std.specs.Prelude.{◌≡◌, [], ◌∷◌, ◌++◌, All, OnOk, IfOk};
ghost use Rattle.carry_over.specs.Names.{messages_of, stays};
ghost use Rattle.closed_trips.specs.ClosedNames.{names_but};
ghost use Rattle.journaled_hub.specs.HistoryLines.{calls_of};
ghost use Rattle.journaled_hub.specs.JournaledHubs.{history_of, IsJournaled, IsOnDisk};
ghost use Rattle.carried_hub.specs.Carried.{AddAcknowledgements};

use crate::fault::CarryFault;
use crate::items::unacknowledged_count;
use closed_trips::ClosedNames;
use hub_core::{Hub, HubFault};
use journal::RawFile;
use journaled_hub::JournaledHub;
use taf_codes::Railway;
use taf_messages::{Call, ItemNumber, copy_call};

// After so many calls they are put on the disk together.
const BATCH: usize = 4096;

/// Gives a hub the messages of an old one that stay, in their order.
pub(crate) fn give_messages<F: RawFile>(
    old: &Hub,
    names: &ClosedNames,
    next: &mut JournaledHub<F>,
) -> Result<(), CarryFault>
    requires journaled { IsJournaled next.old }
    requires new { history_of next.old ≡ [] }
    ensures journaled { IsJournaled next.new }
    ensures given { OnOk result (calls_of (history_of next.new)
        ≡ messages_of (names_but names.now) (calls_of old.now)) }
{
    for i in 0..old.len() {
        let Some(entry) = old.entry(i) else {
            unreachable!();
        };
        give_if_it_stays(&entry.call, names, next)?;
    }
    Ok(())
}

// Gives a hub a call if it is a message that stays.
fn give_if_it_stays<F: RawFile>(
    call: &Call,
    names: &ClosedNames,
    next: &mut JournaledHub<F>,
) -> Result<(), CarryFault>
    requires journaled { IsJournaled next.old }
    ensures journaled { IsJournaled next.new }
    ensures given { OnOk result (calls_of (history_of next.new)
        ≡ calls_of (history_of next.old) ++ messages_of (names_but names.now) (call.now ∷ [])) }
{
    if stays(call, names) {
        let Ok(copy) = copy_call(call) else {
            return Err(CarryFault::Memory);
        };
        give(copy, next)
    } else {
        Ok(())
    }
}

// Whether the call is a message that stays.
fn stays(call: &Call, names: &ClosedNames) -> bool
    ensures { result ≡ stays (names_but names.now) call.now }
{
    match call {
        Call::Send(message) => names.keeps_message(message.get().by(), message.get().no()),
        _ => false,
    }
}

/// Gives a hub, for each of these railways, an acknowledgement of its items but the last ones, as many as it has not acknowledged in
/// the old hub.
pub(crate) fn give_acknowledgements<F: RawFile>(
    old: &Hub,
    railways: &[Railway],
    next: &mut JournaledHub<F>,
) -> Result<(), CarryFault>
    requires journaled { IsJournaled next.old }
    ensures journaled { IsJournaled next.new }
    ensures given { OnOk result (AddAcknowledgements (calls_of (history_of next.old))
        (calls_of (history_of next.new))) }
{
    for railway in railways {
        give_acknowledgement(old, *railway, next)?;
    }
    Ok(())
}

fn give_acknowledgement<F: RawFile>(
    old: &Hub,
    railway: Railway,
    next: &mut JournaledHub<F>,
) -> Result<(), CarryFault>
    requires journaled { IsJournaled next.old }
    ensures journaled { IsJournaled next.new }
    ensures given { OnOk result (AddAcknowledgements (calls_of (history_of next.old))
        (calls_of (history_of next.new))) }
{
    let waiting = unacknowledged_count(old, railway) as u64;
    let count = next.hub().item_count(railway).saturating_sub(waiting);
    match ItemNumber::new(count) {
        Some(item) if count > 0 => give(Call::Ack { by: railway, item }, next),
        _ => Ok(()),
    }
}

// Gives a hub a call. Now and then its calls are put on the disk.
fn give<F: RawFile>(call: Call, next: &mut JournaledHub<F>) -> Result<(), CarryFault>
    requires journaled { IsJournaled next.old }
    ensures journaled { IsJournaled next.new }
    ensures given { OnOk result (calls_of (history_of next.new)
        ≡ calls_of (history_of next.old) ++ call ∷ []) }
{
    match next.apply(call) {
        Ok(_replied) => {}
        Err(HubFault::Full(_call)) => return Err(CarryFault::Full),
        Err(HubFault::Memory) => return Err(CarryFault::Memory),
    }
    if next.len() % BATCH == 0 {
        put_on_disk(next)?;
    }
    Ok(())
}

/// Puts the calls of a hub on the disk.
pub(crate) fn put_on_disk<F: RawFile>(next: &mut JournaledHub<F>) -> Result<(), CarryFault>
    requires journaled { IsJournaled next.old }
    ensures journaled { IsJournaled next.new }
    ensures history { history_of next.new ≡ history_of next.old }
    ensures on_disk { OnOk result (IsOnDisk next.new) }
{
    match next.sync() {
        Ok(()) => Ok(()),
        Err(_failed) => Err(CarryFault::Failed),
    }
}
