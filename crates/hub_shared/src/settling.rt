//! Whether a history is told by the tallies of its sessions.
ghost use Rattle.std.specs.Prelude.{◌≡◌, ◌+◌, ◌<◌, ◌≤◌, ◌↔◌, length, IsTrue, IfOk, IfErr, OnOk};
ghost use Rattle.hub_shared.specs.Settling.{entry_of, StandsIn, IsTold, IsSettleFault};
ghost use Rattle.hub_shared.specs.Marks.{MarksTally, IsTallyFault};

use hub_core::Hub;
use hub_model::Entry;
use std::alloc::Global;
use taf_messages::{same_call, same_reply};
use tallies::{Tally, Told};
use thiserror::Error;

/// That the history is told by the tallies.
#[derive(Clone, Copy, Debug, PartialEq, Eq)]
pub struct Settled {
    /// How many calls the history has, beside those that were there before: at most 1,000,000.
    pub calls: u64,
}

/// Why a history is not told by the tallies. `session` is a tally's place in the list, and `index` an entry's place in the
/// tally, both from 0.
#[derive(Clone, Copy, Debug, PartialEq, Eq, Error)]
pub enum SettleFault {
    /// The tallies together have another number of entries than the history, beside those that were there before.
    #[error("the history has {history} new entries and the tallies {told}")]
    CountDiffers { history: u64, told: u128 },
    /// The history has no such call with such a reply at the position of this entry.
    #[error("entry {index} of session {session} is not in the history")]
    Foreign { session: u64, index: u64 },
    /// The history has the call with the reply at the position of this entry, among those that were there before.
    #[error("entry {index} of session {session} was in the history before the shift")]
    Earlier { session: u64, index: u64 },
    /// More than one entry has this position.
    #[error("position {at} is told twice")]
    Twice { at: u64 },
    /// The position of this entry is not greater than that of the one before it.
    #[error("entry {index} of session {session} is out of order")]
    OutOfOrder { session: u64, index: u64 },
    /// Memory was refused. Nothing is known of the history.
    #[error("memory was refused")]
    Memory,
}

/// Compares a history with the tallies of the sessions that made its calls. `earlier` is how many entries it had before these
/// sessions, which no tally is to tell.
///
/// Ok where each entry since is told once, with its call and reply, nothing else is told, and positions rise within each tally. Of
/// several faults it gives any one. It takes a byte of memory for each entry since, and one step for each entry of a tally.
pub fn settle(
    alloc: Global,
    hub: &Hub,
    earlier: usize,
    tallies: &[Tally],
) -> Result<Settled, SettleFault>
    requires within { earlier ≤ length hub.now }
    ensures calls { IfOk result (λ s. s.calls + earlier ≡ length hub.now) }
    ensures ok { OnOk result (IsTold hub.now earlier tallies.now) }
    ensures err { IfErr result (λ f. IsSettleFault f hub.now earlier tallies.now) }
    ensures told { IsTold hub.now earlier tallies.now → IfErr result (λ f. f ≡ SettleFault.Memory) }
{
    let since = hub.len() - earlier;
    let Ok(mut seen) = Vec::from_elem(alloc, false, since) else {
        return Err(SettleFault::Memory);
    };
    let seen = seen.as_mut_slice();
    let history = since as u64;
    let mut told = 0;
    for session in 0..tallies.len() {
        let entries = tallies[session].entries();
        check_tally(hub, earlier, seen, session as u64, entries)?;
        told += entries.len() as u64;
    }
    if told != history {
        let told = u128::from(told);
        return Err(SettleFault::CountDiffers { history, told });
    }
    Ok(Settled { calls: history })
}

// Checks one tally, and marks its positions. There is a mark for each entry since.
fn check_tally(
    hub: &Hub,
    earlier: usize,
    seen: &mut [bool],
    session: u64,
    entries: &[Told],
) -> Result<(), SettleFault>
    requires { length seen.old + earlier ≡ length hub.now }
    ensures ok { OnOk result (MarksTally hub.now earlier seen.old seen.new entries.now) }
    ensures err { IfErr result (λ f. IsTallyFault f session hub.now earlier seen.old entries.now) }
{
    for i in 0..entries.len() {
        let index = i as u64;
        let told = &entries[i];
        let position = told.position;
        if !stands_in(hub, told) {
            return Err(SettleFault::Foreign { session, index });
        }
        if position < earlier as u64 {
            return Err(SettleFault::Earlier { session, index });
        }
        if i > 0 && position <= entries[i - 1].position {
            return Err(SettleFault::OutOfOrder { session, index });
        }
        let place = position as usize - earlier;
        if seen[place] {
            return Err(SettleFault::Twice { at: position });
        }
        seen[place] = true;
    }
    Ok(())
}

// Whether the history has this call with this reply at this position.
fn stands_in(hub: &Hub, told: &Told) -> bool
    ensures exactly { IsTrue result ↔ StandsIn hub.now told.now }
    ensures within { IsTrue result → told.now.position < length hub.now }
{
    match hub.entry(told.position as usize) {
        Some(entry) => is_entry_of(entry, told),
        None => false,
    }
}

// Whether the entry has this call with this reply.
fn is_entry_of(entry: &Entry, told: &Told) -> bool
    ensures { IsTrue result ↔ (entry.now ≡ entry_of told.now) }
{
    same_call(&entry.call, &told.call) && same_reply(&entry.reply, &told.reply)
}
