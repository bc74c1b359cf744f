//! Why calls of a hub were refused.
ghost use Rattle.std.specs.Prelude.{◌≡◌, ◌<◌, length, slice_get, Some, IfOk};
ghost use Rattle.hub_model.specs.declared.entry.Entry.{Entry};
ghost use Rattle.hub_shared.specs.Looks.{AreRefusals, AreRefusalsAt, why_of};

use hub_core::Hub;
use std::alloc::Global;
use taf_codes::Memory;
use taf_messages::{Reply, Why};

/// Why calls were refused, those that were, of at most so many calls of the history, from this position on, which is counted from 0.
/// Want of memory is the only error.
pub fn look_at_refusals(
    alloc: Global,
    hub: &Hub,
    from: usize,
    most: usize,
) -> Result<Vec<Why>, Memory>
    ensures at { IfOk result (λ whys. AreRefusalsAt hub.now from most whys.items) }
    ensures run { IfOk result (λ whys. AreRefusals from most whys.items) }
{
    hub.history_is_legal();
    refusals_of(alloc, hub, from, most)
}

// The same of this history.
fn refusals_of(alloc: Global, hub: &Hub, from: usize, most: usize) -> Result<Vec<Why>, Memory>
    ensures { IfOk result (λ whys. AreRefusalsAt hub.now from most whys.items) }
{
    let count = hub.len().saturating_sub(from).min(most);
    let mut whys = Vec::new(alloc);
    for i in 0..count {
        if let Some(why) = why_at(hub, from + i) {
            whys.push(why)?;
        }
    }
    Ok(whys)
}

// Why the call at this position was refused, if it was.
fn why_at(hub: &Hub, i: usize) -> Option<Why>
    requires { i < length hub.now }
    ensures { (e : Entry) × (slice_get hub.now i ≡ Some e) × (result ≡ why_of e.reply) }
{
    match hub.entry(i) {
        Some(entry) => why_of(&entry.reply),
        None => unreachable!(),
    }
}

// Why a call is refused by this reply, if it is.
fn why_of(reply: &Reply) -> Option<Why>
    ensures { result ≡ why_of reply.now }
{
    match reply {
        Reply::Refused(refusal) => Some(refusal.get().why),
        _ => None,
    }
}
