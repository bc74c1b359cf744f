//! Tallies that are put together anew, some of them altered.

use hub_shared::{Tally, Told};
use std::alloc::Global;
use taf_codes::Memory;
use taf_messages::{Reply, copy_call, copy_reply};

/// The entry with this reply.
pub(crate) fn with_reply(told: &Told, reply: &Reply) -> Result<Told, Memory> {
    let call = copy_call(&told.call)?;
    let reply = copy_reply(reply)?;
    Ok(Told {
        position: told.position,
        call,
        reply,
    })
}

/// A tally of the entries with these letters: `a` is the first of the list, `b` the second, and so on. A capital letter
/// stands for the same entry with the reply of the first.
pub(crate) fn tally_of(alloc: Global, entries: &[&Told], letters: &str) -> Result<Tally, Memory> {
    let mut tally = Tally::new(alloc);
    for letter in letters.bytes() {
        let place = letter.to_ascii_lowercase().wrapping_sub(b'a') as usize;
        if place < entries.len() {
            let told = entries[place];
            let reply_of = if letter.is_ascii_uppercase() {
                entries[0]
            } else {
                told
            };
            tally.note(with_reply(told, &reply_of.reply)?)?;
        }
    }
    Ok(tally)
}
