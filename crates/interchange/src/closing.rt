//! Closing an offer.
ghost use Rattle.std.specs.Prelude.{◌≡◌, ℕ, if◌then◌else◌, IsSome};
ghost use Rattle.std.specs.Option.{option_map};
ghost use Rattle.indexmap.specs.IndexMap.{spare};
ghost use Rattle.taf_codes.specs.declared.code.Railway.{Railway};
ghost use Rattle.replay_numbers.specs.Names.{same_name};
ghost use Rattle.interchange.specs.OfferTable.{entry_of, closed_entry, with_closed};

use crate::offer::OfferEntry;
use indexmap::IndexMap;
use seeded_state::SeededState;
use taf_codes::Railway;
use taf_messages::MessageNumber;

/// Closes the offer of a name.
pub(crate) fn close(
    table: &mut IndexMap<(Railway, MessageNumber), OfferEntry, SeededState>,
    by: Railway,
    number: MessageNumber,
)
    requires { IsSome (entry_of table.old.entries by number) }
    ensures entries { table.new.entries ≡ with_closed table.old.entries by number }
    ensures closed_entry { (also : Railway) (other : ℕ) → entry_of table.new.entries also other
        ≡ (if same_name by number also other
        then option_map closed_entry (entry_of table.old.entries also other)
        else entry_of table.old.entries also other) }
    ensures room { spare table.new ≡ spare table.old }
{
    match table.get_mut(&(by, number)) {
        Some(entry) => entry.is_open = false,
        None => unreachable!(),
    }
}
