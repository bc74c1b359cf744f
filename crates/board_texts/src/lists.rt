//! The lines of lists.
ghost use Rattle.std.specs.Prelude.{◌≡◌, map, List, IfOk};
ghost use Rattle.serde_json.specs.Written.{compact_text};
ghost use Rattle.call_lines.specs.Lines.{reply_text};
ghost use Rattle.reply_writer.specs.LegShapes.{fleet_legs_data};
ghost use Rattle.board_texts.specs.Lines.{IsFleetSeen, as_line, wimo_of, legs_of};

use crate::fleet::fleet_seen;
use crate::line::into_line;
use hub_answers::ShownWagon;
use hub_shared::{HubLooks, LookFault};
use reply_writer::{WagonLegs, write_fleet_legs, write_reply};
use std::alloc::Global;
use taf_codes::{Memory, Railway};
use taf_messages::{Listed, Record, Reply, Shared};

/// The WIMO records of the wagons that the railway may see of the first so many of the fleet, each without its events, as the reply
/// `records`.
pub fn wagons_line<V: HubLooks>(
    alloc: Global,
    hub: &V,
    by: Railway,
    wagons: usize,
) -> Result<Vec<u8>, LookFault>
    ensures { IfOk result (λ line. (seen : List ShownWagon) × IsFleetSeen by wagons seen
        × (line.items ≡ as_line (reply_text (Reply.Many (map wimo_of seen))))) }
{
    let seen = fleet_seen(alloc, hub, by, wagons)?;
    Ok(line_of_records(alloc, seen)?)
}

/// The legs of the wagons that the railway may see of the first so many of the fleet.
pub fn legs_line<V: HubLooks>(
    alloc: Global,
    hub: &V,
    by: Railway,
    wagons: usize,
) -> Result<Vec<u8>, LookFault>
    ensures { IfOk result (λ line. (seen : List ShownWagon) × IsFleetSeen by wagons seen
        × (line.items ≡ as_line (compact_text (fleet_legs_data (map legs_of seen))))) }
{
    let seen = fleet_seen(alloc, hub, by, wagons)?;
    Ok(line_of_legs(alloc, seen.as_slice())?)
}

/// The line of the records of these wagons, as the reply `records`.
pub fn line_of_records(alloc: Global, seen: Vec<ShownWagon>) -> Result<Vec<u8>, Memory>
    ensures { IfOk result (λ line.
        line.items ≡ as_line (reply_text (Reply.Many (map wimo_of seen.items)))) }
{
    let records = Listed::from_vec(records_of(alloc, seen)?);
    let reply = Reply::Many(Shared::new(alloc, records)?);
    into_line(write_reply(alloc, &reply)?)
}

// The records of these wagons.
fn records_of(alloc: Global, seen: Vec<ShownWagon>) -> Result<Vec<Record>, Memory>
    ensures { IfOk result (λ records. records.items ≡ map wimo_of seen.items) }
{
    let mut records = Vec::with_capacity(alloc, seen.len())?;
    for wagon in seen {
        let ShownWagon { wimo, .. } = wagon;
        records.push(wimo)?;
    }
    Ok(records)
}

/// The line of the legs of these wagons.
pub fn line_of_legs(alloc: Global, seen: &[ShownWagon]) -> Result<Vec<u8>, Memory>
    ensures { IfOk result (λ line.
        line.items ≡ as_line (compact_text (fleet_legs_data (map legs_of seen.now)))) }
{
    let mut legs = Vec::with_capacity(alloc, seen.len())?;
    for wagon in seen {
        legs.push(wagon_legs(wagon))?;
    }
    into_line(write_fleet_legs(alloc, legs.as_slice())?)
}

// The legs of a wagon.
pub(crate) fn wagon_legs(wagon: &ShownWagon) -> WagonLegs<'_>
    ensures { result ≡ legs_of wagon.now }
{
    WagonLegs {
        wagon: wagon.wimo.wagon,
        legs: wagon.legs.as_slice(),
    }
}
