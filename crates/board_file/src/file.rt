//! The file.
ghost use Rattle.std.specs.Prelude.{◌≡◌, IfOk};
ghost use Rattle.hub_model.specs.Histories.{state_of};
ghost use Rattle.board_file.specs.Files.{file_of, file_with};

use crate::element::add_element;
use crate::seen::seen_by;
use board_page::{HEAD, TAIL};
use board_texts::{line_of_legs, line_of_records};
use hub_answers::ShownWagon;
use hub_core::Hub;
use std::alloc::Global;
use taf_codes::{Memory, Railway};

/// The page with the wagons of the hub inside: those that the railway may see, or with no railway all that were planned. Want of memory
/// is the only error.
pub fn board_file(alloc: Global, hub: &Hub, by: Option<Railway>) -> Result<Vec<u8>, Memory>
    ensures { IfOk result (λ file. file.items ≡ file_of (state_of hub.now) by) }
{
    let seen = seen_by(alloc, hub, &by)?;
    file_with(alloc, HEAD, TAIL, &by, seen)
}

// The two parts of a page, with these wagons between them.
fn file_with(
    alloc: Global,
    head: &str,
    tail: &str,
    by: &Option<Railway>,
    seen: Vec<ShownWagon>,
) -> Result<Vec<u8>, Memory>
    ensures { IfOk result (λ file. file.items ≡ file_with head.now tail.now by.now seen.items) }
{
    let legs = line_of_legs(alloc, seen.as_slice())?;
    let records = line_of_records(alloc, seen)?;
    let mut file = Vec::new(alloc);
    file.extend_from_slice(head.as_bytes())?;
    add_element(&mut file, "legs", by, legs.as_slice())?;
    add_element(&mut file, "records", by, records.as_slice())?;
    file.extend_from_slice(tail.as_bytes())?;
    Ok(file)
}
