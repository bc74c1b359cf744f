//! The table of the boxes.
ghost use Rattle.std.specs.Prelude.{◌≡◌, ◌+◌, ◌<◌, ◌≤◌, ◌^◌, [], ◌∷◌, true, false, max, if◌then◌else◌, bytes_eq, is_some, IfOk, OnOk, OnErr, IfSome};
ghost use Rattle.std.specs.Map.{keys_of};
ghost use Rattle.taf_codes.specs.declared.code.Railway.{Railway};
ghost use Rattle.outbox.specs.OutboxStates.{IsAt, outbox_state_of, has_box, room_for, last_of, with_items, acknowledged_up_to};

use crate::outbox::Outbox;
use indexmap::IndexMap;
use railway_places::RailwayPlaces;
use seeded_state::SeededState;
use taf_codes::{Memory, Railway};
use taf_messages::ItemBody;

pub(crate) type Boxes = IndexMap<Railway, Outbox, SeededState>;

/// Makes room for so many items in the box of a railway, and the box where there is none. The box is looked for at its place among
/// these first.
pub(crate) fn make_room(
    boxes: &mut Boxes,
    places: &mut RailwayPlaces,
    railway: Railway,
    count: usize,
) -> Result<(), Memory>
    ensures kept { (also : Railway) → outbox_state_of boxes.new.entries also
        ≡ outbox_state_of boxes.old.entries also }
    ensures stay_open { (also : Railway) → has_box boxes.old.entries also ≡ true
        → has_box boxes.new.entries also ≡ true }
    ensures stay_roomy { (also : Railway) → room_for boxes.old.entries also
        ≤ room_for boxes.new.entries also }
    ensures open { OnOk result (has_box boxes.new.entries railway ≡ true) }
    ensures room { OnOk result (count ≤ room_for boxes.new.entries railway) }
    ensures few { OnOk result (last_of (outbox_state_of boxes.new.entries railway) < 2 ^ 62) }
    ensures err { OnErr result ((also : Railway) → has_box boxes.new.entries also
        ≡ has_box boxes.old.entries also) }
{
    match find_place(boxes, places, railway) {
        Some(place) => make_room_at(boxes, place, railway, count),
        None => open(boxes, railway, count),
    }
}

// The place of a railway's box among the boxes. It is looked for at its place among these first, and where another box is there,
// it is looked up and its place is noted.
#[inline(always)]
fn find_place(boxes: &Boxes, places: &mut RailwayPlaces, railway: Railway) -> Option<usize>
    ensures found { IfSome result (λ place. IsAt boxes.now.entries place railway) }
    ensures has { is_some result ≡ has_box boxes.now.entries railway }
{
    let place = places.place(railway);
    if is_at(boxes, place, railway) {
        return Some(place);
    }
    let found = place_of(boxes, railway)?;
    places.note(railway, found);
    Some(found)
}

// The place of a railway's box among the boxes, by a look-up.
fn place_of(boxes: &Boxes, railway: Railway) -> Option<usize>
    ensures found { IfSome result (λ place. IsAt boxes.now.entries place railway) }
    ensures has { is_some result ≡ has_box boxes.now.entries railway }
{
    match boxes.get_full(&railway) {
        Some((place, _, _)) => Some(place),
        None => None,
    }
}

// Makes room in the box at a place, which is that of the railway.
#[tactic(auto, using(crate::proofs::KeyLemmas::same_box))]
fn make_room_at(
    boxes: &mut Boxes,
    place: usize,
    railway: Railway,
    count: usize,
) -> Result<(), Memory>
    requires { IsAt boxes.old.entries place railway }
    ensures kept { (also : Railway) → outbox_state_of boxes.new.entries also
        ≡ outbox_state_of boxes.old.entries also }
    ensures places { keys_of boxes.new.entries ≡ keys_of boxes.old.entries }
    ensures boxes { (also : Railway) → has_box boxes.new.entries also
        ≡ has_box boxes.old.entries also }
    ensures stay_roomy { (also : Railway) → room_for boxes.old.entries also
        ≤ room_for boxes.new.entries also }
    ensures room { OnOk result (count ≤ room_for boxes.new.entries railway) }
    ensures few { OnOk result (last_of (outbox_state_of boxes.new.entries railway) < 2 ^ 62) }
{
    let _railway = railway;
    match boxes.get_index_mut(place) {
        Some(outbox) => outbox.make_room(count),
        None => unreachable!(),
    }
}

// Makes the box of a railway that has none, with room for so many items.
fn open(boxes: &mut Boxes, railway: Railway, count: usize) -> Result<(), Memory>
    requires { has_box boxes.old.entries railway ≡ false }
    ensures kept { (also : Railway) → outbox_state_of boxes.new.entries also
        ≡ outbox_state_of boxes.old.entries also }
    ensures stay_open { (also : Railway) → has_box boxes.old.entries also ≡ true
        → has_box boxes.new.entries also ≡ true }
    ensures stay_roomy { (also : Railway) → room_for boxes.old.entries also
        ≤ room_for boxes.new.entries also }
    ensures open { OnOk result (has_box boxes.new.entries railway ≡ true) }
    ensures room { OnOk result (count ≤ room_for boxes.new.entries railway) }
    ensures few { OnOk result (last_of (outbox_state_of boxes.new.entries railway) < 2 ^ 62) }
    ensures err { OnErr result ((also : Railway) → has_box boxes.new.entries also
        ≡ has_box boxes.old.entries also) }
{
    let mut outbox = Outbox::new(*boxes.allocator());
    outbox.make_room(count)?;
    boxes.insert(railway, outbox)?;
    Ok(())
}

/// Adds an item for a railway that has room for it, and gives its number. The box is looked for at its place among these first.
pub(crate) fn put(
    boxes: &mut Boxes,
    places: &mut RailwayPlaces,
    railway: Railway,
    body: ItemBody,
) -> u64
    requires room { 0 < room_for boxes.old.entries railway }
    requires few { last_of (outbox_state_of boxes.old.entries railway) + 1 < 2 ^ 63 }
    ensures number { result ≡ last_of (outbox_state_of boxes.old.entries railway) + 1 }
    ensures kept { (also : Railway) → outbox_state_of boxes.new.entries also
        ≡ (if bytes_eq railway also
        then with_items (outbox_state_of boxes.old.entries also) (body ∷ [])
        else outbox_state_of boxes.old.entries also) }
    ensures room { (also : Railway)
        → room_for boxes.new.entries also + (if bytes_eq railway also then 1 else 0)
        ≡ room_for boxes.old.entries also }
    ensures stay_open { (also : Railway) → has_box boxes.new.entries also
        ≡ has_box boxes.old.entries also }
{
    match find_place(boxes, places, railway) {
        Some(place) => put_at(boxes, place, railway, body),
        None => unreachable!(),
    }
}

// Whether the box at a place is that of the railway.
fn is_at(boxes: &Boxes, place: usize, railway: Railway) -> bool
    ensures at { result ≡ true → IsAt boxes.now.entries place railway }
    ensures has { result ≡ true → has_box boxes.now.entries railway ≡ true }
{
    match boxes.get_index(place) {
        Some((found, _)) => *found == railway,
        None => false,
    }
}

// Adds an item to the box at a place, which is that of the railway.
fn put_at(boxes: &mut Boxes, place: usize, railway: Railway, body: ItemBody) -> u64
    requires at { IsAt boxes.old.entries place railway }
    requires room { 0 < room_for boxes.old.entries railway }
    requires few { last_of (outbox_state_of boxes.old.entries railway) + 1 < 2 ^ 63 }
    ensures number { result ≡ last_of (outbox_state_of boxes.old.entries railway) + 1 }
    ensures kept { (also : Railway) → outbox_state_of boxes.new.entries also
        ≡ (if bytes_eq railway also
        then with_items (outbox_state_of boxes.old.entries also) (body ∷ [])
        else outbox_state_of boxes.old.entries also) }
    ensures room { (also : Railway)
        → room_for boxes.new.entries also + (if bytes_eq railway also then 1 else 0)
        ≡ room_for boxes.old.entries also }
    ensures stay_open { (also : Railway) → has_box boxes.new.entries also
        ≡ has_box boxes.old.entries also }
{
    let _railway = railway;
    match boxes.get_index_mut(place) {
        Some(outbox) => {
            let number = outbox.last() + 1;
            outbox.put(body);
            number
        }
        None => unreachable!(),
    }
}

/// Drops a railway's items up to a number that is not ahead, and gives the acknowledged number that now stands.
#[tactic(auto, using(crate::proofs::KeyLemmas::same_box))]
pub(crate) fn acknowledge(boxes: &mut Boxes, railway: Railway, number: u64) -> u64
    requires { number ≤ last_of (outbox_state_of boxes.old.entries railway) }
    ensures stands { result ≡ max (outbox_state_of boxes.old.entries railway).acknowledged number }
    ensures kept { (also : Railway) → outbox_state_of boxes.new.entries also
        ≡ (if bytes_eq railway also
        then acknowledged_up_to (outbox_state_of boxes.old.entries also) number
        else outbox_state_of boxes.old.entries also) }
    ensures stay_open { (also : Railway) → has_box boxes.new.entries also
        ≡ has_box boxes.old.entries also }
{
    match boxes.get_mut(&railway) {
        Some(outbox) => {
            outbox.acknowledge(number);
            outbox.acknowledged()
        }
        None => 0,
    }
}
