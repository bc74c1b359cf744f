//! The table of the railways that sent messages.
ghost use Rattle.std.specs.Prelude.{◌≡◌, ℕ, true, false, is_some, Some, None, IfSome, IfOk, OnOk, IsOk, if◌then◌else◌};
ghost use Rattle.std.specs.Map.{keys_of};
ghost use Rattle.taf_codes.specs.declared.code.Railway.{Railway};
ghost use Rattle.replay_numbers.specs.Names.{same_name};
ghost use Rattle.replay_numbers.specs.SentPositions.{IsAt, has_railway, position_of, has_room};

use crate::sent::Sent;
use indexmap::IndexMap;
use railway_places::RailwayPlaces;
use seeded_state::SeededState;
use taf_codes::{Memory, Railway};

pub(crate) type Railways = IndexMap<Railway, Sent, SeededState>;

/// The position that was noted for a name, if there is one.
pub(crate) fn find(railways: &Railways, by: Railway, number: u64) -> Option<u32>
    ensures { result ≡ position_of railways.now.entries by number }
{
    match railways.get(&by) {
        Some(sent) => sent.find(number),
        None => None,
    }
}

/// The position that was noted for a name. Where there is none, room is made for the name. The railway is looked for at its
/// place among these first.
pub(crate) fn find_or_make_room(
    railways: &mut Railways,
    places: &mut RailwayPlaces,
    by: Railway,
    number: u64,
) -> Result<Option<u32>, Memory>
    ensures positions { (also : Railway) (n : ℕ) → position_of railways.new.entries also n
        ≡ position_of railways.old.entries also n }
    ensures stay_roomy { (also : Railway) (n : ℕ) → has_room railways.old.entries also n ≡ true
        → has_room railways.new.entries also n ≡ true }
    ensures found { IfOk result (λ found. found ≡ position_of railways.old.entries by number) }
    ensures room { IfOk result (λ found. found ≡ None
        → has_room railways.new.entries by number ≡ true) }
    ensures succeeds { has_room railways.old.entries by number ≡ true → IsOk result }
{
    match find_place(railways, places, by) {
        Some(place) => find_or_make_room_at(railways, place, by, number),
        None => {
            add(railways, by, number)?;
            Ok(None)
        }
    }
}

// The place of a railway among all. It is looked for at its place among these first, and where another railway is there, it is
// looked up and its place is noted.
#[inline(always)]
fn find_place(railways: &Railways, places: &mut RailwayPlaces, by: Railway) -> Option<usize>
    ensures found { IfSome result (λ place. IsAt railways.now.entries place by) }
    ensures has { is_some result ≡ has_railway railways.now.entries by }
{
    let place = places.place(by);
    if is_at(railways, place, by) {
        return Some(place);
    }
    let found = place_of(railways, by)?;
    places.note(by, found);
    Some(found)
}

// Whether a railway is at a place.
fn is_at(railways: &Railways, place: usize, by: Railway) -> bool
    ensures at { result ≡ true → IsAt railways.now.entries place by }
    ensures has { result ≡ true → has_railway railways.now.entries by ≡ true }
{
    match railways.get_index(place) {
        Some((found, _)) => *found == by,
        None => false,
    }
}

// The place of a railway among all, by a look-up.
fn place_of(railways: &Railways, by: Railway) -> Option<usize>
    ensures found { IfSome result (λ place. IsAt railways.now.entries place by) }
    ensures has { is_some result ≡ has_railway railways.now.entries by }
{
    match railways.get_full(&by) {
        Some((place, _, _)) => Some(place),
        None => None,
    }
}

// The position that was noted for a name of the railway at a place. Where there is none, room is made for it.
fn find_or_make_room_at(
    railways: &mut Railways,
    place: usize,
    by: Railway,
    number: u64,
) -> Result<Option<u32>, Memory>
    requires { IsAt railways.old.entries place by }
    ensures positions { (also : Railway) (n : ℕ) → position_of railways.new.entries also n
        ≡ position_of railways.old.entries also n }
    ensures stay_roomy { (also : Railway) (n : ℕ) → has_room railways.old.entries also n ≡ true
        → has_room railways.new.entries also n ≡ true }
    ensures places { keys_of railways.new.entries ≡ keys_of railways.old.entries }
    ensures found { IfOk result (λ found. found ≡ position_of railways.old.entries by number) }
    ensures room { IfOk result (λ found. found ≡ None
        → has_room railways.new.entries by number ≡ true) }
    ensures succeeds { has_room railways.old.entries by number ≡ true → IsOk result }
{
    let _by = by;
    match railways.get_index_mut(place) {
        Some(sent) => sent.find_or_make_room(number),
        None => unreachable!(),
    }
}

// Adds a railway that is not among them yet, with room for a number.
fn add(railways: &mut Railways, by: Railway, number: u64) -> Result<(), Memory>
    requires { has_railway railways.old.entries by ≡ false }
    ensures positions { (also : Railway) (n : ℕ) → position_of railways.new.entries also n
        ≡ position_of railways.old.entries also n }
    ensures stay_roomy { (also : Railway) (n : ℕ) → has_room railways.old.entries also n ≡ true
        → has_room railways.new.entries also n ≡ true }
    ensures room { OnOk result (has_room railways.new.entries by number ≡ true) }
{
    let mut sent = Sent::new(*railways.allocator(), *railways.hasher(), number);
    sent.reserve(number)?;
    railways.insert(by, sent)?;
    Ok(())
}

/// Notes the position of a name that is new, for which there is room. The railway is looked for at its place among these first.
pub(crate) fn note(
    railways: &mut Railways,
    places: &mut RailwayPlaces,
    by: Railway,
    number: u64,
    position: u32,
)
    requires room { has_room railways.old.entries by number ≡ true }
    requires new { position_of railways.old.entries by number ≡ None }
    ensures { (also : Railway) (other : ℕ) → position_of railways.new.entries also other
        ≡ (if same_name by number also other then Some position
        else position_of railways.old.entries also other) }
{
    match find_place(railways, places, by) {
        Some(place) => note_at(railways, place, by, number, position),
        None => unreachable!(),
    }
}

// Notes the position of a name of the railway at a place.
#[tactic(auto, using(crate::proofs::PlaceLemmas::found, crate::proofs::PlaceLemmas::no_place))]
fn note_at(railways: &mut Railways, place: usize, by: Railway, number: u64, position: u32)
    requires at { IsAt railways.old.entries place by }
    requires room { has_room railways.old.entries by number ≡ true }
    requires new { position_of railways.old.entries by number ≡ None }
    ensures { (also : Railway) (other : ℕ) → position_of railways.new.entries also other
        ≡ (if same_name by number also other then Some position
        else position_of railways.old.entries also other) }
{
    let _by = by;
    match railways.get_index_mut(place) {
        Some(sent) => sent.put(number, position),
        None => unreachable!(),
    }
}
