//! The resource that a path names.
ghost use Rattle.std.specs.Prelude.{◌≡◌, ◌≢◌, ℕ, true, List, ◌++◌, codes, IfSome, IfNone};
ghost use Rattle.taf_codes.specs.Codes.{is_railway};
ghost use Rattle.wagon_number.specs.Digits.{IsVehicleNumber, text_of};
ghost use Rattle.board_paths.specs.declared.resource.Resource.{Resource};
ghost use Rattle.board_paths.specs.Paths.{below, path_of, IsValid};

use crate::resource::Resource;
use std::str;
use taf_codes::Railway;
use wagon_number::{WagonNumber, text_is_read};

/// The resource whose path this is, or None where no resource has it.
pub fn resource_of(path: &[u8]) -> Option<Resource>
    ensures found { IfSome result (λ r. IsValid r × (path_of r ≡ path.now)) }
    ensures none { IfNone result ((r : Resource) → IsValid r → path_of r ≢ path.now) }
{
    if path == b"/".as_slice() {
        return Some(Resource::Entry);
    }
    if path == b"/health".as_slice() {
        return Some(Resource::Health);
    }
    if path == b"/metrics".as_slice() {
        return Some(Resource::Metrics);
    }
    let (front, name) = path.split_at_checked(6)?;
    let railway = railway_between_slashes(front)?;
    resource_below(railway, name)
}

// The railway whose code is between a slash at the start and one at the end.
fn railway_between_slashes(front: &[u8]) -> Option<Railway>
    ensures found { IfSome result (λ r. codes "/" ++ r ++ codes "/" ≡ front.now) }
    ensures valid { IfSome result (λ r. is_railway r ≡ true) }
    ensures none { IfNone result
        ((code : List ℕ) → is_railway code ≡ true → codes "/" ++ code ++ codes "/" ≢ front.now) }
{
    let letters = between_slashes(front)?;
    railway_in(letters)
}

// What is between a slash at the start and one at the end.
fn between_slashes(front: &[u8]) -> Option<&[u8]>
    ensures found { IfSome result (λ l. codes "/" ++ l.now ++ codes "/" ≡ front.now) }
    ensures none { IfNone result ((l : List ℕ) → codes "/" ++ l ++ codes "/" ≢ front.now) }
{
    front.strip_prefix(b"/")?.strip_suffix(b"/")
}

// The railway whose code these letters are.
fn railway_in(letters: &[u8]) -> Option<Railway>
    ensures found { IfSome result (λ r. r ≡ letters.now) }
    ensures valid { IfSome result (λ r. is_railway r ≡ true) }
    ensures none { IfNone result (is_railway letters.now ≢ true) }
{
    match str::from_utf8(letters) {
        Ok(text) => Railway::read(text).ok(),
        Err(_) => None,
    }
}

// The resource of the railway whose name this is.
fn resource_below(railway: Railway, name: &[u8]) -> Option<Resource>
    ensures found { IfSome result (λ r. IsValid r × (path_of r ≡ below railway name.now)) }
    ensures none { IfNone result ((r : Resource) → IsValid r → path_of r ≢ below railway name.now) }
{
    if name.is_empty() {
        return Some(Resource::Page(railway));
    }
    if name == b"wagons.json".as_slice() {
        return Some(Resource::Wagons(railway));
    }
    if name == b"legs.json".as_slice() {
        return Some(Resource::Legs(railway));
    }
    let (front, ending) = name.split_at_checked(19)?;
    let wagon = wagon_behind_wagons(front)?;
    if ending == b".json".as_slice() {
        Some(Resource::Wagon(railway, wagon))
    } else if ending == b"/legs.json".as_slice() {
        Some(Resource::WagonLegs(railway, wagon))
    } else {
        None
    }
}

// The wagon whose number is behind the start of its names.
fn wagon_behind_wagons(front: &[u8]) -> Option<WagonNumber>
    ensures found { IfSome result (λ w. codes "wagons/" ++ text_of w ≡ front.now) }
    ensures valid { IfSome result (λ w. IsVehicleNumber w) }
    ensures none { IfNone result
        ((w : ℕ) → IsVehicleNumber w → codes "wagons/" ++ text_of w ≢ front.now) }
{
    let digits = front.strip_prefix(b"wagons/")?;
    match str::from_utf8(digits) {
        Ok(text) => wagon_in(text),
        Err(_) => None,
    }
}

// The wagon whose number these digits are.
fn wagon_in(digits: &str) -> Option<WagonNumber>
    ensures found { IfSome result (λ w. text_of w ≡ digits.now) }
    ensures valid { IfSome result (λ w. IsVehicleNumber w) }
    ensures none { IfNone result ((w : ℕ) → IsVehicleNumber w → text_of w ≢ digits.now) }
{
    text_is_read();
    match WagonNumber::read(digits) {
        Ok(wagon) => Some(wagon),
        Err(_) => None,
    }
}
