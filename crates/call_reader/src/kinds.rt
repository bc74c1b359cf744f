//! The kind of a record by its name.
ghost use Rattle.std.specs.Prelude.{◌≡◌, Some};
ghost use Rattle.taf_messages.specs.Names.{kind_named};

use taf_messages::{BodyName, Kind, MovementName};

/// The kind of that name. The names of most records are compared here, each as a constant; the table of kinds has the others.
#[tactic(auto, unfolding(taf_messages::specs::Names::kind_named))]
pub(crate) fn kind_named(name: &str) -> Option<Kind>
    ensures { result ≡ kind_named name.now }
{
    match name.as_bytes() {
        b"yard_in" => moved(MovementName::YardArrival),
        b"yard_out" => moved(MovementName::YardDeparture),
        b"exception" => moved(MovementName::Exception),
        b"depart" => moved(MovementName::Departure),
        b"release" => moved(MovementName::Release),
        b"arrival" => moved(MovementName::Arrival),
        b"delivery" => moved(MovementName::Delivery),
        b"eti" => moved(MovementName::Estimate),
        b"ask" => Some(Kind::Ask),
        b"fetch" => Some(Kind::Fetch),
        b"ack" => Some(Kind::Ack),
        b"offer" => Some(Kind::Send(BodyName::Offer)),
        b"answer" => Some(Kind::Send(BodyName::Answer)),
        _ => Kind::named(name),
    }
}

// The kind of such movements.
#[inline(always)]
fn moved(name: MovementName) -> Option<Kind>
    ensures { result ≡ Some (Kind.Send (BodyName.Movement name)) }
{
    Some(Kind::Send(BodyName::Movement(name)))
}
