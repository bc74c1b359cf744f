ghost use Rattle.std.specs.Prelude.{◌≡◌, ◌++◌};

use crate::answered::{are_among, are_answered_once};
use taf_codes::{Place, Railway};
use taf_messages::{MessageNumber, OfferedWagons, Wagons};

/// An accepted offer, by its sender and its number.
#[derive(Debug, Drop)]
pub struct Offer {
    pub by: Railway,
    pub no: MessageNumber,
    /// The railway that is asked to receive the wagons.
    pub to: Railway,
    pub place: Place,
    pub wagons: OfferedWagons,
}

/// An offer that was made, and whether it is open.
#[derive(Drop)]
pub(crate) struct OfferEntry {
    pub offer: Offer,
    pub is_open: bool,
}

impl Offer {
    ghost use Rattle.interchange.specs.Offers.{matches};

    /// Whether the received and the refused wagons together are each wagon of the offer exactly once and no other.
    pub fn matches(&self, received: &Wagons, refused: &Wagons) -> bool
        ensures { result ≡ matches self.now.wagons (received.now ++ refused.now) }
    {
        let offered = self.wagons.as_slice();
        let (received, refused) = (received.as_slice(), refused.as_slice());
        are_answered_once(offered, received, refused) && are_among(received, refused, offered)
    }
}
