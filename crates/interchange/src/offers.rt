ghost use Rattle.std.specs.Prelude.{◌≡◌, ℕ, ◌+◌, ◌<◌, ◌≤◌, [], ◌∷◌, ◌++◌, true, false, Some, None, OnOk, OnErr, IsOk, if◌then◌else◌};
ghost use Rattle.std.specs.Option.{option_copied};
ghost use Rattle.taf_codes.specs.declared.code.Railway.{Railway};
ghost use Rattle.replay_numbers.specs.Names.{same_name};
ghost use Rattle.interchange.specs.OfferTable.{offer_of, is_standing, with_closed};

use crate::closing::close;
use crate::offer::{Offer, OfferEntry};
use indexmap::IndexMap;
use seeded_state::SeededState;
use std::alloc::Global;
use std::marker::Model;
use taf_codes::{Memory, Railway};
use taf_messages::MessageNumber;

/// The offers that were made, by their names.
#[derive(Drop)]
pub struct Offers {
    table: IndexMap<(Railway, MessageNumber), OfferEntry, SeededState>,
}

impl Model for Offers {
    ghost use Rattle.indexmap.specs.IndexMap.{spare};
    ghost use Rattle.interchange.specs.OfferTable.{OfferTable};

    ghost Value = { OfferTable };

    ghost view = { λ offers. record { offers = offers.table.entries; spare = spare offers.table } };
}

impl Offers {
    /// No offer, in a table that hashes from the fixed seed. Takes no memory.
    pub fn new(alloc: Global) -> Offers
        ensures { result.offers ≡ [] }
    {
        Offers::with_hasher(alloc, SeededState::fixed())
    }

    /// No offer, in a table that hashes so. Takes no memory.
    pub fn with_hasher(alloc: Global, hasher: SeededState) -> Offers
        ensures { result.offers ≡ [] }
    {
        Offers {
            table: IndexMap::with_hasher(alloc, hasher),
        }
    }

    /// The offer of a name, open or closed.
    pub fn find(&self, by: Railway, number: MessageNumber) -> Option<&Offer>
        ensures { option_copied result ≡ offer_of self.now by number }
    {
        match self.table.get(&(by, number)) {
            Some(entry) => Some(&entry.offer),
            None => None,
        }
    }

    /// Whether the offer of a name is open: false where there is none.
    pub fn is_open(&self, by: Railway, number: MessageNumber) -> bool
        ensures { result ≡ is_standing self.now by number }
    {
        match self.table.get(&(by, number)) {
            Some(entry) => entry.is_open,
            None => false,
        }
    }

    /// Makes room for one offer more, where there is none.
    pub fn reserve(&mut self) -> Result<(), Memory>
        ensures offers { self.new.offers ≡ self.old.offers }
        ensures room { self.old.spare ≤ self.new.spare }
        ensures ok { OnOk result (0 < self.new.spare) }
        ensures succeeds { 0 < self.old.spare → IsOk result }
    {
        self.table.reserve(1)?;
        Ok(())
    }

    /// Makes an offer whose name is new and for which there is room. It is open.
    pub fn open_reserved(&mut self, offer: Offer)
        requires room { 0 < self.old.spare }
        requires new { offer_of self.old offer.by offer.no ≡ None }
        ensures offers { self.new.offers ≡ self.old.offers
            ++ ((offer.by, offer.no), record { offer = offer; is_open = true }) ∷ [] }
        ensures finds { (by : Railway) (number : ℕ) → offer_of self.new by number
            ≡ (if same_name offer.by offer.no by number then Some offer
            else offer_of self.old by number) }
        ensures opens { (by : Railway) (number : ℕ) → is_standing self.new by number
            ≡ (if same_name offer.by offer.no by number then true
            else is_standing self.old by number) }
        ensures room_left { self.old.spare ≤ self.new.spare + 1 }
    {
        let name = (offer.by, offer.no);
        let entry = OfferEntry {
            offer,
            is_open: true,
        };
        let _before = self.table.insert(name, entry).unwrap();
    }

    /// Makes an offer whose name is new. It is open. Where memory is refused, the offers stay.
    pub fn open_offer(&mut self, offer: Offer) -> Result<(), Memory>
        requires { offer_of self.old offer.by offer.no ≡ None }
        ensures offers { OnOk result (self.new.offers ≡ self.old.offers
            ++ ((offer.by, offer.no), record { offer = offer; is_open = true }) ∷ []) }
        ensures finds { OnOk result ((by : Railway) (number : ℕ) → offer_of self.new by number
            ≡ (if same_name offer.by offer.no by number then Some offer
            else offer_of self.old by number)) }
        ensures opens { OnOk result ((by : Railway) (number : ℕ) → is_standing self.new by number
            ≡ (if same_name offer.by offer.no by number then true
            else is_standing self.old by number)) }
        ensures room_left { self.old.spare ≤ self.new.spare + 1 }
        ensures succeeds { 0 < self.old.spare → IsOk result }
        ensures err { OnErr result (self.new.offers ≡ self.old.offers) }
    {
        self.reserve()?;
        self.open_reserved(offer);
        Ok(())
    }

    /// Closes an open offer, which keeps its place among the offers and is still found. Takes no memory.
    pub fn close_offer(&mut self, by: Railway, number: MessageNumber)
        requires { is_standing self.old by number ≡ true }
        ensures offers { self.new.offers ≡ with_closed self.old.offers by number }
        ensures finds { (also : Railway) (other : ℕ) → offer_of self.new also other
            ≡ offer_of self.old also other }
        ensures closes { (also : Railway) (other : ℕ) → is_standing self.new also other
            ≡ (if same_name by number also other then false else is_standing self.old also other) }
        ensures room { self.old.spare ≤ self.new.spare }
    {
        close(&mut self.table, by, number);
    }
}
