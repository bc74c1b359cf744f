//! Lists with limits.
ghost use Rattle.std.specs.Prelude.{◌≡◌, ◌≤◌, true, nat_eq, nat_le, length, Some, None, if◌then◌else◌};
ghost use Rattle.std.specs.Cmp.Lexicographic.{pointwise, nat_list_eq_equiv};
ghost use Rattle.std.specs.Cmp.{partial_equiv_from_equiv};
ghost use Rattle.taf_messages.specs.Limits.{may_be_offered};

use std::alloc::AllocError;
use std::marker::Model;
use trip_plan::all_differ;
use wagon_number::WagonNumber;

/// At most 60 wagons in order.
#[derive(Debug, Drop)]
pub struct Wagons {
    items: Vec<WagonNumber>,
}

impl Model for Wagons {
    ghost use Rattle.std.specs.Prelude.{List, ◌≤◌, length};
    ghost use Rattle.wagon_number.specs.declared.number.WagonNumber.{WagonNumber};

    ghost Value = { List WagonNumber };

    ghost view = { λ a. a.items.items };

    ghost invariant = { λ a. length a.items.items ≤ 60 };
}

impl Wagons {
    /// The list of these wagons, if they are at most 60.
    pub fn new(items: Vec<WagonNumber>) -> Option<Wagons>
        ensures { result ≡ (if nat_le (length items.items) 60 then Some items.items else None) }
    {
        if items.len() <= 60 {
            Some(Wagons { items })
        } else {
            None
        }
    }

    /// The wagons.
    pub fn into_vec(self) -> Vec<WagonNumber>
        ensures { result.items ≡ self }
    {
        let Wagons { items } = self;
        items
    }

    pub fn as_slice(&self) -> &[WagonNumber]
        ensures value { result.now ≡ self.now }
        ensures few { length result.now ≤ 60 }
    {
        self.items.as_slice()
    }
}

impl Clone for Wagons {
    ghost is_clone = { λ a b. b ≡ a };

    fn clone(&self) -> Result<Wagons, AllocError> {
        let alloc = *self.items.allocator();
        let items = Vec::from_slice(alloc, self.items.as_slice())?;
        Ok(Wagons { items })
    }
}

impl PartialEq for Wagons {
    ghost eq = { pointwise nat_eq };

    ghost laws = { partial_equiv_from_equiv nat_list_eq_equiv };

    fn eq(&self, other: &Wagons) -> bool {
        self.items == other.items
    }
}

impl Eq for Wagons {
    ghost laws = { nat_list_eq_equiv };
}

/// The wagons of an offer (4.2.8): 1 to 60 in order, all different.
#[derive(Clone, Debug, PartialEq, Eq, Drop)]
pub struct OfferedWagons {
    wagons: Wagons,
}

impl Model for OfferedWagons {
    ghost use Rattle.std.specs.Prelude.{◌≡◌, true, List};
    ghost use Rattle.wagon_number.specs.declared.number.WagonNumber.{WagonNumber};
    ghost use Rattle.taf_messages.specs.Limits.{may_be_offered};

    ghost Value = { List WagonNumber };

    ghost view = { λ a. a.wagons };

    ghost invariant = { λ a. may_be_offered a.wagons ≡ true };

    ghost inverse = { λ ws. record { wagons = ws } };
}

impl OfferedWagons {
    /// The list of these wagons, if they may be offered together.
    pub fn new(items: Vec<WagonNumber>) -> Option<OfferedWagons>
        ensures { result ≡ (if may_be_offered items.items then Some items.items else None) }
    {
        if items.is_empty() || items.len() > 60 || !all_differ(&items) {
            return None;
        }
        match Wagons::new(items) {
            Some(wagons) => Some(OfferedWagons { wagons }),
            None => None,
        }
    }

    /// The wagons.
    pub fn into_vec(self) -> Vec<WagonNumber>
        ensures { result.items ≡ self }
    {
        let OfferedWagons { wagons } = self;
        wagons.into_vec()
    }

    pub fn as_slice(&self) -> &[WagonNumber]
        ensures value { result.now ≡ self.now }
        ensures few { length result.now ≤ 60 }
        ensures allowed { may_be_offered result.now ≡ true }
    {
        self.wagons.as_slice()
    }
}
