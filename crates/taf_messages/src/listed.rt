ghost use Rattle.std.specs.Prelude.{◌≡◌, length, List};
ghost use Rattle.std.specs.List.{AllZip};
ghost use Rattle.std.specs.Cmp.Lexicographic.{pointwise, lists_per, lists_equiv};

use crate::event::RecordEvent;
use crate::item::Item;
use crate::record::{EstimateAt, Record};
use std::alloc::AllocError;
use std::marker::Model;
use taf_codes::UnitCode;

/// A list that contracts see as its elements in order.
#[derive(Debug, Drop)]
pub struct Listed<T> {
    items: Vec<T>,
}

impl<T> Model for Listed<T> {
    ghost use Rattle.std.specs.Prelude.{List};

    ghost Value = { List T };

    ghost view = { λ a. a.items.items };
}

impl<T> Listed<T> {
    /// The list of these elements.
    pub fn from_vec(items: Vec<T>) -> Listed<T>
        ensures { result ≡ items.items }
    {
        Listed { items }
    }

    /// The elements.
    pub fn into_vec(self) -> Vec<T>
        ensures { result.items ≡ self }
    {
        let Listed { items } = self;
        items
    }

    pub fn as_slice(&self) -> &[T]
        ensures { result.now ≡ self.now }
    {
        self.items.as_slice()
    }
}

impl<T: Clone + Drop> Clone for Listed<T> {
    ghost is_clone = { λ a b. AllZip T.is_clone a b × (length b ≡ length a) };

    fn clone(&self) -> Result<Listed<T>, AllocError> {
        let items = self.items.clone()?;
        Ok(Listed { items })
    }
}

impl<T: PartialEq> PartialEq for Listed<T> {
    ghost eq = { pointwise T.eq };

    ghost laws = { lists_per T.PartialEq.laws };

    fn eq(&self, other: &Self) -> bool {
        self.items == other.items
    }
}

impl<T: Eq> Eq for Listed<T> {
    ghost laws = { lists_equiv T.Eq.laws };
}

/// The intermodal units of a wagon, in the plan's order.
pub type Units = Listed<UnitCode>;

/// Estimates in the order of their legs.
pub type EstimateList = Listed<EstimateAt>;

/// The events of a journey, oldest first.
pub type RecordEvents = Listed<RecordEvent>;

/// Records of wagons in order.
pub type Records = Listed<Record>;

/// Items of an outbox in the order of their numbers.
pub type ItemList = Listed<Item>;
