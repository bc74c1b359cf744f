ghost use Rattle.std.specs.Prelude.{◌≡◌, ◌≤◌, [], nat_le, length, Some, None, if◌then◌else◌};

use std::alloc::Global;
use std::marker::Model;
use trip_plan::UnitLoad;

/// At most 120 intermodal units in order, each with its wagon.
#[derive(Debug, Drop)]
pub(crate) struct UnitLoads {
    items: Vec<UnitLoad>,
}

impl Model for UnitLoads {
    ghost use Rattle.std.specs.Prelude.{List, ◌≤◌, length};
    ghost use Rattle.trip_plan.specs.declared.parts.UnitLoad.{UnitLoad};

    ghost Value = { List UnitLoad };

    ghost view = { λ a. a.items.items };

    ghost invariant = { λ a. length a.items.items ≤ 120 };
}

impl UnitLoads {
    /// No unit.
    pub(crate) fn none(alloc: Global) -> UnitLoads
        ensures { result ≡ [] }
    {
        UnitLoads {
            items: Vec::new(alloc),
        }
    }

    /// The list of these units, if they are at most 120.
    pub(crate) fn new(items: Vec<UnitLoad>) -> Option<UnitLoads>
        ensures { result ≡ (if nat_le (length items.items) 120 then Some items.items else None) }
    {
        if items.len() <= 120 {
            Some(UnitLoads { items })
        } else {
            None
        }
    }

    pub(crate) fn into_vec(self) -> Vec<UnitLoad>
        ensures value { result.items ≡ self }
        ensures few { length result.items ≤ 120 }
    {
        let UnitLoads { items } = self;
        items
    }
}
