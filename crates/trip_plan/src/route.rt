ghost use Rattle.std.specs.Prelude.{◌≡◌, ◌<◌, ◌≤◌, length, IfOk};
ghost use Rattle.trip_plan.specs.Trip.{Routes, route_fault};

use crate::fault::PlanFault;
use crate::parts::Leg;
use crate::rules;
use std::alloc::{AllocError, Global};
use std::marker::Model;
use std::sync::Arc;
use taf_codes::Memory;

/// The new legs of a wagon after its current one, without a fault. Copies share them.
#[derive(Debug, Drop)]
pub struct Route {
    legs: Arc<Vec<Leg>>,
}

impl Model for Route {
    ghost use Rattle.std.specs.Prelude.{List};
    ghost use Rattle.trip_plan.specs.declared.parts.Leg.{Leg};
    ghost use Rattle.trip_plan.specs.Trip.{IsRoute};

    ghost Value = { List Leg };

    ghost view = { λ a. a.legs.value.items };

    ghost invariant = { λ a. IsRoute a.legs.value.items };
}

impl Route {
    /// The route of these legs.
    pub fn new(alloc: Global, legs: &[Leg]) -> Result<Route, PlanFault>
        ensures { Routes result legs.now }
    {
        if let Some(code) = broken_rule(legs) {
            return Err(PlanFault::BadPlan(code));
        }
        let legs = Vec::from_slice(alloc, legs)?;
        match Arc::new(alloc, legs) {
            Ok(legs) => Ok(Route { legs }),
            Err(_) => Err(PlanFault::Memory),
        }
    }

    /// The legs in their order: 1 to 7.
    pub fn legs(&self) -> &[Leg]
        ensures value { result.now ≡ self.now }
        ensures some { 0 < length result.now }
        ensures few { length result.now ≤ 7 }
    {
        self.legs.as_slice()
    }

    /// The same route. It shares the legs.
    pub fn copy(&self) -> Result<Route, Memory>
        ensures { IfOk result (λ copy. copy ≡ self.now) }
    {
        match Arc::try_clone(&self.legs) {
            Ok(legs) => Ok(Route { legs }),
            Err(AllocError) => Err(Memory),
        }
    }
}

impl Clone for Route {
    ghost is_clone = { λ a b. b ≡ a };

    fn clone(&self) -> Result<Route, AllocError> {
        self.copy().map_err(|_| AllocError)
    }
}

impl PartialEq for Route {
    ghost use Rattle.trip_plan.specs.Content.{same_legs};
    ghost use Rattle.trip_plan.specs.SameContent.{legs-is_equivalence};
    ghost use Rattle.std.specs.Cmp.{partial_equiv_from_equiv};

    ghost eq = { same_legs };

    ghost laws = { partial_equiv_from_equiv legs-is_equivalence };

    fn eq(&self, other: &Route) -> bool {
        self.legs() == other.legs()
    }
}

impl Eq for Route {
    ghost use Rattle.trip_plan.specs.SameContent.{legs-is_equivalence};

    ghost laws = { legs-is_equivalence };
}

// The code of the first rule that the legs of a route break.
fn broken_rule(legs: &[Leg]) -> Option<u8>
    ensures { result ≡ route_fault legs.now }
{
    if legs.is_empty() || legs.len() > 7 {
        Some(1)
    } else if !rules::are_connected(legs) {
        Some(2)
    } else if !rules::change_railway(legs) {
        Some(3)
    } else if !rules::take_time(legs) {
        Some(6)
    } else {
        None
    }
}
