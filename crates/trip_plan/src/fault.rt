ghost use Rattle.std.specs.Prelude.{◌≡◌};
ghost use Rattle.trip_plan.specs.declared.fault.PlanFault.TheVariants.{Memory};

use std::alloc::AllocError;
use thiserror::Error;

/// Why there is no plan or no route.
#[derive(Clone, Copy, Debug, PartialEq, Eq, Error)]
pub enum PlanFault {
    /// It breaks a rule, whose code this is: the first of 1 no leg or too many, 2 a leg doesn't begin
    /// where the one before it ends, 3 a railway twice in succession, 4 no wagon or more than 60,
    /// 5 a wagon twice, 6 a leg's minutes are not 1 to 100,000, 7 a unit twice, 8 a unit's wagon isn't
    /// in the plan.
    #[error("breaks rule {0} of a plan")]
    BadPlan(u8),
    #[error("memory was refused")]
    Memory,
}

impl From<AllocError> for PlanFault {
    ghost from_gives = { λ _ fault. fault ≡ Memory };

    fn from(_refused: AllocError) -> PlanFault {
        PlanFault::Memory
    }
}
