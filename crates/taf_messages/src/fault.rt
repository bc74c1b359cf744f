ghost use Rattle.std.specs.Prelude.{◌≡◌};
ghost use Rattle.taf_messages.specs.Faults.{fault_of_plan};
ghost use Rattle.taf_messages.specs.declared.fault.RecordFault.TheVariants.{Memory};

use crate::field::Field;
use std::alloc::{AllocError, AllocFailed};
use thiserror::Error;
use trip_plan::PlanFault;

/// Why a line is no call: the first fault in this order.
#[derive(Clone, Copy, Debug, PartialEq, Eq, Error)]
pub enum RecordFault {
    /// The line is no JSON object.
    #[error("no JSON object")]
    BadJson,
    /// The record names no kind that there is.
    #[error("no kind of record")]
    BadKind,
    /// The first field of the kind that is absent or not good is absent.
    #[error("a field is missing: {}", .0.name())]
    MissingField(Field),
    /// The first field of the kind that is absent or not good is not good.
    #[error("a field is not good: {}", .0.name())]
    BadField(Field),
    /// The code of the first rule that the plan or the route breaks.
    #[error("breaks rule {0} of a plan")]
    BadPlan(u8),
    /// Memory was refused, which may come in place of any other fault.
    #[error("memory was refused")]
    Memory,
}

impl From<AllocError> for RecordFault {
    ghost from_gives = { λ _ fault. fault ≡ Memory };

    fn from(_refused: AllocError) -> RecordFault {
        RecordFault::Memory
    }
}

impl<T: Drop> From<AllocFailed<T>> for RecordFault {
    ghost from_gives = { λ _ fault. fault ≡ Memory };

    fn from(_refused: AllocFailed<T>) -> RecordFault {
        RecordFault::Memory
    }
}

impl From<PlanFault> for RecordFault {
    ghost from_gives = { λ plan fault. fault ≡ fault_of_plan plan };

    fn from(fault: PlanFault) -> RecordFault {
        match fault {
            PlanFault::BadPlan(code) => RecordFault::BadPlan(code),
            PlanFault::Memory => RecordFault::Memory,
        }
    }
}
