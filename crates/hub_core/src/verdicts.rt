//! The reply to a new message that is refused.
ghost use Rattle.std.specs.Prelude.{◌≡◌, IfOk, Some};
ghost use Rattle.hub_model.specs.Replies.{verdict};

use hub_model::Fault;
use std::alloc::Global;
use taf_codes::Memory;
use taf_messages::{MessageNumber, Refusal, Reply, Shared};

/// The reply to a new message that has a fault.
pub(crate) fn refusal_of(alloc: Global, no: MessageNumber, fault: Fault) -> Result<Reply, Memory>
    ensures { IfOk result (λ r. r ≡ verdict no (Some fault)) }
{
    let refusal = Refusal {
        no: Some(no),
        why: fault.why,
        wagon: fault.wagon,
        last: None,
    };
    Ok(Reply::Refused(Shared::new(alloc, refusal)?))
}
