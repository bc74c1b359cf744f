//! The journal that a server leaves.
ghost use Rattle.std.specs.Prelude.{◌≡◌, true, false, IfOk, IfErr};
ghost use Rattle.journal.specs.Journals.{has_failed};
ghost use Rattle.server_faults.specs.declared.fault.ServerFault.TheVariants as faults;

use crate::fault::ServerFault;
use journal::{Journal, RawFile};

/// The journal, where no call of its file failed. Else the answer is [`ServerFault::Journal`], and the journal is given up: what it has
/// is what its file is found to have when it is opened again.
pub fn sound_journal<F: RawFile + Drop>(journal: Journal<F>) -> Result<Journal<F>, ServerFault>
    ensures same { IfOk result (λ j. j ≡ journal) }
    ensures ok { IfOk result (λ j. has_failed j ≡ false) }
    ensures err { IfErr result (λ f. f ≡ faults.Journal) }
    ensures failed { IfErr result (λ f. has_failed journal ≡ true) }
{
    if journal.has_failed() {
        return Err(ServerFault::Journal);
    }
    Ok(journal)
}
