//! What takes the jobs of a session, and gives their answers.
ghost use Rattle.std.specs.Prelude.{◌≡◌, ℕ, ◌+◌, ◌++◌, ◌∷◌, [], List, is_ok, if◌then◌else◌};
ghost use Rattle.inbox.specs.declared.rule.Job.{Job};

use inbox::Job;
use session_lines::Done;
use thiserror::Error;

/// A port failed.
#[derive(Clone, Copy, Debug, PartialEq, Eq, Error)]
#[error("a port failed")]
pub struct PortFault;

/// What takes the jobs of one session, and gives their answers.
pub trait Port {
    /// The number of the session whose jobs it takes.
    ghost session: { Self → ℕ };

    /// The jobs that it took, the first one first.
    ghost sent: { Self → List Job };

    /// How many calls failed.
    ghost failures: { Self → ℕ };

    /// Takes a job of its session. Each Err is one failure more, and takes no job.
    fn send(&mut self, job: Job) -> Result<(), PortFault>
        requires mine { job.session ≡ session self.old }
        ensures session { session self.new ≡ session self.old }
        ensures sent { sent self.new
            ≡ (if is_ok result then sent self.old ++ job ∷ [] else sent self.old) }
        ensures counted { failures self.new
            ≡ (if is_ok result then failures self.old else failures self.old + 1) };

    /// The next answer. It may wait for it. Each Err is one failure more.
    fn next(&mut self) -> Result<Done, PortFault>
        ensures session { session self.new ≡ session self.old }
        ensures sent { sent self.new ≡ sent self.old }
        ensures counted { failures self.new
            ≡ (if is_ok result then failures self.old else failures self.old + 1) };

    /// Whether so many answers are there, so that [`Port::next`] would not wait for any of them. One
    /// that cannot tell says no.
    fn is_ready(&self, _count: u64) -> bool {
        false
    }

    /// It may wait until so many answers are there. One that cannot wait so returns at once. Where
    /// fewer will come, it waits no longer than [`Port::next`] would.
    fn wait_for(&self, _count: u64) {}
}
