//! A job, and the rule that the queue of jobs keeps: what a pass knows, and what each step makes of it.
use crossbeam_queue::protocol::{Join, Lesson, Outcome, Protocol, Split};
use std::collections::LinkedList;
use taf_messages::Call;

/// A call of a session.
#[derive(Debug, PartialEq, Eq, Drop)]
pub struct Job {
    /// The session's number.
    pub session: u32,
    /// The job's number among those of the session, from 0.
    pub index: u64,
    pub call: Call,
}

// What one pass put and took, oldest first. No value of it is made.
pub struct PassJobs {
    pub put: LinkedList<Job>,
    pub taken: LinkedList<Job>,
}

// What the rule knows of a pass: its parts, the jobs of the passes that were joined into it, its own first, and, once the
// inbox is closed, what the queue holds. No value of it is made.
pub struct PassView {
    pub parts: u64,
    pub passes: LinkedList<PassJobs>,
    pub content: Option<LinkedList<Job>>,
}

// What was put is what was taken and then what the queue holds.
pub struct InboxRule;

impl Protocol<Job, PassView> for InboxRule {
    ghost use Rattle.std.specs.Prelude.{[], ◌∷◌, None};
    ghost use Rattle.inbox.specs.Rules.{ALL_PARTS, pass_jobs, pass_view, KeepsRule};

    ghost holds = { KeepsRule };

    ghost first = { pass_view ALL_PARTS (pass_jobs [] [] ∷ []) None };
}

// A pass with one part, which put and took nothing, is split off.
pub struct SplitPass;

impl Split<PassView> for SplitPass {
    ghost use Rattle.std.specs.Prelude.{[], ◌∷◌, ◌-◌, None};
    ghost use Rattle.inbox.specs.Rules.{pass_jobs, pass_view};

    ghost left = { λ v. pass_view (v.parts - 1) v.passes None };

    ghost right = { λ v. pass_view 1 (pass_jobs [] [] ∷ []) None };
}

// Two passes become one, which has the parts of both, and the jobs of each beside those of the other.
pub struct JoinPasses;

impl Join<PassView> for JoinPasses {
    ghost use Rattle.std.specs.Prelude.{[], ◌++◌, ◌+◌, None};
    ghost use Rattle.inbox.specs.Rules.{pass_view};

    ghost both = { λ v w. pass_view (v.parts + w.parts) (v.passes ++ w.passes) None };

    ghost spent = { pass_view 0 [] None };
}

// A job is put. A pass that finds the queue full learns what it may hold.
pub struct PutJob;

impl Outcome<Job, PassView> for PutJob {
    ghost use Rattle.std.specs.Prelude.{◌≡◌, None};
    ghost use Rattle.inbox.specs.Rules.{pass_view, add_put};

    ghost then = { λ v job w. w ≡ pass_view v.parts (add_put v.passes job) None };
}

impl Lesson<Job, PassView> for PutJob {
    ghost use Rattle.inbox.specs.Rules.{CanHold};

    ghost fact = { CanHold };
}

// A job is taken. A pass that finds the queue empty learns what it may hold.
pub struct TakeJob;

impl Outcome<Job, PassView> for TakeJob {
    ghost use Rattle.std.specs.Prelude.{◌≡◌, None};
    ghost use Rattle.inbox.specs.Rules.{pass_view, add_taken};

    ghost then = { λ v job w. w ≡ pass_view v.parts (add_taken v.passes job) None };
}

impl Lesson<Job, PassView> for TakeJob {
    ghost use Rattle.inbox.specs.Rules.{CanHold};

    ghost fact = { CanHold };
}

// The pass that has every part takes a job, and then knows what the queue holds.
pub struct TakeFirstLeft;

impl Outcome<Job, PassView> for TakeFirstLeft {
    ghost use Rattle.std.specs.Prelude.{◌≡◌, List, [], ◌∷◌, Some};
    ghost use Rattle.inbox.specs.declared.rule.Job.{Job};
    ghost use Rattle.inbox.specs.Interleavings.{IsKept};
    ghost use Rattle.inbox.specs.Rules.{ALL_PARTS, pass_view, put_lists, taken_lists};

    ghost then = { λ v job w. (content : List Job) × (w ≡ pass_view ALL_PARTS [] (Some content))
        × IsKept (put_lists v.passes) (taken_lists v.passes) (job ∷ content) };
}

impl Lesson<Job, PassView> for TakeFirstLeft {
    ghost use Rattle.inbox.specs.Interleavings.{IsKept};
    ghost use Rattle.inbox.specs.Rules.{put_lists, taken_lists};

    ghost fact = { λ v items. IsKept (put_lists v.passes) (taken_lists v.passes) items };
}

// It takes the first job of those that it knows.
pub struct TakeNextLeft;

impl Outcome<Job, PassView> for TakeNextLeft {
    ghost use Rattle.std.specs.Prelude.{◌≡◌, List, [], ◌∷◌, Some};
    ghost use Rattle.inbox.specs.declared.rule.Job.{Job};
    ghost use Rattle.inbox.specs.Rules.{ALL_PARTS, pass_view};

    ghost then = { λ v job w. (rest : List Job) × (v.content ≡ Some (job ∷ rest))
        × (w ≡ pass_view ALL_PARTS [] (Some rest)) };
}

impl Lesson<Job, PassView> for TakeNextLeft {
    ghost use Rattle.std.specs.Prelude.{◌≡◌, Some};

    ghost fact = { λ v items. v.content ≡ Some items };
}
