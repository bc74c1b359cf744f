//! What a closed inbox held.
ghost use Rattle.std.specs.Prelude.{◌≡◌, [], ◌∷◌, IfSome, IfNone};

use crate::rule::{InboxRule, Job, PassView, TakeNextLeft};
use crossbeam_queue::RuledArrayQueue;
use std::marker::Model;
use std::sync::Wait;

/// What a closed inbox held. Contracts see it as the list of its jobs, first put first.
#[derive(Drop)]
pub struct Left {
    pub(crate) queue: RuledArrayQueue<Job, PassView, InboxRule>,
    pub(crate) pass: crossbeam_queue::Pass<Job, PassView>,
    // The first of them, which is no more in the queue.
    pub(crate) first: Option<Job>,
}

impl Model for Left {
    ghost use Rattle.std.specs.Prelude.{List};
    ghost use Rattle.crossbeam_queue.specs.Passes.{view as view_of, IsPassOf};
    ghost use Rattle.inbox.specs.declared.rule.Job.{Job};
    ghost use Rattle.inbox.specs.Rules.{jobs_left, KnowsContent};

    ghost Value = { List Job };

    ghost view = { λ l. jobs_left l.first (view_of l.pass).content };

    ghost invariant = { λ l. IsPassOf l.queue l.pass × KnowsContent l.first (view_of l.pass) };
}

impl Left {
    /// The job that was put first of those that are left. There is none only where none is left.
    pub fn next<R: Wait>(&mut self, rt: &R) -> Option<Job>
        ensures job { IfSome result (λ job. self.old ≡ job ∷ self.new) }
        ensures none { IfNone result ((self.old ≡ []) × (self.new ≡ [])) }
    {
        let job = self.first.take()?;
        self.first = self.queue.pop_as::<TakeNextLeft, R>(rt, &mut self.pass);
        Some(job)
    }
}
