//! The inbox.
ghost use Rattle.std.specs.Prelude.{◌≡◌, ◌-◌, ◌≤◌, sum_by, IfOk, IfErr, IfSome, IsOk, OnOk, OnErr, IfNone};
ghost use Rattle.std.specs.List.{All};
ghost use Rattle.inbox.specs.Rules.{ALL_PARTS};
ghost use Rattle.inbox.specs.States.{new_pass, after_put, after_take, HeldSoMany, IsKeptBy};

use crate::left::Left;
use crate::pass::Pass;
use crate::rule::{
    InboxRule, Job, JoinPasses, PassView, PutJob, SplitPass, TakeFirstLeft, TakeJob,
};
use crossbeam_queue::RuledArrayQueue;
use std::alloc::Global;
use std::marker::Model;
use std::sync::Wait;
use taf_codes::Memory;

/// A bounded queue of jobs, which threads share by reference, each with a pass of its own.
///
/// Contracts see which inbox it is, and its capacity.
#[derive(Drop)]
pub struct Inbox {
    queue: RuledArrayQueue<Job, PassView, InboxRule>,
}

impl Model for Inbox {
    ghost use Rattle.crossbeam_queue.specs.Passes.{ruled_capacity};
    ghost use Rattle.inbox.specs.States.{InboxState};

    ghost Value = { InboxState };

    ghost view = { λ i. record {
      id = i.queue.table.shared.table_id;
      capacity = ruled_capacity i.queue;
    } };
}

impl Inbox {
    /// An empty inbox for up to `capacity` jobs, 1 to 1,024, and its first pass, which has every part.
    pub fn new(_rt: &impl Wait, alloc: Global, capacity: usize) -> Result<(Inbox, Pass), Memory>
        requires { (1 ≤ capacity) × (capacity ≤ 1024) }
        ensures capacity { IfOk result (λ r. r.0.capacity ≡ capacity) }
        ensures pass { IfOk result (λ r. r.1 ≡ new_pass r.0.id ALL_PARTS) }
    {
        match RuledArrayQueue::ruled(alloc, capacity) {
            Ok((queue, pass)) => Ok((Inbox { queue }, Pass { pass })),
            Err(_) => Err(Memory),
        }
    }

    /// A pass of its own, with one part of the other, which has to have two at least. It put and took nothing. Takes no
    /// memory, so it is Ok.
    pub fn split_pass(&self, _rt: &impl Wait, pass: &mut Pass) -> Result<Pass, Memory>
        requires own { pass.old.inbox ≡ self.now.id }
        requires parts { 2 ≤ pass.old.parts }
        ensures ok { IsOk result }
        ensures new { IfOk result (λ p. p ≡ new_pass self.now.id 1) }
        ensures old { pass.new ≡ record pass.old { parts = pass.old.parts - 1 } }
    {
        let other = self.queue.another::<SplitPass>(&mut pass.pass);
        Ok(Pass { pass: other })
    }

    /// Puts a job. It comes back only where the rule, and what this pass knows, allow that the inbox was full at some moment
    /// of the call: that it held as many jobs as its capacity, counting jobs that other passes may have put. Then nothing
    /// has changed.
    pub fn put<R: Wait>(&self, rt: &R, pass: &mut Pass, job: Job) -> Result<(), Job>
        requires own { pass.old.inbox ≡ self.now.id }
        ensures put { OnOk result (pass.new ≡ after_put pass.old job) }
        ensures back { IfErr result (λ back. back ≡ job) }
        ensures unchanged { OnErr result (pass.new ≡ pass.old) }
        ensures full { OnErr result (HeldSoMany self.now.capacity pass.old) }
    {
        self.queue.push_as::<PutJob, R>(rt, &mut pass.pass, job)
    }

    /// Takes the job that was put first. There is none only where the inbox was empty at some moment of the call.
    pub fn take<R: Wait>(&self, rt: &R, pass: &mut Pass) -> Option<Job>
        requires own { pass.old.inbox ≡ self.now.id }
        ensures taken { IfSome result (λ job. pass.new ≡ after_take pass.old job) }
        ensures unchanged { IfNone result (pass.new ≡ pass.old) }
        ensures empty { IfNone result (HeldSoMany 0 pass.old) }
    {
        self.queue.pop_as::<TakeJob, R>(rt, &mut pass.pass)
    }

    /// Takes all passes back, and gives what is left. What was taken, and then what is left, is what was put: in one order
    /// that has the jobs of each pass in the pass's own.
    pub fn close<R: Wait>(self, rt: &R, passes: Vec<Pass>) -> Left
        requires own { All (λ p. p.inbox ≡ self.id) passes.items }
        requires all { sum_by (λ p. p.parts) passes.items ≡ ALL_PARTS }
        ensures { IsKeptBy passes.items result }
    {
        let Inbox { queue } = self;
        let mut passes = passes;
        let first = passes.remove(0);
        let Pass { pass: mut whole } = first;
        for next in passes {
            let Pass { pass } = next;
            queue.absorb::<JoinPasses>(&mut whole, pass);
        }
        let first = queue.pop_as::<TakeFirstLeft, R>(rt, &mut whole);
        Left {
            queue,
            pass: whole,
            first,
        }
    }
}
