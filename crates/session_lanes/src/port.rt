//! A session's way to its worker.
ghost use Rattle.std.specs.Prelude.{◌≡◌, ◌+◌};
ghost use Rattle.std.specs.List.{All};
ghost use Rattle.inbox.specs.declared.rule.Job.{Job};
ghost use Rattle.inbox.specs.States.{PassState};
ghost use Rattle.session_lanes.specs.Lanes.{no_pass};
ghost use Rattle.session_lanes.specs.Passes.{put_since, PutsOnly, PutsMore};

use crate::queues::{AnswerQueue, JobQueue};
use inbox::{Job, Pass};
use session_lines::Done;
use session_serving::{Port, PortFault};
use std::marker::{Brand, PhantomData};
use std::sync::Wait;
use std::thread;

// The pass that a port began with.
pub(crate) trait Begun {
    ghost began: { PassState };
}

impl Begun for Brand {
    ghost began = { no_pass };
}

// Puts the jobs of a session into its lane, behind those of the sessions before it, and takes their answers from its queue.
#[derive(Drop)]
pub(crate) struct LanePort<'a, B: Begun, R: Wait> {
    rt: &'a R,
    session: u32,
    jobs: &'a JobQueue,
    pass: Pass,
    answers: &'a AnswerQueue,
    failures: u64,
    of: PhantomData<B>,
    ghost own: { B.began.inbox ≡ jobs.now.id },
    ghost puts_only: { PutsOnly B.began pass },
    ghost own_jobs: { All (λ (j : Job). j.session ≡ session) (put_since B.began pass) },
}

impl<'a, B: Begun, R: Wait> LanePort<'a, B, R> {
    #[tactic(auto, using(crate::proofs::PassLemmas::puts_nothing, crate::proofs::PassLemmas::own_nothing))]
    pub(crate) fn new(
        rt: &'a R,
        session: u32,
        jobs: &'a JobQueue,
        pass: Pass,
        answers: &'a AnswerQueue,
    ) -> LanePort<'a, B, R>
        requires own { pass.inbox ≡ jobs.now.id }
        requires began { pass ≡ B.began }
        ensures session { result.session ≡ session }
        ensures sent { result.pass.put ≡ B.began.put }
    {
        LanePort {
            rt,
            session,
            jobs,
            pass,
            answers,
            failures: 0,
            of: PhantomData,
        }
    }

    #[tactic(auto, using(crate::proofs::PassLemmas::puts_more))]
    pub(crate) fn into_pass(self) -> Pass
        ensures value { result ≡ self.entry.pass }
        ensures more { PutsMore self.entry.session B.began result }
    {
        let LanePort { pass, .. } = self;
        pass
    }

    // Another failure. There is no call after the last number.
    fn fail(&mut self) -> PortFault
        ensures failures { self.new.failures ≡ self.old.failures + 1 }
        ensures session { self.new.session ≡ self.old.session }
        ensures pass { self.new.pass ≡ self.old.pass }
    {
        if self.failures == u64::MAX {
            for _ in self.rt.forever() {
                thread::yield_now();
            }
        }
        self.failures += 1;
        PortFault
    }
}

impl<'a, B: Begun, R: Wait> Port for LanePort<'a, B, R> {
    ghost session = { λ p. p.session };

    ghost sent = { λ p. p.pass.put };

    ghost failures = { λ p. p.failures };

    // The lane has a place for each job that its sessions may have out, so it is not found full.
    #[tactic(auto, using(crate::proofs::PassLemmas::puts_one, crate::proofs::PassLemmas::own_one))]
    fn send(&mut self, job: Job) -> Result<(), PortFault> {
        let mut job = job;
        for _ in self.rt.forever() {
            if self.answers.has_ended() {
                return Err(self.fail());
            }
            match self.jobs.put(self.rt, &mut self.pass, job) {
                Ok(()) => return Ok(()),
                Err(back) => job = back,
            }
            thread::yield_now();
        }
        unreachable!()
    }

    fn next(&mut self) -> Result<Done, PortFault> {
        match self.answers.next(self.rt) {
            Some(done) => Ok(done),
            None => Err(self.fail()),
        }
    }

    fn is_ready(&self, count: u64) -> bool {
        self.answers.has(self.rt, count)
    }

    fn wait_for(&self, count: u64) {
        self.answers.wait_for(self.rt, count);
    }
}
