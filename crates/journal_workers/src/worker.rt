//! The worker.
ghost use Rattle.std.specs.Prelude.{◌≡◌, ◌+◌, ◌<◌, ◌≤◌, ◌^◌, ◌∷◌, ◌++◌, [], List, length, if◌then◌else◌, IfOk};
ghost use Rattle.std.specs.VecDeque.{deque_len, deque_capacity};
ghost use Rattle.hub_model.specs.declared.entry.Entry.{Entry};
ghost use Rattle.inbox.specs.declared.rule.Job.{Job};
ghost use Rattle.session_lines.specs.declared.session.Done.{Done};
ghost use Rattle.journaled_hub.specs.JournaledHubs.{history_of, journal_of, IsJournaled, IsOnDisk};
ghost use Rattle.journal_workers.specs.Work.{HasMadeCalls, HasRoom, HasWorked, IsAnswerTo, IsReady, MayAnswer};

use crate::looks::PendingLook;
use inbox::{Job, Pass};
use journal::{Failed, RawFile};
use journaled_hub::JournaledHub;
use session_lanes::{AnswerQueue, Arrival, JobQueue, Work, push_to_session};
use session_lines::Done;
use std::alloc::Global;
use std::collections::VecDeque;
use std::sync::Wait;
use taf_codes::Memory;

// As many jobs as a lane holds at most.
const MAX_BATCH: usize = 1024;

// Where the number of faults stays.
const MAX_REFUSED: u64 = 1 << 60;

/// What the worker of a shift with a journal has: its pass of the lane, and the hub.
#[derive(Drop)]
pub struct JournalWorker<F> {
    pub pass: Pass,
    pub hub: JournaledHub<F>,
    /// How many calls met a fault of the hub: at most 2^60, where the number stays.
    pub refused: u64,
    // The answers of a batch, until its calls are on the disk.
    dones: VecDeque<Done>,
}

// What came of a batch.
#[derive(Clone, Copy, Debug, PartialEq, Eq)]
enum BatchEnd {
    // Its sessions have their answers; or it was a signal, and there was no job.
    Answered,
    // There was none: the queue was ended, and is empty.
    NoJob,
    // A call of the journal's file failed. Nobody was answered.
    Failed,
}

impl<F: RawFile + Drop> JournalWorker<F> {
    /// A worker with this pass and hub. It takes the memory for the answers of a batch; want of it is the only error.
    pub fn new(alloc: Global, pass: Pass, hub: JournaledHub<F>) -> Result<JournalWorker<F>, Memory>
        requires on_disk { IsOnDisk hub }
        ensures ready { IfOk result (λ w. IsReady w) }
        ensures same { IfOk result (λ w. (w.pass ≡ pass) × (w.hub ≡ hub) × (w.refused ≡ 0)) }
    {
        let Ok(dones) = VecDeque::with_capacity(alloc, MAX_BATCH) else {
            return Err(Memory);
        };
        Ok(JournalWorker {
            pass,
            hub,
            refused: 0,
            dones,
        })
    }

    /// Its pass and its hub.
    pub fn into_parts(self) -> (Pass, JournaledHub<F>)
        ensures pass { result.0 ≡ self.pass }
        ensures hub { result.1 ≡ self.hub }
    {
        let JournalWorker { pass, hub, .. } = self;
        (pass, hub)
    }

    // Makes the call of a job, and keeps its answer until the call is on the disk.
    fn make_call(&mut self, job: Job)
        requires journaled { IsJournaled self.old.hub }
        requires room { deque_len self.old.dones < deque_capacity self.old.dones }
        ensures journaled { IsJournaled self.new.hub }
        ensures answer { (done : Done)
            × IsAnswerTo (history_of self.old.hub) job done (history_of self.new.hub)
            × (self.new.dones.items ≡ self.old.dones.items ++ done ∷ []) }
        ensures journal { journal_of self.new.hub ≡ journal_of self.old.hub }
        ensures pass { self.new.pass ≡ self.old.pass }
        ensures room { deque_capacity self.new.dones ≡ deque_capacity self.old.dones }
        ensures one { self.new.refused < 2 ^ 60
            → length (history_of self.new.hub) + self.new.refused
            ≡ length (history_of self.old.hub) + self.old.refused + 1 }
        ensures before { self.new.refused < 2 ^ 60 → self.old.refused < 2 ^ 60 }
    {
        let Job {
            session,
            index,
            call,
        } = job;
        let answer = self.hub.apply(call);
        self.refused = refused_after(self.refused, answer.is_err());
        self.dones.push_back_reserved(Done {
            session,
            index,
            answer,
        });
    }

    // Makes the call of this job, takes those that are there behind it, and makes their calls.
    fn make_calls<R: Wait>(&mut self, rt: &R, jobs: &JobQueue, first: Job)
        requires journaled { IsJournaled self.old.hub }
        requires room { HasRoom self.old }
        requires own { self.old.pass.inbox ≡ jobs.now.id }
        ensures made { HasMadeCalls first self.old self.new }
    {
        self.make_call(first);
        for _more in 1..MAX_BATCH {
            match jobs.next_if_there(rt, &mut self.pass) {
                Some(job) => self.make_call(job),
                None => return,
            }
        }
    }

    // Waits for a job, makes its call and those of the jobs that are there behind it, puts them on the disk, and only then answers
    // their sessions. Where a signal comes and no job, it does nothing.
    fn answer_batch<R: Wait>(
        &mut self,
        rt: &R,
        jobs: &JobQueue,
        answers: &[AnswerQueue],
    ) -> BatchEnd
        requires ready { IsReady self.old }
        requires own { self.old.pass.inbox ≡ jobs.now.id }
        ensures worked { HasWorked self.old self.new }
        ensures ready { result ≡ BatchEnd.Answered → IsReady self.new }
    {
        let first = match jobs.next(rt, &mut self.pass) {
            Arrival::Job(job) => job,
            Arrival::Signal => return BatchEnd::Answered,
            Arrival::End => return BatchEnd::NoJob,
        };
        self.make_calls(rt, jobs, first);
        match self.hub.sync() {
            Ok(()) => {}
            Err(Failed) => return BatchEnd::Failed,
        }
        self.answer_sessions(rt, answers);
        BatchEnd::Answered
    }

    /// Puts each answer that it keeps into the queue of its session. They are answers to jobs whose calls are all on the disk.
    pub fn answer_sessions<R: Wait>(&mut self, rt: &R, answers: &[AnswerQueue])
        requires { MayAnswer self.old }
        ensures kept { self.new ≡ record self.old { dones = self.new.dones } }
        ensures empty { self.new.dones.items ≡ [] }
        ensures room { deque_capacity self.new.dones ≡ deque_capacity self.old.dones }
    {
        while let Some(done) = self.dones.pop_front() {
            push_to_session(rt, answers, done);
        }
    }
}

impl<F: RawFile + Drop> Work<PendingLook> for JournalWorker<F> {
    ghost pass = { λ w. w.pass };

    ghost can_begin = { IsReady };

    ghost has_worked = { HasWorked };

    fn work<R: Wait>(
        self,
        rt: &R,
        looks: &PendingLook,
        jobs: &JobQueue,
        answers: &[AnswerQueue],
    ) -> JournalWorker<F> {
        let mut worker = self;
        for _ in rt.forever() {
            match worker.answer_batch(rt, jobs, answers) {
                BatchEnd::Answered => looks.answer(rt, &worker.hub),
                BatchEnd::NoJob => break,
                BatchEnd::Failed => {
                    end_answers(answers);
                    break;
                }
            }
        }
        looks.end();
        worker
    }
}

// How many calls met a fault, after a call that met one or met none.
fn refused_after(refused: u64, is_fault: bool) -> u64
    ensures one { result < 2 ^ 60 → result ≡ refused + (if is_fault then 1 else 0) }
    ensures before { result < 2 ^ 60 → refused < 2 ^ 60 }
{
    if is_fault && refused < MAX_REFUSED {
        return refused + 1;
    }
    refused
}

// No answer comes any more: each session ends that waits for one, or puts a job.
fn end_answers(answers: &[AnswerQueue]) {
    for queue in answers {
        queue.end();
    }
}
