//! The queues between sessions and workers, where their threads sleep while there is nothing to take.
ghost use Rattle.std.specs.Prelude.{◌≡◌, ◌-◌, ◌≤◌, sum_by, false, IfOk, IfErr, IfSome, IfNone, OnOk, OnErr};
ghost use Rattle.std.specs.List.{All};
ghost use Rattle.inbox.specs.Rules.{ALL_PARTS};
ghost use Rattle.inbox.specs.States.{new_pass, after_put, after_take, HeldSoMany, IsKeptBy};
ghost use Rattle.session_lanes.specs.Arrivals.{HasArrived, is_job};

use crossbeam_queue::ArrayQueue;
use crossbeam_utils::sync::EventCount;
use inbox::{Inbox, Job, Left, Pass};
use session_lines::{Done, WINDOW};
use std::alloc::Global;
use std::marker::Model;
use std::sync::Wait;
use std::sync::atomic::{AtomicBool, AtomicU64, Ordering};
use std::thread;
use taf_codes::Memory;

// How often a thread lets others run before it sleeps.
const YIELDS: u64 = 4;

/// What comes to the worker of a lane.
#[derive(Debug, PartialEq, Eq, Drop)]
pub enum Arrival {
    /// The job that was put first.
    Job(Job),
    /// A signal, while no job was there.
    Signal,
    /// Nothing any more: the queue was ended, and is empty.
    End,
}

/// The jobs of a lane on their way to its worker, which sleeps while there is none.
///
/// Contracts see it as its inbox.
#[derive(Drop)]
pub struct JobQueue {
    inbox: Inbox,
    arrived: EventCount,
    signalled: AtomicBool,
    ended: AtomicBool,
}

impl Model for JobQueue {
    ghost use Rattle.inbox.specs.States.{InboxState};

    ghost Value = { InboxState };

    ghost view = { λ q. q.inbox };
}

impl JobQueue {
    /// An empty queue for up to `capacity` jobs, 1 to 1,024, and its first pass, which has every part.
    pub fn new(rt: &impl Wait, alloc: Global, capacity: usize) -> Result<(JobQueue, Pass), Memory>
        requires { (1 ≤ capacity) × (capacity ≤ 1024) }
        ensures capacity { IfOk result (λ r. r.0.capacity ≡ capacity) }
        ensures pass { IfOk result (λ r. r.1 ≡ new_pass r.0.id ALL_PARTS) }
    {
        let (inbox, pass) = Inbox::new(rt, alloc, capacity)?;
        let jobs = JobQueue {
            inbox,
            arrived: EventCount::new(),
            signalled: AtomicBool::new(false),
            ended: AtomicBool::new(false),
        };
        Ok((jobs, pass))
    }

    /// A pass of its own, with one part of the other, which has to have two at least. It put and took nothing.
    pub fn split_pass(&self, rt: &impl Wait, pass: &mut Pass) -> Pass
        requires own { pass.old.inbox ≡ self.now.id }
        requires parts { 2 ≤ pass.old.parts }
        ensures new { result ≡ new_pass self.now.id 1 }
        ensures old { pass.new ≡ record pass.old { parts = pass.old.parts - 1 } }
    {
        match self.inbox.split_pass(rt, pass) {
            Ok(other) => other,
            Err(Memory) => unreachable!(),
        }
    }

    /// Puts a job, and wakes the worker where it sleeps. The job comes back as [`Inbox::put`] says, and then nothing has
    /// changed.
    pub fn put<R: Wait>(&self, rt: &R, pass: &mut Pass, job: Job) -> Result<(), Job>
        requires own { pass.old.inbox ≡ self.now.id }
        ensures put { OnOk result (pass.new ≡ after_put pass.old job) }
        ensures back { IfErr result (λ back. back ≡ job) }
        ensures unchanged { OnErr result (pass.new ≡ pass.old) }
        ensures full { OnErr result (HeldSoMany self.now.capacity pass.old) }
    {
        self.inbox.put(rt, pass, job)?;
        self.arrived.notify_one();
        Ok(())
    }

    // The job that was put first, if it is there, or comes while others run.
    fn take_soon<R: Wait>(&self, rt: &R, pass: &mut Pass) -> Option<Job>
        requires own { pass.old.inbox ≡ self.now.id }
        ensures taken { IfSome result (λ job. pass.new ≡ after_take pass.old job) }
        ensures none { IfNone result (pass.new ≡ pass.old) }
    {
        for _ in 0..YIELDS {
            if let Some(job) = self.inbox.take(rt, pass) {
                return Some(job);
            }
            thread::yield_now();
        }
        None
    }

    /// The job that was put first, or else a signal that was given. It sleeps while there is neither, once it has let others run a few
    /// times. The end comes once the queue was ended and is found empty; there is no job only where it was empty, as [`Inbox::take`]
    /// says.
    pub fn next<R: Wait>(&self, rt: &R, pass: &mut Pass) -> Arrival
        requires own { pass.old.inbox ≡ self.now.id }
        ensures arrived { HasArrived result pass.old pass.new }
        ensures empty { is_job result ≡ false → HeldSoMany 0 pass.old }
    {
        if let Some(job) = self.take_soon(rt, pass) {
            return Arrival::Job(job);
        }
        for _ in rt.forever() {
            let waiting = self.arrived.prepare_wait();
            let last = self.ended.load(Ordering::SeqCst);
            match self.inbox.take(rt, pass) {
                Some(job) => return Arrival::Job(job),
                None if last => return Arrival::End,
                None => {}
            }
            if self.signalled.swap(false, Ordering::SeqCst) {
                return Arrival::Signal;
            }
            waiting.wait(rt);
        }
        unreachable!()
    }

    /// Gives the worker a signal, which wakes it where it sleeps. Signals that were not taken yet are one.
    pub fn signal(&self) {
        self.signalled.store(true, Ordering::SeqCst);
        self.arrived.notify_one();
    }

    /// The job that was put first, if one is there. It does not wait for one; none is there only where the queue was empty, as
    /// [`Inbox::take`] says.
    pub fn next_if_there<R: Wait>(&self, rt: &R, pass: &mut Pass) -> Option<Job>
        requires own { pass.old.inbox ≡ self.now.id }
        ensures taken { IfSome result (λ job. pass.new ≡ after_take pass.old job) }
        ensures none { IfNone result (pass.new ≡ pass.old) }
        ensures empty { IfNone result (HeldSoMany 0 pass.old) }
    {
        self.inbox.take(rt, pass)
    }

    /// No job comes any more: the worker that finds the queue empty ends.
    pub fn end(&self) {
        self.ended.store(true, Ordering::SeqCst);
        self.arrived.notify_all();
    }

    /// Takes all passes back, and gives what is left, as [`Inbox::close`] does.
    pub fn close(self, rt: &impl Wait, passes: Vec<Pass>) -> Left
        requires own { All (λ p. p.inbox ≡ self.id) passes.items }
        requires all { sum_by (λ p. p.parts) passes.items ≡ ALL_PARTS }
        ensures { IsKeptBy passes.items result }
    {
        let JobQueue { inbox, .. } = self;
        inbox.close(rt, passes)
    }
}

/// The answers to the jobs of one session, whose thread sleeps while there is none. It has a place for each job that may
/// be out.
#[derive(Drop)]
pub struct AnswerQueue {
    answers: ArrayQueue<Done>,
    // For how many answers the session sleeps, where it does.
    awaited: AtomicU64,
    arrived: EventCount,
    ended: AtomicBool,
}

impl AnswerQueue {
    /// An empty queue for sixteen answers.
    pub fn new(alloc: Global) -> Result<AnswerQueue, Memory> {
        let answers = ArrayQueue::new(alloc, WINDOW).map_err(|_| Memory)?;
        Ok(AnswerQueue {
            answers,
            awaited: AtomicU64::new(1),
            arrived: EventCount::new(),
            ended: AtomicBool::new(false),
        })
    }

    /// Puts an answer, and wakes the session where it sleeps until so many are there. One that comes to a full queue is dropped.
    pub fn push<R: Wait>(&self, rt: &R, done: Done) {
        let _ = self.answers.push(rt, done);
        if self.has(rt, self.awaited.load(Ordering::SeqCst)) {
            self.arrived.notify_one();
        }
    }

    /// The answer that was put first. It sleeps while there is none; none comes once the queue was ended and is found empty.
    pub fn next<R: Wait>(&self, rt: &R) -> Option<Done> {
        for _ in rt.forever() {
            let last = self.has_ended();
            let done = self.answers.pop(rt);
            if done.is_some() || last {
                return done;
            }
            self.wait_for(rt, 1);
        }
        unreachable!()
    }

    /// Whether so many answers are there.
    pub fn has<R: Wait>(&self, rt: &R, count: u64) -> bool {
        self.answers.len(rt) as u64 >= count
    }

    /// Waits until so many answers are there, or until the queue was ended. It sleeps once it has let others run a few times.
    pub fn wait_for<R: Wait>(&self, rt: &R, count: u64) {
        if self.come_soon(rt, count) {
            return;
        }
        self.awaited.store(count, Ordering::SeqCst);
        for _ in rt.forever() {
            let waiting = self.arrived.prepare_wait();
            if self.has(rt, count) || self.has_ended() {
                return;
            }
            waiting.wait(rt);
        }
    }

    // Whether so many answers come while others run.
    fn come_soon<R: Wait>(&self, rt: &R, count: u64) -> bool {
        for _ in 0..YIELDS {
            thread::yield_now();
            if self.has(rt, count) {
                return true;
            }
        }
        false
    }

    /// Whether the queue was ended.
    pub fn has_ended(&self) -> bool {
        self.ended.load(Ordering::SeqCst)
    }

    /// No answer comes any more: the session that waits for one gets none.
    pub fn end(&self) {
        self.ended.store(true, Ordering::SeqCst);
        self.arrived.notify_all();
    }
}

/// The signal for which the sessions wait: they begin once all threads are there, or never.
#[derive(Drop)]
pub struct Opening {
    decided: AtomicBool,
    begins: AtomicBool,
    changed: EventCount,
}

impl Opening {
    /// Nothing is decided yet.
    pub fn new() -> Opening {
        Opening {
            decided: AtomicBool::new(false),
            begins: AtomicBool::new(false),
            changed: EventCount::new(),
        }
    }

    /// Tells the sessions whether they begin.
    pub fn decide(&self, begins: bool) {
        self.begins.store(begins, Ordering::SeqCst);
        self.decided.store(true, Ordering::SeqCst);
        self.changed.notify_all();
    }

    /// Whether the sessions begin. It sleeps until that is decided.
    pub fn wait<R: Wait>(&self, rt: &R) -> bool {
        for _ in rt.forever() {
            let waiting = self.changed.prepare_wait();
            if self.decided.load(Ordering::SeqCst) {
                return self.begins.load(Ordering::SeqCst);
            }
            waiting.wait(rt);
        }
        unreachable!()
    }
}

/// Puts an answer into the queue of its session, the one at the session's place. Where there is none it is dropped.
pub fn push_to_session<R: Wait>(rt: &R, answers: &[AnswerQueue], done: Done) {
    if let Some(queue) = answers.get(done.session as usize) {
        queue.push(rt, done);
    }
}
