//! Jobs that one thread puts and another takes: through an inbox, and through a plain queue of as many places.
ghost use Rattle.std.specs.Prelude.{◌≡◌};

use crate::measured::Measured;
use crate::samples;
use anyhow::Result;
use crossbeam_queue::ArrayQueue;
use inbox::{Inbox, Job, Pass};
use std::alloc::Global;
use std::sync::Wait;
use std::thread;
use std::thread::Threads;
use std::time::{Clock, Instant};
use taf_codes::Railway;
use taf_messages::Call;
use wagon_number::WagonNumber;

// How many jobs a queue holds at most.
const PLACES: usize = 16;

// What all jobs ask: one railway, of one wagon.
#[derive(Drop)]
struct Question {
    by: Railway,
    wagon: WagonNumber,
}

impl Question {
    fn new() -> Result<Question> {
        Ok(Question {
            by: Railway::read("R100")?,
            wagon: samples::wagon()?,
        })
    }

    // The job of this number.
    fn job(&self, index: u64) -> Job {
        Job {
            session: 0,
            index,
            call: Call::Ask {
                by: self.by,
                wagon: self.wagon,
            },
        }
    }
}

// Puts so many jobs, each again and again while the inbox is full.
fn put_all<R: Wait>(rt: &R, inbox: &Inbox, pass: Pass, question: &Question, count: u64)
    requires { pass.inbox ≡ inbox.now.id }
{
    let mut pass = pass;
    let mut index = 0;
    for _ in rt.forever() {
        if index >= count {
            return;
        }
        match inbox.put(rt, &mut pass, question.job(index)) {
            Ok(()) => index += 1,
            Err(_) => thread::yield_now(),
        }
    }
}

// Takes so many jobs.
fn take_all<R: Wait>(rt: &R, inbox: &Inbox, pass: Pass, count: u64)
    requires { pass.inbox ≡ inbox.now.id }
{
    let mut pass = pass;
    let mut index = 0;
    for _ in rt.forever() {
        if index >= count {
            return;
        }
        match inbox.take(rt, &mut pass) {
            Some(_) => index += 1,
            None => thread::yield_now(),
        }
    }
}

// Pushes so many jobs into a plain queue.
fn push_all<R: Wait>(rt: &R, queue: &ArrayQueue<Job>, question: &Question, count: u64) {
    let mut index = 0;
    for _ in rt.forever() {
        if index >= count {
            return;
        }
        match queue.push(rt, question.job(index)) {
            Ok(()) => index += 1,
            Err(_) => thread::yield_now(),
        }
    }
}

// Pops so many jobs.
fn pop_all<R: Wait>(rt: &R, queue: &ArrayQueue<Job>, count: u64) {
    let mut index = 0;
    for _ in rt.forever() {
        if index >= count {
            return;
        }
        match queue.pop(rt) {
            Some(_) => index += 1,
            None => thread::yield_now(),
        }
    }
}

/// Jobs through an inbox.
pub(crate) fn through_inbox<R: Threads + Wait + Clock + Sync>(
    rt: &R,
    alloc: Global,
    count: u64,
) -> Result<Measured> {
    let asked = Question::new()?;
    let question = &asked;
    let (inbox, mut pass) = Inbox::new(rt, alloc, PLACES)?;
    let taking = inbox.split_pass(rt, &mut pass)?;
    let lane = &inbox;
    let start = Instant::now(rt)?;
    thread::join(
        rt,
        move ||
            requires { pass.inbox ≡ lane.now.id }
        { put_all(rt, lane, pass, question, count) },
        move ||
            requires { taking.inbox ≡ lane.now.id }
        { take_all(rt, lane, taking, count) },
    );
    Measured::since(rt, start, count)
}

/// Jobs through a plain queue.
pub(crate) fn through_plain_queue<R: Threads + Wait + Clock + Sync>(
    rt: &R,
    alloc: Global,
    count: u64,
) -> Result<Measured> {
    let asked = Question::new()?;
    let question = &asked;
    let queue = ArrayQueue::new(alloc, PLACES)?;
    let lane = &queue;
    let start = Instant::now(rt)?;
    thread::join(
        rt,
        move || push_all(rt, lane, question, count),
        move || pop_all(rt, lane, count),
    );
    Measured::since(rt, start, count)
}
