//! Looks at the hub of a journal: others leave a question, and the one worker, who has the hub, answers it between two batches.
ghost use Rattle.std.specs.Prelude.{◌≡◌, IsTrue, IfSome, Vec};
ghost use Rattle.hub_shared.specs.Looks.{AreRefusals};
ghost use Rattle.journaled_hub.specs.JournaledHubs.{IsOnDisk};
ghost use Rattle.journal_workers.specs.Looks.{IsSeen};

use crossbeam_utils::sync::EventCount;
use hub_answers::ShownWagon;
use hub_shared::{
    HubCounts, HubLooks, LookFault, WagonLook, counts_of, look_at_fleet, look_at_refusals,
    look_at_wagon,
};
use journal::RawFile;
use journaled_hub::JournaledHub;
use session_lanes::JobQueue;
use std::alloc::Global;
use std::marker::Model;
use std::mem;
use std::sync::atomic::{AtomicBool, Ordering};
use std::sync::{Mutex, Wait};
use taf_codes::{Memory, Railway};
use taf_messages::Why;
use wagon_number::WagonNumber;

/// What is to be seen of the hub, as [`HubLooks`] has it.
#[derive(Clone, Copy, Debug)]
pub enum Question {
    Counts,
    Fleet {
        by: Railway,
        from: usize,
        most: usize,
    },
    Wagon {
        by: Railway,
        wagon: WagonNumber,
    },
    Refusals {
        alloc: Global,
        from: usize,
        most: usize,
    },
}

/// What was seen.
#[derive(Drop)]
pub enum Seen {
    Counts(HubCounts),
    Fleet(Vec<ShownWagon>),
    Wagon(WagonLook),
    Refusals(Vec<Why>),
    /// Memory was refused.
    NoMemory,
}

/// A question that waits for the worker, or what it saw.
#[derive(Drop)]
pub enum Exchange {
    Nothing,
    Asked(Question),
    Answered(Question, Seen),
}

// The place where a question and its answer are left. Contracts see it as what is there.
#[derive(Drop)]
pub(crate) struct Place {
    exchange: Exchange,
}

impl Model for Place {
    ghost use Rattle.journal_workers.specs.declared.looks.Exchange.{Exchange};
    ghost use Rattle.journal_workers.specs.Looks.{IsFitting};

    ghost Value = { Exchange };

    ghost view = { λ p. p.exchange };

    ghost invariant = { λ p. IsFitting p.exchange };
}

impl Place {
    // Leaves a question. What was there is dropped.
    fn ask(&mut self, question: Question) {
        self.exchange = Exchange::Asked(question);
    }

    // Takes the answer that is there, with its question.
    fn take(&mut self) -> Option<(Question, Seen)>
        ensures { IfSome result (λ r. IsSeen r.0 r.1) }
    {
        match mem::replace(&mut self.exchange, Exchange::Nothing) {
            Exchange::Answered(question, seen) => Some((question, seen)),
            other => {
                self.exchange = other;
                None
            }
        }
    }

    // Answers the question that waits, if there is one.
    fn answer<F: RawFile + Drop>(&mut self, hub: &JournaledHub<F>)
        requires { IsOnDisk hub.now }
    {
        let Some(question) = self.asked() else {
            return;
        };
        let seen = see(hub, &question);
        self.exchange = Exchange::Answered(question, seen);
    }

    // The question that waits.
    fn asked(&self) -> Option<Question> {
        match &self.exchange {
            Exchange::Asked(question) => Some(*question),
            Exchange::Nothing | Exchange::Answered(..) => None,
        }
    }
}

/// What a question asks for, as it is seen of a hub all of whose calls are on the disk.
pub fn see<F: RawFile + Drop>(hub: &JournaledHub<F>, question: &Question) -> Seen
    requires { IsOnDisk hub.now }
    ensures { IsSeen question.now result }
{
    match question {
        Question::Counts => Seen::Counts(counts_of(hub.hub())),
        Question::Fleet { by, from, most } => match look_at_fleet(hub.hub(), *by, *from, *most) {
            Ok(shown) => Seen::Fleet(shown),
            Err(Memory) => Seen::NoMemory,
        },
        Question::Wagon { by, wagon } => match look_at_wagon(hub.hub(), *by, *wagon) {
            Ok(look) => Seen::Wagon(look),
            Err(Memory) => Seen::NoMemory,
        },
        Question::Refusals { alloc, from, most } => {
            match look_at_refusals(*alloc, hub.hub(), *from, *most) {
                Ok(whys) => Seen::Refusals(whys),
                Err(Memory) => Seen::NoMemory,
            }
        }
    }
}

/// Where one thread at a time leaves a question about the hub for its worker, and waits for the answer.
#[derive(Drop)]
pub struct PendingLook {
    place: Mutex<Place>,
    asked: AtomicBool,
    ended: AtomicBool,
    answered: EventCount,
}

impl PendingLook {
    /// No question was left.
    pub fn new() -> PendingLook {
        PendingLook {
            place: Mutex::new(Place {
                exchange: Exchange::Nothing,
            }),
            asked: AtomicBool::new(false),
            ended: AtomicBool::new(false),
            answered: EventCount::new(),
        }
    }

    /// Leaves a question, signals the worker of this queue, and waits until an answer is there, which it gives with its question. There
    /// is none only where the worker has ended.
    pub fn ask<R: Wait>(
        &self,
        rt: &R,
        jobs: &JobQueue,
        question: Question,
    ) -> Option<(Question, Seen)>
        ensures { IfSome result (λ r. IsSeen r.0 r.1) }
    {
        self.place.lock(rt).ask(question);
        self.asked.store(true, Ordering::SeqCst);
        jobs.signal();
        for _ in rt.forever() {
            let waiting = self.answered.prepare_wait();
            let last = self.ended.load(Ordering::SeqCst);
            let seen = self.place.lock(rt).take();
            if seen.is_some() || last {
                return seen;
            }
            waiting.wait(rt);
        }
        unreachable!()
    }

    /// Answers the question that waits, if there is one. All calls of the hub have to be on the disk.
    pub fn answer<F: RawFile + Drop, R: Wait>(&self, rt: &R, hub: &JournaledHub<F>)
        requires { IsOnDisk hub.now }
    {
        if self.asked.swap(false, Ordering::SeqCst) {
            self.place.lock(rt).answer(hub);
            self.answered.notify_all();
        }
    }

    /// No question is answered any more.
    pub fn end(&self) {
        self.ended.store(true, Ordering::SeqCst);
        self.answered.notify_all();
    }
}

/// Looks at the hub of a journal by its worker, whose queue this is.
#[derive(Drop)]
pub struct JournalLooks<'x, R> {
    pub rt: &'x R,
    pub pending: &'x PendingLook,
    pub jobs: &'x JobQueue,
}

impl<'x, R: Wait> HubLooks for JournalLooks<'x, R> {
    fn counts(&self) -> Result<HubCounts, LookFault> {
        match self.pending.ask(self.rt, self.jobs, Question::Counts) {
            Some((Question::Counts, Seen::Counts(counts))) => Ok(counts),
            Some((_, Seen::NoMemory)) => Err(LookFault::Memory),
            _ => Err(LookFault::Ended),
        }
    }

    fn fleet(&self, by: Railway, from: usize, most: usize) -> Result<Vec<ShownWagon>, LookFault> {
        let question = Question::Fleet { by, from, most };
        let Some((asked, seen)) = self.pending.ask(self.rt, self.jobs, question) else {
            return Err(LookFault::Ended);
        };
        match seen {
            Seen::Fleet(shown) => {
                if is_of_fleet(&asked, by, from, most) {
                    return Ok(shown);
                }
                Err(LookFault::Ended)
            }
            Seen::NoMemory => Err(LookFault::Memory),
            Seen::Counts(_) | Seen::Wagon(_) | Seen::Refusals(_) => Err(LookFault::Ended),
        }
    }

    fn wagon(&self, by: Railway, wagon: WagonNumber) -> Result<WagonLook, LookFault> {
        let question = Question::Wagon { by, wagon };
        let Some((asked, seen)) = self.pending.ask(self.rt, self.jobs, question) else {
            return Err(LookFault::Ended);
        };
        match seen {
            Seen::Wagon(look) => {
                if is_of_wagon(&asked, by, wagon) {
                    return Ok(look);
                }
                Err(LookFault::Ended)
            }
            Seen::NoMemory => Err(LookFault::Memory),
            Seen::Counts(_) | Seen::Fleet(_) | Seen::Refusals(_) => Err(LookFault::Ended),
        }
    }

    fn refusals(&self, alloc: Global, from: usize, most: usize) -> Result<Vec<Why>, LookFault> {
        let question = Question::Refusals { alloc, from, most };
        let Some((asked, seen)) = self.pending.ask(self.rt, self.jobs, question) else {
            return Err(LookFault::Ended);
        };
        match seen {
            Seen::Refusals(whys) => {
                if is_of_refusals(&asked, from, most) {
                    return Ok(whys);
                }
                Err(LookFault::Ended)
            }
            Seen::NoMemory => Err(LookFault::Memory),
            Seen::Counts(_) | Seen::Fleet(_) | Seen::Wagon(_) => Err(LookFault::Ended),
        }
    }
}

// Whether this is the question for such a part of the fleet.
fn is_of_fleet(question: &Question, by: Railway, from: usize, most: usize) -> bool
    ensures { IsTrue result → question.now ≡ Question.Fleet by from most }
{
    match question {
        Question::Fleet {
            by: whose,
            from: first,
            most: count,
        } => *whose == by && *first == from && *count == most,
        _ => false,
    }
}

// Whether this is the question for such a wagon.
fn is_of_wagon(question: &Question, by: Railway, wagon: WagonNumber) -> bool
    ensures { IsTrue result → question.now ≡ Question.Wagon by wagon }
{
    match question {
        Question::Wagon {
            by: whose,
            wagon: which,
        } => *whose == by && *which == wagon,
        _ => false,
    }
}

// Whether this is the question for the refusals of such a part of the history.
fn is_of_refusals(question: &Question, from: usize, most: usize) -> bool
    ensures { IsTrue result → (whys : Vec Why Global)
        → IsSeen question.now (Seen.Refusals whys) → AreRefusals from most whys.items }
{
    match question {
        Question::Refusals {
            alloc: _,
            from: first,
            most: count,
        } => *first == from && *count == most,
        _ => false,
    }
}
