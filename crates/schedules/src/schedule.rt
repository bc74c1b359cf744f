//! One schedule.

use crate::counts::Counts;
use crate::draws::Draws;
use crate::fault::ScheduleFault;
use crate::first_replies::FirstReplies;
use crate::lane::Lane;
use crate::lines::SessionLines;
use crate::scarcity::Scarcity;
use crate::scheduled_handler::ScheduledHandler;
use hub_core::Hub;
use hub_shared::{SettleFault, Tally, settle};
use inbox::Job;
use session_lines::Done;
use std::alloc::Global;
use std::collections::VecDeque;
use taf_codes::Memory;

// How many handlers and workers there are at most.
const MOST_HANDLERS: usize = 64;

const MOST_WORKERS: usize = 8;

// How many rounds are enough for all that is left.
const MOST_ROUNDS: usize = 1_000_000;

// Counts one more, if there is.
fn raise(count: &mut u64, is_more: bool) {
    *count = count.saturating_add(u64::from(is_more));
}

/// Handlers and workers that take turns. The hub lies on the heap, since what owns one itself takes the prover long.
#[derive(Drop)]
pub(crate) struct Schedule<'b> {
    alloc: Global,
    draws: Draws,
    scarcity: Scarcity<'b>,
    hub: Box<Hub>,
    handlers: Vec<ScheduledHandler>,
    lanes: Vec<Lane>,
    /// What railways send again that come back, once a handler is free.
    returning: VecDeque<SessionLines>,
    /// So many turns of four are those of workers.
    worker_turns: usize,
    /// One turn of a session in so many ends it before its lines do. None does where this is 0.
    ending_odds: usize,
    counts: Counts,
}

impl<'b> Schedule<'b> {
    /// Draws handlers with their sessions, and lanes with their places.
    pub(crate) fn new(
        alloc: Global,
        draws: Draws,
        scarcity: Scarcity<'b>,
    ) -> Result<Schedule<'b>, Memory> {
        let mut draws = draws;
        let mut handlers = Vec::new(alloc);
        for id in 0..draws.below(MOST_HANDLERS) + 1 {
            handlers.push(ScheduledHandler::draw(alloc, id as u32, &mut draws)?)?;
        }
        let mut lanes = Vec::new(alloc);
        for _ in 0..draws.below(MOST_WORKERS) + 1 {
            lanes.push(Lane::new(alloc, 1 + draws.below(MOST_HANDLERS)))?;
        }
        Ok(Schedule {
            alloc,
            scarcity,
            hub: Box::new(alloc, Hub::new(alloc)?)?,
            handlers,
            lanes,
            returning: VecDeque::new(alloc),
            worker_turns: 1 + draws.below(3),
            ending_odds: 50 * draws.below(4),
            draws,
            counts: Counts::default(),
        })
    }

    // The lane of a handler's session puts its job, if one waits and there is a place. None where no job waits.
    fn put(&mut self, handler: usize) -> Result<Option<bool>, Memory> {
        let lane = match self.lanes.len() {
            0 => 0,
            lanes => handler % lanes,
        };
        let (Some(handler), Some(lane)) = (self.handlers.get_mut(handler), self.lanes.get_mut(lane))
        else {
            return Ok(None);
        };
        if !handler.session.is_waiting() {
            return Ok(None);
        }
        let is_put = handler.session.put(lane)?;
        raise(&mut self.counts.full_lanes, !is_put);
        Ok(Some(is_put))
    }

    // The connection of a session breaks. Every other railway comes back. Whether it broke.
    fn break_off(&mut self, handler: usize) -> Result<bool, Memory> {
        let Some(handler) = self.handlers.get_mut(handler) else {
            return Ok(false);
        };
        let Some(again) = handler.session.break_off(self.alloc, &mut self.draws)? else {
            return Ok(false);
        };
        raise(&mut self.counts.broken_off, true);
        if self.draws.once_in(2) {
            self.returning.push_back(again)?;
        }
        Ok(true)
    }

    // A session ends before its lines do: its connection breaks, its port fails, or a stranger's answer comes.
    fn end_early(&mut self, handler: usize) -> Result<bool, Memory> {
        let way = self.draws.below(8);
        if way > 2 {
            return self.break_off(handler);
        }
        let Some(handler) = self.handlers.get_mut(handler) else {
            return Ok(false);
        };
        if way == 0 {
            let is_broken = handler.session.fail_port();
            raise(&mut self.counts.broken, is_broken);
            return Ok(is_broken);
        }
        let is_stranger = handler.session.take_stranger(way == 1)?;
        raise(&mut self.counts.strangers, is_stranger);
        Ok(is_stranger)
    }

    // A handler that is free takes the next connection: that of a railway that comes back, or else of one that is drawn. Whether
    // it did.
    fn take_connection(&mut self, handler: usize) -> Result<bool, Memory> {
        let Some(handler) = self.handlers.get_mut(handler) else {
            return Ok(false);
        };
        if !handler.is_free() {
            return Ok(false);
        }
        let again = self.returning.pop_front();
        raise(&mut self.counts.returned, again.is_some());
        let lines = match again {
            Some(lines) => lines,
            None => SessionLines::draw(self.alloc, &mut self.draws)?,
        };
        handler.go_on(self.alloc, lines)?;
        Ok(true)
    }

    // A turn of a handler. Whether it did anything.
    fn take_turn(&mut self, handler: usize) -> Result<bool, Memory> {
        if let Some(is_put) = self.put(handler)? {
            return Ok(is_put);
        }
        if self.ending_odds > 0 && self.draws.once_in(self.ending_odds) {
            return self.end_early(handler);
        }
        let way = self.draws.below(4);
        if self.take_connection(handler)? {
            return Ok(true);
        }
        let Some(handler) = self.handlers.get_mut(handler) else {
            return Ok(false);
        };
        match way {
            0 | 1 => handler.session.read(&mut self.draws, &mut self.scarcity),
            2 => handler.session.take(&mut self.draws, &mut self.scarcity),
            _ => handler.session.say_held(),
        }
    }

    // A handler goes on in whatever way it can. Whether it can.
    fn go_on(&mut self, handler: usize) -> Result<bool, Memory> {
        if let Some(is_put) = self.put(handler)? {
            return Ok(is_put);
        }
        if self.take_connection(handler)? {
            return Ok(true);
        }
        let Some(handler) = self.handlers.get_mut(handler) else {
            return Ok(false);
        };
        let session = &mut handler.session;
        Ok(
            session.say_held()?
                || session.take(&mut self.draws, &mut self.scarcity)?
                || session.read(&mut self.draws, &mut self.scarcity)?,
        )
    }

    // The hub answers a job.
    fn answer(&mut self, job: Job) -> Done {
        let Job {
            session,
            index,
            call,
        } = job;
        self.scarcity.begin(&mut self.draws);
        let answer = self.hub.apply(call);
        self.scarcity.end();
        raise(&mut self.counts.refusals, answer.is_err());
        Done {
            session,
            index,
            answer,
        }
    }

    // A turn of a worker. Whether it had a job.
    fn work(&mut self, worker: usize) -> Result<bool, Memory> {
        let Some(job) = self.lanes.get_mut(worker).and_then(Lane::take) else {
            return Ok(false);
        };
        let done = self.answer(job);
        if let Some(handler) = self.handlers.get_mut(done.session as usize) {
            handler.session.arrive(done)?;
        }
        Ok(true)
    }

    // Handlers and workers take turns that are drawn.
    fn take_turns(&mut self) -> Result<(), Memory> {
        let (handlers, workers) = (self.handlers.len(), self.lanes.len());
        if handlers == 0 || workers == 0 {
            return Ok(());
        }
        for _ in 0..self.draws.below(200).saturating_mul(handlers) {
            if self.draws.below(4) < self.worker_turns {
                let worker = self.draws.below(workers);
                self.work(worker)?;
            } else {
                let handler = self.draws.below(handlers);
                self.take_turn(handler)?;
            }
        }
        Ok(())
    }

    // All handlers go on as they can, and all workers. Whether any did anything.
    fn run_round(&mut self) -> Result<bool, Memory> {
        let mut has_done = false;
        for handler in 0..self.handlers.len() {
            has_done |= self.go_on(handler)?;
        }
        for worker in 0..self.lanes.len() {
            has_done |= self.work(worker)?;
        }
        Ok(has_done)
    }

    /// Runs it: turns that are drawn, and then rounds until nothing is left to be done.
    pub(crate) fn run(&mut self) -> Result<(), ScheduleFault> {
        self.take_turns()?;
        for _ in 0..MOST_ROUNDS {
            if !self.run_round()? {
                break;
            }
        }
        if self.handlers.iter().all(ScheduledHandler::has_ended) {
            Ok(())
        } else {
            Err(ScheduleFault::Stuck)
        }
    }

    /// Fails unless each session said what it says in lock step, the tallies settle, and each message has one reply.
    pub(crate) fn check(self) -> Result<Counts, ScheduleFault> {
        let Schedule {
            alloc,
            hub,
            handlers,
            mut counts,
            ..
        } = self;
        let mut tallies = Vec::new(alloc);
        let mut replies = FirstReplies::new(alloc);
        let mut is_told = true;
        counts.handlers = handlers.len() as u64;
        counts.calls = hub.len() as u64;
        for handler in handlers {
            is_told &= handler.is_told();
            let tally = handler.check(alloc, &mut counts, &mut replies)?;
            if tallies.push(tally).is_err() {
                return Err(ScheduleFault::Memory);
            }
        }
        check_settling(alloc, &hub, tallies.as_slice(), is_told)?;
        Ok(counts)
    }
}

// Fails unless the tallies settle where each answer was told, and else have too few entries.
fn check_settling(
    alloc: Global,
    hub: &Hub,
    tallies: &[Tally],
    is_told: bool,
) -> Result<(), ScheduleFault> {
    match settle(alloc, hub, 0, tallies) {
        Ok(settled) if is_told && settled.calls == hub.len() as u64 => Ok(()),
        Err(SettleFault::CountDiffers { history, told })
            if !is_told && history == hub.len() as u64 && told < u128::from(history) => { Ok(()) }
        Err(SettleFault::Memory) => Err(ScheduleFault::Memory),
        _ => Err(ScheduleFault::Settling),
    }
}
