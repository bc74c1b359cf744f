//! The lanes: a queue of jobs for each worker.
ghost use Rattle.std.specs.Prelude.{◌≡◌, ◌+◌, ◌%◌, ◌<◌, ◌≤◌, [], ◌∷◌, ◌++◌, length, map, vec_len, sum_by, IfOk};
ghost use Rattle.std.specs.List.{All};
ghost use Rattle.inbox.specs.Rules.{ALL_PARTS};
ghost use Rattle.inbox.specs.States.{new_pass, IsKeptBy};
ghost use Rattle.session_lanes.specs.Lanes.{new_lane, lane_capacity, IsPassOf, EachAt, of_lane, HandsOut, TakesBack, EachLane};

use crate::ends::SessionStart;
use crate::queues::JobQueue;
use crate::room::with_room;
use inbox::{Left, Pass};
use session_lines::WINDOW;
use std::alloc::Global;
use std::marker::Model;
use std::sync::Wait;
use taf_codes::Memory;

// The passes for which a lane has room.
const PASSES: usize = 66;

/// A lane: its queue, the pass that the shift keeps, and the passes that came back.
///
/// Contracts see it as its inbox, how many jobs that holds at most, and these passes. It has room for 66 passes that came back
/// from the start: those of 64 sessions, the worker's and its own.
#[derive(Drop)]
pub struct Lane {
    jobs: JobQueue,
    pass: Pass,
    back: Vec<Pass>,
}

impl Model for Lane {
    ghost use Rattle.std.specs.Prelude.{◌≡◌, ◌≤◌, vec_capacity};
    ghost use Rattle.session_lanes.specs.Lanes.{LaneState};

    ghost Value = { LaneState };

    ghost view = { λ l. record {
      id = l.jobs.id;
      capacity = l.jobs.capacity;
      pass = l.pass;
      back = l.back.items;
    } };

    ghost invariant = { λ l. (l.pass.inbox ≡ l.jobs.id) × (66 ≤ vec_capacity l.back) };
}

impl Lane {
    // A lane for so many jobs, whose pass has every part.
    pub(crate) fn new(rt: &impl Wait, alloc: Global, capacity: usize) -> Result<Lane, Memory>
        requires { (1 ≤ capacity) × (capacity ≤ 1024) }
        ensures { IfOk result (λ l. l ≡ new_lane l.id capacity) }
    {
        let (jobs, pass) = JobQueue::new(rt, alloc, capacity)?;
        let back = with_room(alloc, PASSES)?;
        Ok(Lane { jobs, pass, back })
    }

    /// Its queue.
    pub fn jobs(&self) -> &JobQueue
        ensures { result.now.id ≡ self.now.id }
    {
        &self.jobs
    }

    /// A pass of its own for a session or a worker, with one part of the lane's pass, which has to have two at least.
    pub fn hand_out(&mut self, rt: &impl Wait) -> Pass
        requires { 2 ≤ self.old.pass.parts }
        ensures pass { result ≡ new_pass self.old.id 1 }
        ensures after { HandsOut self.old self.new 1 }
    {
        self.jobs.split_pass(rt, &mut self.pass)
    }

    /// Keeps a pass that came back, behind those that it has, which are fewer than 66. It takes no memory.
    pub fn take_back(&mut self, pass: Pass)
        requires room { length self.old.back < 66 }
        ensures { TakesBack self.old self.new (pass ∷ []) }
    {
        self.back.push_reserved(pass);
    }

    // What the lane still held. It takes no memory.
    pub(crate) fn close(self, rt: &impl Wait) -> Left
        requires own { All (λ p. p.inbox ≡ self.id) self.back }
        requires parts { sum_by (λ p. p.parts) self.back + self.pass.parts ≡ ALL_PARTS }
        requires room { length self.back < 66 }
        ensures { IsKeptBy (self.back ++ self.pass ∷ []) result }
    {
        let Lane { jobs, pass, back } = self;
        let mut passes = back;
        passes.push_reserved(pass);
        jobs.close(rt, passes)
    }
}

/// Makes a lane for each of 1 to 8 workers. Of up to 64 sessions, session `i` falls to lane `i mod workers`, and a lane has a
/// place for each job that its sessions may have out, sixteen for a session. Want of memory is the only error.
pub fn make_lanes(
    rt: &impl Wait,
    alloc: Global,
    workers: usize,
    sessions: usize,
) -> Result<Vec<Lane>, Memory>
    requires workers { (1 ≤ workers) × (workers ≤ 8) }
    requires sessions { sessions ≤ 64 }
    ensures { IfOk result (λ v. (vec_len v ≡ workers)
        × EachAt (λ k l. l ≡ new_lane l.id (lane_capacity k workers sessions)) v.items) }
{
    let mut lanes = Vec::new(alloc);
    for lane in 0..workers {
        let capacity = capacity_of(lane, workers, sessions);
        let lane = Lane::new(rt, alloc, capacity)?;
        lanes.push(lane).map_err(|_| Memory)?;
    }
    Ok(lanes)
}

// How many jobs the sessions of a lane may have out, and one at least.
fn capacity_of(lane: usize, workers: usize, sessions: usize) -> usize
    requires lane { (lane < workers) × (workers ≤ 8) }
    requires sessions { sessions ≤ 64 }
    ensures value { result ≡ lane_capacity lane workers sessions }
    ensures within { (1 ≤ result) × (result ≤ 1024) }
{
    let own_sessions = sessions / workers + usize::from(lane < sessions % workers);
    (WINDOW * own_sessions).max(1)
}

/// Gives up to 64 sessions their numbers, in their order from 0, and session `i` a pass of lane `i mod n`, of one part, where `n`
/// is the number of lanes. Each keeps its reader and its writer.
///
/// There has to be a lane, and the pass that each keeps has to have 1,000 parts at least. Want of memory is the only error, and
/// then the passes that were handed out are lost.
pub fn start_sessions<S: Drop, K: Drop>(
    rt: &impl Wait,
    alloc: Global,
    lanes: &mut [Lane],
    sessions: Vec<(S, K)>,
) -> Result<Vec<SessionStart<S, K>>, Memory>
    requires lanes { (1 ≤ length lanes.old) × EachAt (λ k l. 1000 ≤ l.pass.parts) lanes.old }
    requires sessions { vec_len sessions ≤ 64 }
    ensures count { IfOk result (λ v. vec_len v ≡ vec_len sessions) }
    ensures ends { IfOk result (λ v. map (λ s. (s.reader, s.writer)) v.items ≡ sessions.items) }
    ensures starts { IfOk result (λ v. EachAt (λ i s. (s.session ≡ i)
        × IsPassOf lanes.old (i % length lanes.old) s.pass) v.items) }
    ensures lanes { IfOk result (λ v. EachLane (λ k before after.
        HandsOut before after (length (of_lane k (length lanes.old) 0 v.items)))
        lanes.old lanes.new) }
{
    let mut starts = Vec::new(alloc);
    for (reader, writer) in sessions {
        let session = starts.len();
        let lane = session % lanes.len();
        let pass = lanes[lane].hand_out(rt);
        let start = SessionStart {
            session: session as u32,
            reader,
            writer,
            pass,
        };
        starts.push(start).map_err(|_| Memory)?;
    }
    Ok(starts)
}
