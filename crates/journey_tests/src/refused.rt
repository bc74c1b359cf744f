//! Each growth refused in turn: of a track, and of a record.
ghost use Rattle.std.specs.Prelude.{◌≡◌, true};
ghost use Rattle.journey.specs.Stages.{is_plan};

use crate::script::{event, planned, wagon};
use eti_chain::Estimates;
use journey::{Event, Track};
use memory_limit::MemoryLimit;
use std::alloc::Global;
use std::test::Fail;
use taf_codes::Railway;
use taf_messages::Record;
use trip_plan::Load;
use wimo::record_of;

static LINES: [&str; 5] = [
    "R100 2 05:30 release",
    "R101 1 06:00 depart",
    "R101 2 10:40 yard_in AT00002",
    "R101 6 10:50 offer AT00002 R102",
    "R102 1 11:10 receive AT00002",
];

static LEGS: &str = "R101:DE00001:AT00002:300 R102:AT00002:IT00003:240";

// So many bytes as no track and no record of these lines need.
const AMPLE: usize = 1 << 16;

// Room for more events than a row has at first: once this memory is free, no row is given it.
const MANY: usize = 64;

// What is left, how often memory was refused, and what was made so far: it is kept, so that its memory is not used again.
#[derive(Drop)]
struct Scarcity {
    memory_limit: MemoryLimit,
    refused: u32,
    tracks: Vec<Track>,
    records: Vec<Record>,
}

impl Scarcity {
    // Memory was refused: there is enough from here on.
    fn end(&mut self) {
        self.refused = self.refused.saturating_add(1);
        self.memory_limit.release();
    }

    fn open(&mut self, alloc: Global, plan: Event) -> Result<Track, Fail>
        requires { is_plan plan.body ≡ true }
    {
        let one = wagon("218124712173")?;
        if let Ok(track) = Track::open(alloc, one, plan) {
            return Ok(track);
        }
        self.end();
        let again = planned(alloc, Load::Loaded, &[one], LEGS)?;
        Ok(Track::open(alloc, one, again)?)
    }

    fn add(
        &mut self,
        alloc: Global,
        track: &mut Track,
        next: Event,
        line: &str,
    ) -> Result<(), Fail> {
        if track.admits(&next).is_some() {
            return Err(Fail::new("refused by a check"));
        }
        let before = track.events().len();
        let Err(_) = track.add(next) else {
            return Ok(());
        };
        self.end();
        if track.events().len() != before {
            return Err(Fail::new("changed without memory"));
        }
        let again = event(alloc, line)?;
        if track.admits(&again).is_some() {
            return Err(Fail::new("refused by a check afterwards"));
        }
        Ok(track.add(again)?)
    }

    fn record(&mut self, alloc: Global, track: &Track) -> Result<Record, Fail> {
        if !Estimates::fits(track) {
            return Err(Fail::new("past the calendar"));
        }
        if let Ok(shown) = record_of(alloc, track) {
            return Ok(shown);
        }
        self.end();
        Ok(record_of(alloc, track)?)
    }

    // Adds the events, the last of them first.
    fn add_all(
        &mut self,
        alloc: Global,
        track: &mut Track,
        events: Vec<Event>,
    ) -> Result<(), Fail> {
        let mut events = events;
        for line in &LINES {
            let Some(next) = events.pop() else {
                return Err(Fail::new("no event"));
            };
            self.add(alloc, track, next, line)?;
        }
        Ok(())
    }

    // The track of the journey, where so many bytes are left for it.
    fn track(&mut self, alloc: Global, left: usize) -> Result<Track, Fail> {
        let plan = planned(alloc, Load::Loaded, &[wagon("218124712173")?], LEGS)?;
        let events = last_first(alloc)?;
        self.memory_limit.limit_to(left)?;
        let mut track = self.open(alloc, plan)?;
        self.add_all(alloc, &mut track, events)?;
        self.memory_limit.release();
        Ok(track)
    }

    // The record of the journey, where so many bytes are left for the track, and so many for the record.
    fn journey(
        &mut self,
        alloc: Global,
        for_track: usize,
        for_record: usize,
    ) -> Result<Record, Fail> {
        let track = self.track(alloc, for_track)?;
        self.memory_limit.limit_to(for_record)?;
        let shown = self.record(alloc, &track)?;
        self.memory_limit.release();
        self.tracks.push(track)?;
        Ok(shown)
    }

    // Whether so many bytes are enough. Fails unless the record is this one.
    fn is_enough(
        &mut self,
        alloc: Global,
        for_track: usize,
        for_record: usize,
        wanted: &Record,
    ) -> Result<bool, Fail> {
        self.refused = 0;
        let shown = self.journey(alloc, for_track, for_record)?;
        if shown != *wanted {
            return Err(Fail::new("another record"));
        }
        self.records.push(shown)?;
        Ok(self.refused == 0)
    }

    // How many budgets for the track aren't enough, each of sixteen bytes more than the one before.
    fn track_budgets(&mut self, alloc: Global, wanted: &Record) -> Result<usize, Fail> {
        for transition in 0..4000usize {
            if self.is_enough(alloc, transition * 16, AMPLE, wanted)? {
                return Ok(transition);
            }
        }
        Err(Fail::new("always refused"))
    }

    // How many budgets for the record aren't enough.
    fn record_budgets(&mut self, alloc: Global, wanted: &Record) -> Result<usize, Fail> {
        for transition in 0..4000usize {
            if self.is_enough(alloc, AMPLE, transition * 16, wanted)? {
                return Ok(transition);
            }
        }
        Err(Fail::new("always refused"))
    }
}

// The events of the lines, the last one first.
fn last_first(alloc: Global) -> Result<Vec<Event>, Fail> {
    let mut events = Vec::with_capacity(alloc, MANY)?;
    for line in &LINES {
        events.push(event(alloc, line)?)?;
    }
    events.reverse();
    Ok(events)
}

#[test]
fn each_growth_is_refused_in_turn(rt: HostRuntime) -> Result<(), Fail> {
    let memory_limit = MemoryLimit::new(rt.alloc())?;
    let mut scarcity = Scarcity {
        memory_limit,
        refused: 0,
        tracks: Vec::new(rt.alloc()),
        records: Vec::new(rt.alloc()),
    };
    let wanted = scarcity.journey(rt.alloc(), AMPLE, AMPLE)?;
    assert!(rt; scarcity.refused == 0);
    assert!(rt; wanted.responsible == Some(Railway::read("R102")?));
    assert!(rt; wanted.events.as_slice().len() == 6);
    assert!(rt; scarcity.track_budgets(rt.alloc(), &wanted)? > 0);
    assert!(rt; scarcity.record_budgets(rt.alloc(), &wanted)? > 0);
    Ok(())
}
