//! Tracks that grow, with their estimates.
ghost use Rattle.std.specs.Prelude.{◌≡◌, ◌≤◌, ◌+◌, length, true, IfOk, OnOk};
ghost use Rattle.eti_chain.specs.EstimateStates.{estimate_anchor, estimates_state};
ghost use Rattle.eti_chain.specs.Estimates.{fits};

use crate::measured::Measured;
use crate::samples;
use anyhow::{Result, bail};
use eti_chain::{EstimateAnchor, Estimates};
use journey::{Event, EventBody, Track};
use std::alloc::Global;
use std::time::{Clock, Instant};
use taf_codes::Railway;
use taf_messages::{MovementKind, Record};
use taf_moment::Moment;
use trip_plan::Plan;
use wimo::record_with;

/// A track with what is kept for its estimates.
#[derive(Drop)]
pub(crate) struct Run {
    track: Track,
    kept: EstimateAnchor,
    ghost follows: { kept ≡ estimate_anchor track.events },
    ghost within: { fits track.events ≡ true },
}

impl Run {
    /// A wagon that departed, as its plan says: three events.
    pub fn departed(alloc: Global, plan: &Plan) -> Result<Run>
        ensures { IfOk result (λ run. length run.track.events ≡ 3) }
    {
        let event = Event {
            by: Railway::read("R100")?,
            no: samples::number(1)?,
            at: None,
            body: EventBody::Planned(plan.copy()?),
        };
        let track = Track::open(alloc, samples::wagon()?, event)?;
        if !Estimates::fits(&track) {
            bail!("the plan passes the calendar");
        }
        let kept = EstimateAnchor::of(&track);
        let mut run = Run { track, kept };
        run.add("R100", MovementKind::Release)?;
        run.add("R101", MovementKind::Departure)?;
        Ok(run)
    }

    /// A wagon with this many events: all but the first three are exceptions.
    pub fn grown(alloc: Global, plan: &Plan, events: u64) -> Result<Run>
        requires { 3 ≤ events }
        ensures { IfOk result (λ run. length run.track.events ≡ events) }
    {
        let mut run = Run::departed(alloc, plan)?;
        run.delay(events - 3)?;
        Ok(run)
    }

    /// Delays the wagon by a minute, this many times.
    pub fn delay(&mut self, times: u64) -> Result<()>
        ensures { OnOk result (length self.new.track.events
            ≡ length self.old.track.events + times) }
    {
        let delay = samples::delay()?;
        for _ in 0..times {
            self.add("R101", MovementKind::Exception { delay })?;
        }
        Ok(())
    }

    // Goes on with a movement, checked as the hub does.
    fn add(&mut self, by: &str, what: MovementKind) -> Result<()>
        ensures { OnOk result (length self.new.track.events ≡ length self.old.track.events + 1) }
    {
        let event = Event {
            by: Railway::read(by)?,
            no: samples::number(1)?,
            at: Some(Moment::read("2025-03-01T06:00Z")?),
            body: EventBody::Moved(what),
        };
        if self.track.admits(&event).is_some() {
            bail!("the sample is refused");
        }
        if self.estimates().would_pass_calendar(&self.track, &event) {
            bail!("the sample passes the calendar");
        }
        self.kept.add(&mut self.track, event)?;
        Ok(())
    }

    // When the wagon is expected.
    fn estimates(&self) -> Estimates<'_>
        ensures { result ≡ estimates_state self.now.track.events }
    {
        self.kept.estimates(&self.track)
    }

    /// The record of the wagon.
    pub fn shown(&self, alloc: Global) -> Result<Record> {
        Ok(record_with(alloc, &self.track, &self.estimates())?)
    }
}

// Exceptions on a new track, so many.
fn grow(clock: &impl Clock, alloc: Global, plan: &Plan, length: u64) -> Result<Measured> {
    let mut run = Run::departed(alloc, plan)?;
    let start = Instant::now(clock)?;
    run.delay(length)?;
    Measured::since(clock, start, length)
}

/// Exceptions on tracks of up to `length` of them: `count` of them at most, of whole tracks, and one track at least.
pub(crate) fn events(
    clock: &impl Clock,
    alloc: Global,
    length: u32,
    count: u64,
) -> Result<Measured> {
    let plan = samples::plan(alloc)?;
    let length = u64::from(length.max(1));
    let mut total = Measured { count: 0, nanos: 0 };
    for _ in 0..(count / length).max(1) {
        total.add(grow(clock, alloc, &plan, length)?);
    }
    Ok(total)
}
