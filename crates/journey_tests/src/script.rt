//! Journeys from lines.
ghost use Rattle.std.specs.Prelude.{◌≡◌, true, IfOk};
ghost use Rattle.eti_chain.specs.EstimateStates.{estimate_anchor, estimates_state};
ghost use Rattle.eti_chain.specs.Estimates.{fits};
ghost use Rattle.journey.specs.Stages.{is_plan};

use eti_chain::{EstimateAnchor, Estimates};
use journey::{Event, EventBody, Track};
use std::alloc::Global;
use std::fmt::Write;
use std::test::Fail;
use taf_codes::{ConsignmentId, Place, Railway};
use taf_messages::{MovementKind, Record, Within, Within32};
use taf_moment::Moment;
use trip_plan::{Leg, Load, Plan, Route};
use wagon_number::WagonNumber;
use wimo::record_with;

// The number that a word says, within its limits.
fn number<const LOW: u64, const HIGH: u64>(word: &str) -> Result<Within<LOW, HIGH>, Fail> {
    match Within::new(word.parse::<u64>()?) {
        Some(number) => Ok(number),
        None => Err(Fail::new("out of range")),
    }
}

// The small number that a word says, within its limits.
fn small_number<const LOW: u32, const HIGH: u32>(word: &str) -> Result<Within32<LOW, HIGH>, Fail> {
    match Within32::new(word.parse::<u64>()?) {
        Some(number) => Ok(number),
        None => Err(Fail::new("out of range")),
    }
}

pub(crate) fn moment(alloc: Global, text: &str) -> Result<Moment, Fail> {
    if text.len() > 5 {
        return Ok(Moment::read(text)?);
    }
    let whole = ["2025-03-01T", text, "Z"].concat(alloc)?;
    Ok(Moment::read(&whole)?)
}

pub(crate) fn wagon(text: &str) -> Result<WagonNumber, Fail> {
    Ok(WagonNumber::read(text)?)
}

fn place(text: &str) -> Result<Place, Fail> {
    Ok(Place::read(text)?)
}

// What stands before the first of these characters, and what behind it.
fn parts(text: &str, between: char) -> Result<(&str, &str), Fail> {
    match text.split_once(between) {
        Some(parts) => Ok(parts),
        None => Err(Fail::new(text)),
    }
}

/// A leg that is written as its railway, origin, target and minutes, with colons between.
pub(crate) fn leg(text: &str) -> Result<Leg, Fail> {
    let (ru, rest) = parts(text, ':')?;
    let (origin, rest) = parts(rest, ':')?;
    let (target, minutes) = parts(rest, ':')?;
    Ok(Leg {
        ru: Railway::read(ru)?,
        origin: place(origin)?,
        target: place(target)?,
        minutes: minutes.parse::<u32>()?,
    })
}

fn legs(alloc: Global, texts: &str) -> Result<Vec<Leg>, Fail> {
    let mut legs = Vec::new(alloc);
    for text in texts.split(' ') {
        legs.push(leg(text)?)?;
    }
    Ok(legs)
}

/// The share of a plan by R100 for the consignment C-1, to be there by 15:30, over these legs.
pub(crate) fn planned(
    alloc: Global,
    load: Load,
    wagons: &[WagonNumber],
    route: &str,
) -> Result<Event, Fail>
    ensures { IfOk result (λ e. is_plan e.body ≡ true) }
{
    let by = Railway::read("R100")?;
    let no = number("1")?;
    let consignment = ConsignmentId::read("C-1")?;
    let commit = moment(alloc, "15:30")?;
    let legs = legs(alloc, route)?;
    let plan = Plan::new(alloc, by, consignment, load, wagons, &legs, commit)?;
    Ok(Event {
        by,
        no,
        at: None,
        body: EventBody::Planned(plan),
    })
}

/// The event that a line says.
pub(crate) fn event(alloc: Global, line: &str) -> Result<Event, Fail> {
    let (by, rest) = parts(line, ' ')?;
    let (no, rest) = parts(rest, ' ')?;
    let (at, rest) = parts(rest, ' ')?;
    let (kind, fields) = rest.split_once(' ').unwrap_or((rest, ""));
    let by = Railway::read(by)?;
    let no = number(no)?;
    let at = time(alloc, at)?;
    let body = body(alloc, kind, fields)?;
    Ok(Event { by, no, at, body })
}

fn time(alloc: Global, text: &str) -> Result<Option<Moment>, Fail> {
    if text == "-" {
        return Ok(None);
    }
    Ok(Some(moment(alloc, text)?))
}

fn body(alloc: Global, kind: &str, fields: &str) -> Result<EventBody, Fail> {
    match kind {
        "eti_ask" => Ok(EventBody::EstimateAsked),
        "leg_time" => leg_time(fields),
        "offer" => offer(fields),
        "receive" => answer(fields, true),
        "refuse" => answer(fields, false),
        "withdraw" => withdrawal(fields),
        "reroute" => reroute(alloc, fields),
        _ => Ok(EventBody::Moved(movement(kind, fields)?)),
    }
}

fn leg_time(fields: &str) -> Result<EventBody, Fail> {
    let (leg, minutes) = parts(fields, ' ')?;
    let leg = small_number(leg)?;
    let minutes = small_number(minutes)?;
    Ok(EventBody::LegTimed { leg, minutes })
}

fn offer(fields: &str) -> Result<EventBody, Fail> {
    let (at, to) = parts(fields, ' ')?;
    let place = place(at)?;
    let to = Railway::read(to)?;
    Ok(EventBody::Offered { place, to })
}

fn answer(at: &str, received: bool) -> Result<EventBody, Fail> {
    let place = place(at)?;
    Ok(EventBody::Answered { place, received })
}

fn withdrawal(at: &str) -> Result<EventBody, Fail> {
    let place = place(at)?;
    Ok(EventBody::Withdrawn { place })
}

fn reroute(alloc: Global, fields: &str) -> Result<EventBody, Fail> {
    let legs = legs(alloc, fields)?;
    Ok(EventBody::Rerouted(Route::new(alloc, &legs)?))
}

fn movement(kind: &str, field: &str) -> Result<MovementKind, Fail> {
    match kind {
        "release" => Ok(MovementKind::Release),
        "depart" => Ok(MovementKind::Departure),
        "eti" => Ok(MovementKind::Estimate),
        "arrival" => Ok(MovementKind::Arrival),
        "delivery" => Ok(MovementKind::Delivery),
        "exception" => exception(field),
        _ => at_yard(kind, field),
    }
}

fn exception(delay: &str) -> Result<MovementKind, Fail> {
    let delay = small_number(delay)?;
    Ok(MovementKind::Exception { delay })
}

fn at_yard(kind: &str, at: &str) -> Result<MovementKind, Fail> {
    let place = place(at)?;
    match kind {
        "yard_in" => Ok(MovementKind::YardArrival { place }),
        "yard_out" => Ok(MovementKind::YardDeparture { place }),
        _ => Err(Fail::new("no such kind")),
    }
}

/// A track with what is kept for its estimates.
#[derive(Drop)]
pub(crate) struct Run {
    pub(crate) track: Track,
    kept: EstimateAnchor,
    ghost follows: { kept ≡ estimate_anchor track.events },
    ghost within: { fits track.events ≡ true },
}

impl Run {
    /// A journey that begins with this plan.
    pub(crate) fn open(alloc: Global, wagon: WagonNumber, plan: Event) -> Result<Run, Fail>
        requires { is_plan plan.body ≡ true }
    {
        let track = Track::open(alloc, wagon, plan)?;
        if !Estimates::fits(&track) {
            return Err(Fail::new("a plan that does not fit"));
        }
        let kept = EstimateAnchor::of(&track);
        Ok(Run { track, kept })
    }

    /// When the wagon is expected.
    pub(crate) fn estimates(&self) -> Estimates<'_>
        ensures { result ≡ estimates_state self.now.track.events }
    {
        self.kept.estimates(&self.track)
    }

    /// Goes on with the event of a line, and tells what is seen then.
    pub(crate) fn transition(&mut self, alloc: Global, line: &str) -> Result<String, Fail> {
        let event = event(alloc, line)?;
        if let Some(why) = self.track.admits(&event) {
            return Ok(format!(in alloc; "{why:?}")?);
        }
        if self.estimates().would_pass_calendar(&self.track, &event) {
            return Ok("BeyondCalendar".to_string(alloc)?);
        }
        if !self.add(event)? {
            return Err(Fail::new("not as foretold"));
        }
        self.seen(alloc)
    }

    /// Goes on with the events of lines.
    pub(crate) fn go_on(&mut self, alloc: Global, lines: &str) -> Result<(), Fail> {
        for line in lines.lines() {
            let _seen = self.transition(alloc, line)?;
        }
        Ok(())
    }

    /// Goes on with the events of lines, behind each of which stands what is seen then. Fails with what is seen where that
    /// is another thing.
    pub(crate) fn goes_on_as(&mut self, alloc: Global, lines: &str) -> Result<(), Fail> {
        for line in lines.lines() {
            let (event, wanted) = line.split_once(" = ").unwrap_or((line, ""));
            let seen = self.transition(alloc, event)?;
            if seen.as_str() != wanted {
                return Err(Fail::new(seen));
            }
        }
        Ok(())
    }

    // Goes on with an event, and tells whether it leads to the stage and the estimate that were foretold.
    fn add(&mut self, next: Event) -> Result<bool, Fail> {
        if self.track.admits(&next).is_some() {
            return Err(Fail::new("refused by a check"));
        }
        if self.estimates().would_pass_calendar(&self.track, &next) {
            return Err(Fail::new("past the calendar"));
        }
        let state = self.track.state_after(&next);
        let mut foretold = self.estimates();
        foretold.follow(&self.track, &next);
        let eta = foretold.eta();
        self.kept.add(&mut self.track, next)?;
        let is_foretold = state.stage == Some(self.track.stage()) && eta == self.estimates().eta();
        Ok(is_foretold && eta == self.kept.estimates_by(state.leg_index, &state.legs).eta())
    }

    /// Adds an event, and takes it back.
    pub(crate) fn add_and_take_back(&mut self, next: Event) -> Result<(), Fail> {
        if self.track.admits(&next).is_some() {
            return Err(Fail::new("refused by a check"));
        }
        let before = self.track.state_before(&next)?;
        self.track.add(next)?;
        self.track.take_back(before);
        Ok(())
    }

    pub(crate) fn record(&self, alloc: Global) -> Result<Record, Fail> {
        Ok(record_with(alloc, &self.track, &self.estimates())?)
    }

    fn seen(&self, alloc: Global) -> Result<String, Fail> {
        let mut seen = self.seen_of_track(alloc)?;
        if let Some(at) = self.estimates().eta() {
            write!(seen, " {at}")?;
        }
        if let Some(minutes) = self.estimates().late_by() {
            write!(seen, " late by {minutes}")?;
        }
        Ok(seen)
    }

    fn seen_of_track(&self, alloc: Global) -> Result<String, Fail> {
        let stage = self.track.stage();
        let mut seen = format!(in alloc; "{stage:?} {}", self.track.leg_index())?;
        match self.track.place() {
            Some(place) => write!(seen, " {place}")?,
            None => seen.push_str(" -------")?,
        }
        match self.track.responsible() {
            Some(railway) => write!(seen, " {railway}")?,
            None => seen.push_str(" ----")?,
        }
        Ok(seen)
    }
}
