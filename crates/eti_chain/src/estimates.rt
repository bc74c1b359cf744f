ghost use Rattle.std.specs.Prelude.{◌≡◌, ◌≤◌, List, [], ◌∷◌, ◌++◌, None, is_some, not, true};
ghost use Rattle.std.specs.Option.{option_and_then};
ghost use Rattle.journey.specs.declared.event.Event.{Event};
ghost use Rattle.journey.specs.Checks.{refusal};
ghost use Rattle.eti_chain.specs.Estimates as of;

use crate::anchor::anchor_after;
use crate::basis::EstimateBasis;
use crate::estimates_in_turn::EstimatesInTurn;
use crate::held_legs::HeldLegs;
use journey::{Event, EventBody, Track};
use std::marker::Model;
use taf_moment::Moment;

/// When a wagon is expected at the end of its legs, which are borrowed until [`Estimates::follow`] copies them in place.
/// None of its calls takes memory.
#[derive(Drop)]
pub struct Estimates<'a> {
    basis: EstimateBasis<'a>,
    // The moment to which the plan committed.
    commit: Moment,
}

impl<'a> Model for Estimates<'a> {
    ghost use Rattle.std.specs.Prelude.{Some};
    ghost use Rattle.eti_chain.specs.EstimateStates.{EstimatesState, IsWithin, state_with_commitment};

    ghost Value = { EstimatesState };

    ghost view = { λ e. state_with_commitment e.basis (Some e.commit) };

    ghost invariant = { λ e. IsWithin e.basis };
}

impl<'a> Estimates<'a> {
    ghost use Rattle.std.specs.Prelude.{Some};
    ghost use Rattle.eti_chain.specs.EstimateStates.{estimates_state, in_turn_from, state_with_commitment};

    /// The estimates that are counted from this.
    #[tactic(auto, using(crate::proofs::CalendarLemmas::is_within))]
    pub(crate) fn by(basis: EstimateBasis<'a>, commit: Moment) -> Estimates<'a>
        requires { of.fits_in basis ≡ true }
        ensures { result ≡ state_with_commitment basis.entry (Some commit) }
    {
        Estimates { basis, commit }
    }

    /// Whether no estimate of the track passes the last minute of the calendar.
    pub fn fits(track: &Track) -> bool
        ensures { result ≡ of.fits track.now.events }
    {
        EstimateBasis::of(track).fits()
    }

    /// The estimates of a track. It walks the events.
    pub fn of(track: &'a Track) -> Estimates<'a>
        requires { of.fits track.now.events ≡ true }
        ensures { result ≡ estimates_state track.now.events }
    {
        Estimates::by(EstimateBasis::of(track), track.plan().commit())
    }

    /// Goes on from the estimates of the track to those of the track with the event, which may come next and does not
    /// pass the calendar. It takes no walk, and copies the legs in place.
    pub fn follow(&mut self, track: &Track, event: &Event)
        requires of_track { self.old ≡ estimates_state track.now.events }
        requires admitted { refusal track.now.events event.now.by event.now.body ≡ None }
        requires fits { of.fits (track.now.events ++ event.now ∷ []) ≡ true }
        ensures { self.new ≡ estimates_state (track.now.events ++ event.now ∷ []) }
    {
        let state = track.state_after(event);
        let anchor = anchor_after(self.basis.anchor, event);
        self.basis = EstimateBasis::by(state.leg_index, HeldLegs::Own(state.legs), anchor);
    }

    /// Whether with the event, which may come next, an estimate of the track would pass the last minute of the
    /// calendar, 2199-12-31T23:59Z.
    pub fn would_pass_calendar(&self, track: &Track, event: &Event) -> bool
        requires of_track { self.now ≡ estimates_state track.now.events }
        requires admitted { refusal track.now.events event.now.by event.now.body ≡ None }
        ensures { result ≡ not (of.fits (track.now.events ++ event.now ∷ [])) }
    {
        let anchor = anchor_after(self.basis.anchor, event);
        match &event.body {
            EventBody::Moved(_)
            | EventBody::EstimateAsked
            | EventBody::Offered { .. }
            | EventBody::Answered { .. }
            | EventBody::Withdrawn { .. } => {
                let state = track.journey_state();
                let leg_index = event.body.leg_index_after(state.leg_index);
                !EstimateBasis::by(leg_index, HeldLegs::Lent(&state.legs), anchor).fits()
            }
            _ => {
                let state = track.state_after(event);
                !EstimateBasis::by(state.leg_index, HeldLegs::Lent(&state.legs), anchor).fits()
            }
        }
    }

    /// When the wagon is expected at the end of this leg: none without an event to count from,
    /// before the current leg and past the last one.
    pub fn estimate(&self, leg: usize) -> Option<Moment>
        ensures { (events : List Event) → self.now ≡ estimates_state events → result
            ≡ of.estimate events leg }
    {
        self.basis.moment(leg)
    }

    /// The estimates of the legs in turn, from this leg on, which is not after the current one.
    pub fn in_turn_from(&self, leg: usize) -> EstimatesInTurn<'_>
        requires { leg ≤ self.now.estimate_basis.leg_index }
        ensures { result ≡ in_turn_from self.now.estimate_basis leg }
    {
        EstimatesInTurn::of(&self.basis, leg)
    }

    /// When the wagon is expected at the end of its last leg.
    pub fn eta(&self) -> Option<Moment>
        ensures { (events : List Event) → self.now ≡ estimates_state events → result
            ≡ of.eta events }
    {
        self.basis.last_moment()
    }

    /// Whether the wagon is expected after the moment to which the plan committed.
    pub fn late(&self) -> bool
        ensures { (events : List Event) → self.now ≡ estimates_state events → result
            ≡ of.is_late events }
    {
        self.late_by().is_some()
    }

    /// Whether the wagon is late where this is its estimated time of arrival.
    pub fn is_late_with(&self, eta: Option<Moment>) -> bool
        ensures { result ≡ is_some (option_and_then
            (λ commit. option_and_then (of.lateness commit) eta) self.now.commit) }
    {
        lateness(self.commit, eta).is_some()
    }

    /// By how many minutes the wagon is expected after what the plan committed to, if it is.
    pub fn late_by(&self) -> Option<u32>
        ensures { (events : List Event) → self.now ≡ estimates_state events → result
            ≡ of.late_by events }
    {
        lateness(self.commit, self.basis.last_moment())
    }
}

fn lateness(commit: Moment, at: Option<Moment>) -> Option<u32>
    ensures { result ≡ option_and_then (of.lateness commit) at }
{
    let at = at?;
    if commit < at {
        Some(at.minutes() - commit.minutes())
    } else {
        None
    }
}
