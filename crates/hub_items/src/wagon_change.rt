//! The transition of a wagon that a message makes.
ghost use Rattle.std.specs.Prelude.{◌≡◌, ◌<◌, ◌≤◌, ◌∷◌, [], Contains, length, true};
ghost use Rattle.journey.specs.Stages as stages;
ghost use Rattle.journey.specs.Legs as legs_of;
ghost use Rattle.eti_chain.specs.EstimateStates.{estimates_state};
ghost use Rattle.hub_tables.specs.Changes.{continued_in};
ghost use Rattle.hub_items.specs.MessageItems.{MayBeAccepted, state_before};
ghost use Rattle.hub_items.specs.Transitions.{IsTransitionBy};

use crate::acceptable::Acceptable;
use eti_chain::Estimates;
use hub_tables::{Change, Wagon, WagonState};
use journey::Legs;
use std::marker::Model;
use taf_codes::Railway;
use trip_plan::Leg;
use wagon_number::WagonNumber;

/// A wagon whose journey went on by an event, and what was kept of it before.
#[derive(Drop)]
pub(crate) struct WagonChange<'a> {
    wagon: &'a Wagon,
    before: &'a WagonState,
}

impl<'a> Model for WagonChange<'a> {
    ghost use Rattle.journey.specs.TrackStates.{without_newest};
    ghost use Rattle.hub_tables.specs.Acceptance.{IsStateBefore};
    ghost use Rattle.hub_items.specs.Transitions.{Transition, newest_transition};

    ghost Value = { Transition };

    ghost view = { λ c. newest_transition c.wagon.now };

    ghost invariant = { λ c. IsStateBefore c.wagon.now.events c.before.now };
}

impl<'a> WagonChange<'a> {
    /// One of the changes of a message that may be accepted.
    pub(crate) fn of(from: Acceptable<'a>, change: &'a Change) -> WagonChange<'a>
        requires acceptable { MayBeAccepted from }
        requires among { Contains from.changes.now change.now }
        ensures { IsTransitionBy (state_before from.entry) from.entry.message.now change.now.wagon
            result }
    {
        match from.tables.at(change.position) {
            Some((_, wagon)) => WagonChange {
                wagon,
                before: &change.before,
            },
            None => unreachable!(),
        }
    }

    /// The change of a message by which the journey of this wagon alone goes on.
    pub(crate) fn alone(from: Acceptable<'a>, wagon: WagonNumber) -> WagonChange<'a>
        requires acceptable { MayBeAccepted from }
        requires alone { continued_in (state_before from) from.message.now ≡ wagon ∷ [] }
        ensures { IsTransitionBy (state_before from.entry) from.entry.message.now wagon result }
    {
        let _wagon = wagon;
        WagonChange::of(from, &from.changes[0])
    }

    pub(crate) fn wagon(&self) -> WagonNumber
        ensures { result ≡ self.now.wagon }
    {
        self.wagon.track().wagon()
    }

    /// The lead railway undertaking.
    pub(crate) fn lead(&self) -> Option<Railway>
        ensures { result ≡ legs_of.lead_of self.now.after }
    {
        self.wagon.track().journey_state().lead
    }

    /// The railway that answers for the wagon with the event.
    pub(crate) fn responsible(&self) -> Option<Railway>
        ensures { result ≡ stages.responsible self.now.after }
    {
        self.wagon.track().journey_state().responsible()
    }

    /// How many legs there are with the event: at most eight.
    pub(crate) fn leg_count(&self) -> usize
        ensures value { result ≡ length (legs_of.legs self.now.after) }
        ensures few { result ≤ 8 }
    {
        self.legs_after().as_slice().len()
    }

    // The legs with the event.
    fn legs_after(&self) -> &Legs
        ensures { result.now ≡ legs_of.legs self.now.after }
    {
        &self.wagon.track().journey_state().legs
    }

    /// The railway of a leg before the event.
    pub(crate) fn runner_before(&self, leg: usize) -> Option<Railway>
        ensures { result ≡ legs_of.runner_of self.now.before leg }
    {
        self.before
            .legs(self.legs_after())
            .leg(leg)
            .map(|leg| leg.ru)
    }

    /// The legs before the event.
    pub(crate) fn legs_before(&self) -> &[Leg]
        ensures { result.now ≡ legs_of.legs self.now.before }
    {
        self.before.legs(self.legs_after()).as_slice()
    }

    /// How many legs were behind the wagon before the event.
    pub(crate) fn leg_index_before(&self) -> usize
        ensures value { result ≡ stages.leg_index self.now.before }
        ensures on_a_leg { result < length (legs_of.legs self.now.before) }
    {
        self.before.earlier.leg_index
    }

    /// How many legs are behind the wagon with the event.
    pub(crate) fn leg_index_after(&self) -> usize
        ensures value { result ≡ stages.leg_index self.now.after }
        ensures on_a_leg { result < length (legs_of.legs self.now.after) }
    {
        self.wagon.track().leg_index()
    }

    /// The railway of a leg with the event.
    pub(crate) fn runner_after(&self, leg: usize) -> Option<Railway>
        ensures { result ≡ legs_of.runner_of self.now.after leg }
    {
        self.wagon.track().leg(leg).map(|leg| leg.ru)
    }

    /// The event leaves the estimates as they were.
    pub(crate) fn keeps_estimates(&self) -> bool
        ensures { result ≡ true → estimates_state self.now.after
            ≡ estimates_state self.now.before }
    {
        self.wagon.keeps_estimates(self.before)
    }

    /// When the wagon was expected before the event.
    pub(crate) fn estimates_before(&self) -> Estimates<'_>
        ensures { result ≡ estimates_state self.now.before }
    {
        self.before.estimates(self.legs_after())
    }

    /// When the wagon is expected with the event.
    pub(crate) fn estimates_after(&self) -> Estimates<'_>
        ensures { result ≡ estimates_state self.now.after }
    {
        self.wagon.estimates()
    }
}
