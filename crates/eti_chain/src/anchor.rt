//! The event from which estimates are counted.
ghost use Rattle.std.specs.Prelude.{◌≡◌, ◌+◌, ◌<◌, ◌≤◌, ◌^◌, option_map};
ghost use Rattle.std.specs.Option.{option_or};
ghost use Rattle.eti_chain.specs.Estimates as of;
ghost use Rattle.eti_chain.specs.EstimateStates as states;

use journey::{Event, EventBody};
use taf_messages::MovementKind;
use taf_moment::Moment;

/// The newest event that fixes the estimates, and the delays since.
#[derive(Clone, Copy, Debug, PartialEq)]
pub(crate) struct Anchor {
    pub(crate) at: Moment,
    /// Whether the minutes of the current leg are still to pass.
    pub(crate) runs_leg: bool,
    /// In minutes.
    pub(crate) delays: u128,
}

/// The anchor after one event more.
pub(crate) fn anchor_after(before: Option<Anchor>, event: &Event) -> Option<Anchor>
    requires { of.delays_of before < 2 ^ 127 }
    ensures value { result ≡ states.anchor_after before event.now }
    ensures bound { of.delays_of result ≤ of.delays_of before + 100000 }
{
    let mut newest = before;
    go_on(&mut newest, anchor_in(event), delay_in(&event.body));
    newest
}

/// Goes on by an event that is this anchor, or else delays the wagon by these minutes.
pub(crate) fn go_on(newest: &mut Option<Anchor>, new: Option<Anchor>, delay: u128)
    requires small { of.delays_of newest.old < 2 ^ 127 }
    requires delay { delay ≤ 100000 }
    ensures { newest.new ≡ option_or new (option_map (of.delayed_by delay) newest.old) }
{
    if new.is_some() {
        *newest = new;
    } else if let Some(anchor) = newest {
        anchor.delays += delay;
    }
}

/// The anchor that an event is, if it is one.
pub(crate) fn anchor_in(event: &Event) -> Option<Anchor>
    ensures value { result ≡ of.anchor_in event.now.at event.now.body }
    ensures bound { of.delays_of result ≡ 0 }
{
    match &event.body {
        EventBody::Moved(MovementKind::Release | MovementKind::Departure) => {
            anchor_at(event.at, true)
        }
        EventBody::Moved(MovementKind::Estimate | MovementKind::Arrival | MovementKind::Delivery) =>
            anchor_at(event.at, false),
        EventBody::Answered { received, .. } if *received => anchor_at(event.at, true),
        _ => None,
    }
}

fn anchor_at(at: Option<Moment>, runs_leg: bool) -> Option<Anchor>
    ensures value { result ≡ of.anchor_at at runs_leg }
    ensures bound { of.delays_of result ≡ 0 }
{
    Some(Anchor {
        at: at?,
        runs_leg,
        delays: 0,
    })
}

/// The minutes that an event delays the wagon by: at most 100,000.
pub(crate) fn delay_in(body: &EventBody) -> u128
    ensures value { result ≡ of.delay_in body.now }
    ensures bound { result ≤ 100000 }
{
    match body {
        EventBody::Moved(MovementKind::Exception { delay }) => u128::from(delay.get()),
        _ => 0,
    }
}
