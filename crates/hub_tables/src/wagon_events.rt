ghost use Rattle.std.specs.Prelude.{◌≡◌, ℕ, [], ◌∷◌, ◌++◌, IfOk, None, is_none, false, true, map};
ghost use Rattle.std.specs.Cow.{cow_slice_items};
ghost use Rattle.hub_model.specs.HubState.{named_wagons, event_body_for, event_for};
ghost use Rattle.hub_model.specs.Faults.{whole_fault};
ghost use Rattle.interchange.specs.Offers.{wagons_of, place_of};
ghost use Rattle.trip_plan.specs.Rules.{has};
ghost use Rattle.hub_tables.specs.TableStates.{table_state};
ghost use Rattle.hub_tables.specs.Acceptance.{IsBeginning};

use crate::tables::Tables;
use crate::wagon::Wagon;
use journey::{Event, EventBody};
use std::alloc::{AllocError, Global};
use std::borrow::CowSlice;
use std::slice;
use taf_codes::{Memory, Place, Railway};
use taf_messages::{Body, Message, MessageNumber, TrainAnswer};
use wagon_number::WagonNumber;

// Whether the answer receives the wagon.
fn receives(answer: &TrainAnswer, wagon: WagonNumber) -> bool
    ensures { result ≡ has answer.now.received wagon }
{
    has(answer.received.as_slice(), wagon)
}

// The wagons of both lists.
fn both(
    alloc: Global,
    first: &[WagonNumber],
    second: &[WagonNumber],
) -> Result<Vec<WagonNumber>, AllocError>
    ensures { IfOk result (λ ws. ws.items ≡ first.now ++ second.now) }
{
    let mut wagons = Vec::from_slice(alloc, first)?;
    wagons.extend_from_slice(second)?;
    Ok(wagons)
}

impl Tables {
    /// The wagons that a message names, in its order: those of an answer are the received and then the refused ones, and
    /// those of a withdrawal are the wagons of its offer. Those of these two are copies, and `Memory` where it is refused for
    /// them. No others take memory.
    pub(crate) fn named_wagons<'a>(
        &self,
        alloc: Global,
        message: &'a Message,
    ) -> Result<CowSlice<'a, WagonNumber>, Memory>
        ensures { IfOk result (λ ws. cow_slice_items ws
            ≡ named_wagons (table_state self.now).offer message.now) }
    {
        let wagons = match message.body() {
            Body::Plan(plan) => plan.wagons(),
            Body::Movement(movement) => slice::from_ref(&movement.wagon),
            Body::EtiAsk { wagon } => slice::from_ref(wagon),
            Body::LegTime { wagon, .. } => slice::from_ref(wagon),
            Body::Reroute { wagon, .. } => slice::from_ref(wagon),
            Body::Offer(offer) => offer.get().wagons.as_slice(),
            Body::Answer(answer) => {
                let answer = answer.get();
                let wagons = both(alloc, answer.received.as_slice(), answer.refused.as_slice())?;
                return Ok(CowSlice::Owned(wagons));
            }
            Body::Withdraw { offer, .. } => {
                let wagons = Vec::from_slice(alloc, self.offered_wagons(message.by(), *offer))?;
                return Ok(CowSlice::Owned(wagons));
            }
        };
        Ok(CowSlice::Borrowed(wagons))
    }

    /// The wagons of an offer; none where there is no such offer.
    pub fn offered_wagons(&self, by: Railway, no: MessageNumber) -> &[WagonNumber]
        ensures { result.now ≡ wagons_of ((table_state self.now).offer by no) }
    {
        match self.offer(by, no) {
            Some(offer) => offer.wagons.as_slice(),
            None => &[],
        }
    }

    // The place of an offer that there is.
    fn place(&self, by: Railway, no: MessageNumber) -> Place
        requires { is_none ((table_state self.now).offer by no) ≡ false }
        ensures { result ≡ place_of ((table_state self.now).offer by no) }
    {
        match self.offer(by, no) {
            Some(offer) => offer.place,
            None => unreachable!(),
        }
    }

    /// What a message, which is not refused as a whole, says of a wagon that it names. Plans and routes are shared, not
    /// copied. `Memory` where one is shared too often.
    #[inline(always)]
    pub(crate) fn event_body(
        &self,
        message: &Message,
        wagon: WagonNumber,
    ) -> Result<EventBody, Memory>
        requires { whole_fault (table_state self.now) message.now.by message.now.body ≡ None }
        ensures { IfOk result (λ says. says
            ≡ event_body_for (table_state self.now).offer message.now.by message.now.body wagon) }
    {
        Ok(match message.body() {
            Body::Plan(plan) => EventBody::Planned(plan.copy()?),
            Body::Movement(movement) => EventBody::Moved(movement.what),
            Body::EtiAsk { .. } => EventBody::EstimateAsked,
            Body::LegTime { leg, minutes, .. } => EventBody::LegTimed {
                leg: *leg,
                minutes: *minutes,
            },
            Body::Offer(offer) => EventBody::Offered {
                place: offer.get().place,
                to: offer.get().to,
            },
            Body::Answer(answer) => EventBody::Answered {
                place: self.place(answer.get().offerer, answer.get().offer),
                received: receives(answer.get(), wagon),
            },
            Body::Withdraw { offer, .. } => EventBody::Withdrawn {
                place: self.place(message.by(), *offer),
            },
            Body::Reroute { route, .. } => EventBody::Rerouted(route.copy()?),
        })
    }

    /// The wagon's event of a message that names it, and is not refused as a whole: an event of its journey. `Memory` as in
    /// [`Tables::event_body`].
    #[inline(always)]
    pub(crate) fn event_for(&self, message: &Message, wagon: WagonNumber) -> Result<Event, Memory>
        requires { whole_fault (table_state self.now) message.now.by message.now.body ≡ None }
        ensures { IfOk result (λ e. e ≡ event_for (table_state self.now).offer message.now wagon) }
    {
        Ok(Event {
            by: message.by(),
            no: message.no(),
            at: message.body().moment(),
            body: self.event_body(message, wagon)?,
        })
    }

    /// Each of the wagons with a journey that begins with its event of the message.
    pub(crate) fn begun(
        &self,
        alloc: Global,
        message: &Message,
        wagons: &[WagonNumber],
    ) -> Result<Vec<(WagonNumber, Wagon)>, Memory>
        requires sound { whole_fault (table_state self.now) message.now.by message.now.body ≡ None }
        requires begins { (w : ℕ) → has wagons.now w ≡ true
            → IsBeginning (event_for (table_state self.now).offer message.now w) }
        ensures { IfOk result (λ v. v.items
            ≡ map (λ w. (
              w,
              record
                  { wagon = w; events = event_for (table_state self.now).offer message.now w ∷ [] },
            ))
            wagons.now) }
    {
        let mut begun = Vec::with_capacity(alloc, wagons.len())?;
        for wagon in wagons {
            let event = self.event_for(message, *wagon)?;
            begun.push((*wagon, Wagon::open(alloc, *wagon, event)?))?;
        }
        Ok(begun)
    }
}

/// Whether the wagon is among these.
pub fn has(wagons: &[WagonNumber], wagon: WagonNumber) -> bool
    ensures { result ≡ has wagons.now wagon }
{
    wagons.iter().any(|w| *w == wagon)
}
