//! How the tables take a message.
ghost use Rattle.std.specs.Prelude.{◌≡◌, IfOk, OnErr, OnOk, None, true};
ghost use Rattle.trip_plan.specs.Rules.{all_differ};
ghost use Rattle.interchange.specs.Offers.{wagons_of};
ghost use Rattle.hub_model.specs.HubState.{named_wagons};
ghost use Rattle.hub_model.specs.Faults.{whole_fault};
ghost use Rattle.hub_model.specs.Laws.{OpenIsOffered};
ghost use Rattle.hub_model.specs.Updates.{after_acceptance};
ghost use Rattle.hub_tables.specs.TableStates.{IsAcceptable, continues_journeys, table_part, table_state};
ghost use Rattle.hub_tables.specs.Changes.{HasGoneOn, IsTaken, known_before};
ghost use Rattle.hub_tables.specs.GoingOn.{KeepsCalendar};

use crate::accept::accept_offer;
use crate::changes::Change;
use crate::tables::Tables;
use crate::unit_checks::busy_fault;
use crate::whole::whole_fault;
use hub_model::Fault;
use std::alloc::Global;
use taf_codes::{Memory, Railway};
use taf_messages::{Body, Message, MessageNumber, OfferedWagons, TrainAnswer};

impl Tables {
    /// Checks a message that is new, and goes on with the journeys of its wagons by it, unless it has a fault, which is then the
    /// answer: as a whole, at a wagon, or for an intermodal unit. The list gets the changes of these journeys; what it had before
    /// is dropped. `Memory` where memory is refused: then all is as it was.
    pub fn take(
        &mut self,
        alloc: Global,
        message: &Message,
        changes: &mut Vec<Change>,
    ) -> Result<Option<Fault>, Memory>
        requires offered { OpenIsOffered (table_state self.old) }
        requires calendar { KeepsCalendar (table_state self.old) message.now }
        ensures ok { IfOk result (IsTaken self.old self.new message.now changes.new.items) }
        ensures err { OnErr result (table_state self.new ≡ table_state self.old) }
    {
        changes.clear();
        if let Some(why) = whole_fault(self, message.by(), message.body()) {
            return Ok(Some(Fault { why, wagon: None }));
        }
        if let Body::Plan(plan) = message.body() {
            return Ok(busy_fault(self, message, plan));
        }
        self.named_differ(message);
        let wagons = self.named_wagons(alloc, message)?;
        self.go_on_each(message, wagons.as_slice(), changes)
    }

    /// Completes what a message changes, once the journeys of its wagons have gone on by it with these changes: the journeys, the
    /// consignment and the units of a plan, and what becomes of an offer. `Memory` where memory is refused: then all is as it was.
    pub fn complete(
        &mut self,
        alloc: Global,
        message: &Message,
        changes: &[Change],
    ) -> Result<(), Memory>
        requires acceptable { IsAcceptable (known_before self.old changes.now) message.now }
        requires gone_on { HasGoneOn (known_before self.old changes.now) self.old message.now
            changes.now }
        ensures ok { OnOk result (table_state self.new
            ≡ table_part (after_acceptance (known_before self.old changes.now) message.now)) }
        ensures err { OnErr result (table_state self.new ≡ table_state self.old) }
    {
        let _changes = changes;
        match message.body() {
            Body::Plan(plan) => self.accept_plan(alloc, message, plan),
            Body::Offer(offer) => accept_offer(&mut self.offers, message, offer.get()),
            Body::Answer(answer) => {
                let TrainAnswer { offerer, offer, .. } = answer.get();
                self.offers.close_offer(*offerer, *offer);
                Ok(())
            }
            Body::Withdraw { offer, .. } => {
                self.offers.close_offer(message.by(), *offer);
                Ok(())
            }
            _ => Ok(()),
        }
    }

    // The wagons of a message that is not refused as a whole, and begins no journey, are all different.
    fn named_differ(&self, message: &Message)
        requires whole { whole_fault (table_state self.now) message.now.by message.now.body ≡ None }
        ensures { continues_journeys message.now.body ≡ true → all_differ (named_wagons
            (table_state self.now).offer message.now) ≡ true }
    {
        match message.body() {
            Body::Offer(offer) => differ(&offer.get().wagons),
            Body::Withdraw { offer, .. } => self.offered_differ(message.by(), *offer),
            _ => {}
        }
    }

    // The wagons of an offer that was made are all different.
    fn offered_differ(&self, by: Railway, offer: MessageNumber)
        ensures { all_differ (wagons_of ((table_state self.now).offer by offer)) ≡ true }
    {
        if let Some(offer) = self.offer(by, offer) {
            differ(&offer.wagons);
        }
    }
}

// The wagons of an offer are all different.
fn differ(wagons: &OfferedWagons)
    ensures { all_differ wagons.now ≡ true }
{
    let _wagons = wagons.as_slice();
}
