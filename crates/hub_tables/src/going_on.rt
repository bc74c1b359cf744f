//! How the journeys of a message's wagons go on: each wagon is checked, and at once its journey goes on.
ghost use Rattle.std.specs.Prelude.{◌≡◌, ◌+◌, ◌<◌, ◌≤◌, [], ◌∷◌, ◌++◌, IfOk, None, OnErr, OnOk, Some, slice_get, true, vec_capacity, vec_len};
ghost use Rattle.trip_plan.specs.Rules.{has};
ghost use Rattle.journey.specs.Checks.{refusal};
ghost use Rattle.eti_chain.specs.Estimates.{fits};
ghost use Rattle.hub_model.specs.HubState.{journey_after, named_wagons};
ghost use Rattle.hub_model.specs.Faults.{whole_fault};
ghost use Rattle.hub_tables.specs.TableStates.{table_state};
ghost use Rattle.hub_tables.specs.Changes.{IsTaken, with_journey};
ghost use Rattle.hub_tables.specs.GoingOn.{GoesOn, IsGoneOnOrRefused, wagon_refusal};

use crate::changes::Change;
use crate::tables::Tables;
use crate::wagon_checks::event_fault;
use hub_model::Fault;
use journey::Event;
use taf_codes::Memory;
use taf_messages::{Message, Why};
use wagon_number::WagonNumber;

impl Tables {
    /// Goes on with the journeys of a message's wagons, which are these, in turn. The first wagon that is refused is the
    /// answer. Then, and where memory is refused, those that went on are taken back. The list, which is empty, gets the changes.
    pub(crate) fn go_on_each(
        &mut self,
        message: &Message,
        wagons: &[WagonNumber],
        changes: &mut Vec<Change>,
    ) -> Result<Option<Fault>, Memory>
        requires goes_on { GoesOn (table_state self.old) message.now }
        requires named { wagons.now ≡ named_wagons (table_state self.old).offer message.now }
        requires empty { changes.old.items ≡ [] }
        ensures ok { IfOk result (IsTaken self.old self.new message.now changes.new.items) }
        ensures err { OnErr result (table_state self.new ≡ table_state self.old) }
    {
        changes.reserve(wagons.len())?;
        for wagon in wagons {
            match self.go_on(message, *wagon, changes) {
                Ok(None) => {}
                Ok(Some(why)) => {
                    self.take_back(changes);
                    return Ok(Some(Fault {
                        why,
                        wagon: Some(*wagon),
                    }));
                }
                Err(refused) => {
                    self.take_back(changes);
                    return Err(refused);
                }
            }
        }
        Ok(None)
    }

    // Checks a wagon that the message names, by its own events and then by the calendar, and goes on with its journey. The list
    // gets the change. The answer is why the message is refused there, if it is.
    #[inline(always)]
    fn go_on(
        &mut self,
        message: &Message,
        wagon: WagonNumber,
        changes: &mut Vec<Change>,
    ) -> Result<Option<Why>, Memory>
        requires whole { whole_fault (table_state self.old) message.now.by message.now.body ≡ None }
        requires named { has (named_wagons (table_state self.old).offer message.now) wagon ≡ true }
        requires calendar { wagon_refusal (table_state self.old) message.now wagon ≡ None
            → fits (journey_after (table_state self.old) message.now wagon) ≡ true }
        requires room { vec_len changes.old < vec_capacity changes.old }
        ensures ok { IfOk result
            (IsGoneOnOrRefused (table_state self.old) self.new message.now wagon
            changes.old.items changes.new.items) }
        ensures err { OnErr result (table_state self.new ≡ table_state self.old) }
        ensures kept { OnErr result (changes.new.items ≡ changes.old.items) }
        ensures capacity { vec_capacity changes.new ≡ vec_capacity changes.old }
        ensures len { vec_len changes.new ≤ vec_len changes.old + 1 }
    {
        let Some((position, found)) = self.find(wagon) else {
            return Ok(Some(Why::UnknownWagon));
        };
        let event = self.event_for(message, wagon)?;
        if let Some(why) = event_fault(found, &event) {
            return Ok(Some(why));
        }
        let before = found.state_before(&event)?;
        changes.push_reserved(Change {
            wagon,
            position,
            before,
        });
        if let Err(refused) = self.add(wagon, position, event) {
            let _change = changes.pop();
            return Err(refused);
        }
        Ok(None)
    }

    // Adds an event at the end of the journey of the wagon at a position. Where memory is refused, what is known is as it was.
    #[inline(always)]
    fn add(&mut self, wagon: WagonNumber, position: usize, event: Event) -> Result<(), Memory>
        requires position { slice_get (table_state self.old).fleet position ≡ Some wagon }
        requires admitted { refusal ((table_state self.old).journey wagon) event.by event.body
            ≡ None }
        requires fits { fits ((table_state self.old).journey wagon ++ event ∷ []) ≡ true }
        ensures ok { OnOk result (table_state self.new
            ≡ with_journey (table_state self.old) wagon (λ events. events ++ event ∷ [])) }
        ensures err { OnErr result (table_state self.new ≡ table_state self.old) }
    {
        match self.wagons.get_index_mut(position) {
            Some(found) => {
                let Ok(()) = found.add(event) else {
                    return Err(Memory);
                };
                Ok(())
            }
            None => unreachable!(),
        }
    }
}
