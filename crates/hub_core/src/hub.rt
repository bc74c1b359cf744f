ghost use Rattle.std.specs.Prelude.{◌≡◌, ◌↔◌, ◌<◌, ◌≤◌, [], ◌∷◌, ◌++◌, List, length, map, take, drop, slice_get, option_copied, IfOk, IfErr, OnErr, IsTrue, Err};
ghost use Rattle.hub_model.specs.Replies.{records_of, view};
ghost use Rattle.hub_answers.specs.Shown.{shown_of, shown_to};
ghost use Rattle.hub_model.specs.Histories.{IsLegal, answer, run, state_of};
ghost use Rattle.hub_model.specs.Bounds.{AreWithinLimits};
ghost use Rattle.hub_model.specs.Laws.{AreDated};
ghost use Rattle.hub_core.specs.Apart.{are_apart};
ghost use Rattle.hub_core.specs.Faults.{IsFault};
ghost use Rattle.hub_core.specs.Delivery.{HaveAllItems};

use crate::applying::apply_call;
use crate::state::State;
use crate::view::View;
use hub_answers::{ShownWagon, apart, ask, shown_part, shown_wagon, view_part};
use hub_model::{Entry, histories_are_runs};
use outbox::boxes_keep_the_lists;
use seeded_state::SeededState;
use std::alloc::Global;
use std::marker::Model;
use taf_codes::{Memory, Railway};
use taf_messages::{Call, ItemBody, MessageNumber, Reply};
use tallies::HubFault;
use wagon_number::WagonNumber;

/// The most calls that a hub takes.
pub(crate) const MAX_CALLS: usize = 1_000_000;

/// The hub, seen as its history: the entries in the order in which it took their calls. What it keeps lies on the heap, so that who
/// owns a hub moves a pointer.
#[derive(Drop)]
pub struct Hub {
    state: Box<State>,
    alloc: Global,
}

impl Model for Hub {
    ghost use Rattle.std.specs.Prelude.{List};
    ghost use Rattle.hub_model.specs.declared.entry.Entry.{Entry};
    ghost use Rattle.hub_core.specs.States.{IsConsistent};

    ghost Value = { List Entry };

    ghost view = { λ h. h.state.value.history.entries };

    ghost invariant = { λ h. IsConsistent h.state.value };
}

impl Hub {
    /// A hub that has taken no call, and whose tables hash from the fixed seed. Want of memory is the only error.
    pub fn new(alloc: Global) -> Result<Hub, Memory>
        ensures { IfOk result (λ hub. hub ≡ []) }
    {
        Hub::with_hasher(alloc, SeededState::fixed())
    }

    /// A hub that has taken no call, and whose tables hash so. Want of memory is the only error.
    pub fn with_hasher(alloc: Global, hasher: SeededState) -> Result<Hub, Memory>
        ensures { IfOk result (λ hub. hub ≡ []) }
    {
        let state = Box::new(alloc, State::with_hasher(alloc, hasher))?;
        Ok(Hub { state, alloc })
    }

    /// How many calls the hub has taken: at most 1,000,000.
    pub fn len(&self) -> usize
        ensures value { result ≡ length self.now }
        ensures few { result ≤ 1000000 }
    {
        self.state.history.len()
    }

    /// Whether the hub has taken no call.
    pub fn is_empty(&self) -> bool
        ensures { IsTrue result ↔ (self.now ≡ []) }
    {
        self.state.history.len() == 0
    }

    /// The entry at this position, from 0.
    pub fn entry(&self, i: usize) -> Option<&Entry>
        ensures { option_copied result ≡ slice_get self.now i }
    {
        self.state.history.get(i)
    }

    /// The history of every hub is legal: its replies are those that its calls get on a new hub, one after another. Its
    /// messages keep the limits of their types. So the laws of `hub_model` hold of it. It does nothing.
    pub fn history_is_legal(&self)
        ensures legal { IsLegal self.now }
        ensures run { map (λ e. e.reply) self.now ≡ run (map (λ e. e.call) self.now) }
        ensures dated { AreDated self.now }
        ensures within { AreWithinLimits self.now }
    {
        histories_are_runs();
        let _state = &*self.state;
    }

    /// Takes a call, and gives its position in the history and its reply.
    #[inline(always)]
    pub fn apply(&mut self, call: Call) -> Result<(u64, Reply), HubFault>
        ensures answered { IfOk result (λ r. (r.0 ≡ length self.old)
            × (r.1 ≡ answer self.old call)) }
        ensures grows { IfOk result (λ r. self.new ≡ self.old
            ++ record { call = call; reply = r.1 } ∷ []) }
        ensures room { IfOk result (λ r. r.0 < 1000000) }
        ensures fault { IfErr result (λ f. IsFault f call (length self.old)) }
        ensures full { length self.old ≡ 1000000 → result ≡ Err (HubFault.Full call) }
        ensures unchanged { OnErr result (self.new ≡ self.old) }
    {
        let position = self.state.history.len();
        if position >= MAX_CALLS {
            return Err(HubFault::Full(call));
        }
        match apply_call(self.alloc, &mut *self.state, call) {
            Ok(reply) => Ok((position as u64, reply)),
            Err(_) => Err(HubFault::Memory),
        }
    }

    /// The records of all planned wagons, by the first accepted plan that named each, then by its
    /// place in that plan.
    #[tactic(auto, using(std::proofs::lemmas::List::take_all))]
    pub fn view(&self) -> Result<View, Memory>
        ensures { IfOk result (λ v. v ≡ view (state_of self.now)) }
    {
        self.view_part(0, self.wagon_count())
    }

    /// How many wagons were planned, each counted once.
    pub fn wagon_count(&self) -> usize
        ensures { result ≡ length (state_of self.now).fleet }
    {
        self.state.tables.fleet_len()
    }

    /// Part of [`Hub::view`]: the records from this place on, which is counted from 0, and at most so many.
    pub fn view_part(&self, from: usize, most: usize) -> Result<View, Memory>
        ensures { let s = state_of self.now in
            IfOk result (λ v. v ≡ records_of s (take most (drop from s.fleet))) }
    {
        let records = view_part(self.alloc, &self.state.tables, from, most)?;
        Ok(View::from_vec(records))
    }

    /// Whether the offer of this name was accepted, and is neither answered nor withdrawn.
    pub fn is_open(&self, by: Railway, no: MessageNumber) -> bool
        ensures { result ≡ (state_of self.now).is_open by no }
    {
        self.state.tables.is_open(by, no)
    }

    /// How many items the railway has been given, with those that it has acknowledged.
    pub fn item_count(&self, by: Railway) -> u64
        ensures { result ≡ length ((state_of self.now).outbox by) }
    {
        boxes_keep_the_lists();
        self.state.outboxes.last(by)
    }

    /// The number of the last item that the railway has acknowledged, 0 if there is none.
    pub fn acknowledged(&self, by: Railway) -> u64
        ensures { result ≡ (state_of self.now).acknowledged by }
    {
        self.state.outboxes.acknowledged(by)
    }

    /// The item at this index of those that the railway has not acknowledged, oldest first and from 0.
    pub fn unacknowledged(&self, by: Railway, index: usize) -> Option<&ItemBody>
        ensures { let s = state_of self.now in
            option_copied result ≡ slice_get (drop (s.acknowledged by) (s.outbox by)) index }
    {
        self.state.outboxes.unacknowledged(by, index)
    }

    /// The railways that the hub has outboxes for: no other has been given an item.
    pub fn railways(&self) -> Result<Vec<Railway>, Memory>
        ensures { IfOk result (λ v. HaveAllItems v.items (state_of self.now)) }
    {
        self.state.outboxes.railways()
    }

    /// The reply that a railway's question for a wagon would get. It is not entered.
    pub fn asked(&self, by: Railway, wagon: WagonNumber) -> Result<Reply, Memory>
        ensures { IfOk result (λ r. r ≡ answer self.now (Call.Ask by wagon)) }
    {
        ask(self.alloc, &self.state.tables, by, wagon)
    }

    /// A wagon as a railway is shown it without a question, if it may see it.
    pub fn shown_wagon(&self, by: Railway, wagon: WagonNumber) -> Result<Option<ShownWagon>, Memory>
        ensures { IfOk result (λ r. r ≡ shown_of (state_of self.now) by wagon) }
    {
        shown_wagon(self.alloc, &self.state.tables, by, wagon)
    }

    /// What a railway may see of planned wagons: of at most so many, from this place on of the order of [`Hub::view`], which is
    /// counted from 0.
    pub fn shown_part(
        &self,
        by: Railway,
        from: usize,
        most: usize,
    ) -> Result<Vec<ShownWagon>, Memory>
        ensures { let s = state_of self.now in
            IfOk result (λ v. v.items ≡ shown_to s by (take most (drop from s.fleet))) }
    {
        shown_part(self.alloc, &self.state.tables, by, from, most)
    }

    /// Whether both calls are sends whose messages may come in either order: they share no wagon,
    /// unit, consignment, offer or name. It takes no memory.
    pub fn apart(&self, call: &Call, other: &Call) -> bool
        ensures { result ≡ are_apart (state_of self.now) call.now other.now }
    {
        let state: &State = &self.state;
        match (call, other) {
            (Call::Send(message), Call::Send(also)) => {
                apart(&state.tables, message.get(), also.get())
            }
            _ => false,
        }
    }
}
