//! The hub and its journal.
ghost use Rattle.std.specs.Prelude.{◌≡◌, ◌⊎◌, ◌<◌, ◌+◌, [], ◌∷◌, ◌++◌, length, map, true, false, IfOk, IfErr, OnOk, OnErr};
ghost use Rattle.log_file.specs.Crashes.{LeavesOnly};
ghost use Rattle.journal.specs.Lines.{StandsFor};
ghost use Rattle.hub_model.specs.Histories.{IsLegal, answer, run};
ghost use Rattle.journaled_hub.specs.HistoryLines.{calls_of, lines_of_history};

use hub_core::{Hub, HubFault};
use journal::{Batch, Failed, Journal, RawFile};
use journal_lines::line_of;
use std::alloc::Global;
use std::mem;
use taf_messages::{Call, Reply};

/// A hub, the journal of its calls, and the lines that were noted and are not on the disk yet.
#[derive(Drop)]
pub struct JournaledHub<F> {
    pub(crate) hub: Hub,
    pub(crate) journal: Journal<F>,
    pub(crate) pending: Batch,
    // The sum of the last line, also of those that were noted.
    pub(crate) sum: u64,
    pub(crate) alloc: Global,
}

impl<F: RawFile> JournaledHub<F> {
    ghost use Rattle.journaled_hub.specs.JournaledHubs.{history_of, journal_of, pending_of, past_of, has_failed, durable_lines, IsJournaled};
    ghost use Rattle.journaled_hub.specs.OpenFaults.{HandsBack};

    /// The hub: by its contracts each look-up is the model's after this history.
    pub fn hub(&self) -> &Hub
        ensures { result.now ≡ history_of self.now }
    {
        &self.hub
    }

    /// How many calls the hub has taken: at most 1,000,000.
    pub fn len(&self) -> usize
        ensures { result ≡ length (history_of self.now) }
    {
        self.hub.len()
    }

    /// Whether a call of the journal's file failed: no line comes onto the disk any more, and the journal has to be opened again.
    pub fn has_failed(&self) -> bool
        ensures { result ≡ has_failed self.now }
    {
        self.journal.has_failed()
    }

    /// The hub by itself, and its journal. What was noted and not synced is forgotten.
    pub fn into_parts(self) -> (Hub, Journal<F>)
        ensures hub { result.0 ≡ history_of self }
        ensures journal { result.1 ≡ journal_of self }
    {
        let JournaledHub { hub, journal, .. } = self;
        (hub, journal)
    }

    /// The replies of the history are those that its calls get on a new hub, one after another. It does nothing.
    pub fn history_is_legal(&self)
        ensures legal { IsLegal (history_of self.now) }
        ensures run { map (λ e. e.reply) (history_of self.now)
            ≡ run (calls_of (history_of self.now)) }
    {
        self.hub.history_is_legal();
    }

    /// Gives a call its position and its reply, as [`Hub::apply`] does, and notes its line. The reply may be told once
    /// [`JournaledHub::sync`] was Ok.
    ///
    /// An `Err` leaves all as it was: `Full` hands the call back, `Memory` tells that memory was refused, for the line or by the hub.
    pub fn apply(&mut self, call: Call) -> Result<(u64, Reply), HubFault>
        requires { IsJournaled self.old }
        ensures journaled { IsJournaled self.new }
        ensures answered { IfOk result (λ r. (r.0 ≡ length (history_of self.old))
            × (r.1 ≡ answer (history_of self.old) call)) }
        ensures room { IfOk result (λ r. r.0 < 1000000) }
        ensures grows { IfOk result (λ r. history_of self.new ≡ history_of self.old
            ++ record { call = call; reply = r.1 } ∷ []) }
        ensures fault { IfErr result (λ f. HandsBack f call (length (history_of self.old))) }
        ensures unchanged { OnErr result (history_of self.new ≡ history_of self.old) }
        ensures not_noted { OnErr result (pending_of self.new ≡ pending_of self.old) }
        // Nothing is done with the file.
        ensures journal { journal_of self.new ≡ journal_of self.old }
    {
        let Ok((line, sum)) = line_of(self.alloc, self.sum, &call) else {
            return Err(HubFault::Memory);
        };
        let Ok(()) = self.pending.push(line.as_slice()) else {
            return Err(HubFault::Memory);
        };
        match self.hub.apply(call) {
            Ok(replied) => {
                self.sum = sum;
                Ok(replied)
            }
            Err(fault) => {
                self.pending.pop(line.len());
                Err(fault)
            }
        }
    }

    /// Puts what was noted on the disk, by one sync. At Ok the journal has the line of each call of the history, and from then on each
    /// crash leaves a file that has them.
    ///
    /// An `Err` tells that a call of the file failed, now or before: no reply that was not told before may be told, and the file
    /// has to be opened again. What was noted is forgotten then. Takes no memory.
    pub fn sync(&mut self) -> Result<(), Failed>
        requires { IsJournaled self.old }
        ensures journaled { IsJournaled self.new }
        ensures history { history_of self.new ≡ history_of self.old }
        ensures none { pending_of self.new ≡ [] }
        ensures durable { OnOk result (durable_lines self.new
            ≡ lines_of_history (history_of self.old)) }
        ensures sound { OnOk result (has_failed self.new ≡ false) }
        ensures failed { OnErr result (has_failed self.new ≡ true) }
        // A crash at any moment of the call leaves the lines from before it, or those of the whole history.
        ensures any_moment { has_failed self.old ≡ false
            → LeavesOnly (past_of self.old) (past_of self.new)
            (λ c. StandsFor c (durable_lines self.old)
            ⊎ StandsFor c (lines_of_history (history_of self.old))) }
    {
        let batch = mem::replace(&mut self.pending, Batch::new(self.alloc));
        match self.journal.commit(batch) {
            Ok(()) => Ok(()),
            Err(Failed) => Err(Failed),
        }
    }
}
