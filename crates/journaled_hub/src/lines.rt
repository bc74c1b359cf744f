//! Lines that are answered together, and noted.
ghost use Rattle.std.specs.Prelude.{◌≡◌, ◌++◌, List, take, length, ◌≤◌, IfOk, OnOk};
ghost use Rattle.hub_model.specs.declared.entry.Entry.{Entry};
ghost use Rattle.hub_replay.specs.Lines.{parsed_lines};
ghost use Rattle.journaled_hub.specs.Answering.{LeadsTo};
ghost use Rattle.journaled_hub.specs.JournaledHubs.{history_of, journal_of, HasNoted, IsJournaled};

use crate::journaled::JournaledHub;
use hub_replay::run;
use journal::RawFile;
use journal_lines::line_of;
use std::thread::Threads;
use taf_codes::{Memory, Std};

impl<F: RawFile> JournaledHub<F> {
    /// Gives the calls of whole lines to the hub as [`run`] does, notes their lines, and gives what is to be written: it may be
    /// told once [`JournaledHub::sync`] was Ok.
    ///
    /// An `Err` tells that memory was refused: calls may be in the history then that are not noted, so the hub is of no use any
    /// more. Nothing is done with the file.
    pub fn answer_lines(&mut self, rt: &impl Threads, lines: &[u8]) -> Result<Vec<u8>, Memory>
        requires { IsJournaled self.old }
        ensures journaled { OnOk result (IsJournaled self.new) }
        ensures answers { IfOk result (λ replies. LeadsTo (history_of self.old)
            (parsed_lines lines.now) (history_of self.new) replies.items) }
        ensures grows { (more : List Entry)
            × (history_of self.new ≡ history_of self.old ++ more) }
        ensures journal { journal_of self.new ≡ journal_of self.old }
    {
        let from = self.hub.len();
        let mut reader = Std::new(lines);
        let mut replies = Std::new(Vec::new(self.alloc));
        // The lines and what is to be written are in memory, so nothing else is refused.
        let Ok(_counts) = run(rt, self.alloc, &mut reader, &mut replies, &mut self.hub) else {
            return Err(Memory);
        };
        self.note_from(from)?;
        Ok(replies.into_inner())
    }

    // Notes the lines of the entries from this position on, of which there are none before.
    fn note_from(&mut self, from: usize) -> Result<(), Memory>
        requires noted { HasNoted self.old (take from (history_of self.old)) }
        requires within { from ≤ length (history_of self.old) }
        ensures journaled { OnOk result (IsJournaled self.new) }
        ensures history { history_of self.new ≡ history_of self.old }
        ensures journal { journal_of self.new ≡ journal_of self.old }
    {
        for at in from..self.hub.len() {
            let Some(entry) = self.hub.entry(at) else {
                return Err(Memory);
            };
            let Ok((line, sum)) = line_of(self.alloc, self.sum, &entry.call) else {
                return Err(Memory);
            };
            let Ok(()) = self.pending.push(line.as_slice()) else {
                return Err(Memory);
            };
            self.sum = sum;
        }
        Ok(())
    }
}
