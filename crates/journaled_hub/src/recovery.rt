//! The hub of a journal.
ghost use Rattle.std.specs.Prelude.{◌≡◌, ◌++◌, ◌+◌, ◌<◌, ◌≤◌, [], length, true, false, None, All, IfOk, IfErr, OnOk};
ghost use Rattle.log_file.specs.Crashes.{LeavesOnly};
ghost use Rattle.log_file.specs.Files.{past_of as file_past};
ghost use Rattle.journal.specs.Lines.{recovered_lines, text_lines, StandsFor};
ghost use Rattle.journal.specs.Journals.{bytes_read, torn_bytes, whole_len, given_lines, past_read, IsReading, IsAtEnd};
ghost use Rattle.reply_writer.specs.Laws.{IsCall};
ghost use Rattle.journal_lines.specs.CallLines.{last_sum};
ghost use Rattle.journaled_hub.specs.HistoryLines.{calls_of, lines_of_history};
ghost use Rattle.journaled_hub.specs.JournaledHubs.{history_of, pending_of, past_of, has_failed, durable_lines, IsJournaled};
ghost use Rattle.journaled_hub.specs.CallBatches.{IsCallBatch, HasGiven, has_text, lines_given, IsFaultOfCalls};
ghost use Rattle.journaled_hub.specs.OpenFaults.{fault_of_journal, fault_of_line, IsOpenFault};

use crate::call_batch::{CallBatch, read_calls};
use crate::fault::OpenFault;
use crate::journaled::JournaledHub;
use hub_core::{Hub, HubFault};
use journal::{Batch, Journal, JournalFault, JournalReader, LogFile, RawFile};
use journal_lines::{LineFault, first_sum};
use seeded_state::SeededState;
use std::alloc::Global;
use std::collections::VecDeque;
use std::mem::replace;
use std::thread::{Threads, join_mut};
use taf_messages::Call;

/// The hub of the calls that a journal has, whose file was read to its end, and to which nothing was written.
#[derive(Drop)]
pub struct RecoveredHub<F> {
    hub: Hub,
    reader: JournalReader<F>,
    // The sum of the last line.
    sum: u64,
    alloc: Global,
}

impl<F: RawFile> RecoveredHub<F> {
    ghost use Rattle.journaled_hub.specs.Recovered.{history_read, reader_of, IsRecovered};

    /// The hub of the calls that the file has, one after another, whose tables hash so. The file was opened and synced.
    ///
    /// While the calls of some batches are given to the hub, another thread reads those of the next ones. Beside the hub, memory is taken
    /// for what is read at once, twice, and for one batch.
    ///
    /// An `Err` names the first fault of the lines, or that of the file, and hands back what was read. Nothing is written to the file.
    pub fn read(
        rt: &impl Threads,
        alloc: Global,
        hasher: SeededState,
        raw: F,
    ) -> Result<RecoveredHub<F>, (OpenFault, JournalReader<F>)>
        ensures recovered { IfOk result (λ r. IsRecovered r) }
        ensures fault { IfErr result (λ e. IsOpenFault e.0 (bytes_read e.1)) }
    {
        let mut reader = JournalReader::new(alloc, raw);
        let Ok(mut hub) = Hub::with_hasher(alloc, hasher) else {
            return Err((OpenFault::Memory, reader));
        };
        match take_calls(rt, &mut hub, &mut reader) {
            Ok(sum) => Ok(RecoveredHub {
                hub,
                reader,
                sum,
                alloc,
            }),
            Err(fault) => Err((fault, reader)),
        }
    }

    /// The hub: it has taken these calls and no others.
    pub fn hub(&self) -> &Hub
        ensures { result.now ≡ history_read self.now }
    {
        &self.hub
    }

    /// How many calls it has.
    pub fn len(&self) -> usize
        ensures { result ≡ length (history_read self.now) }
    {
        self.hub.len()
    }

    /// How many bytes of the file are whole batches.
    pub fn whole_len(&self) -> usize
        ensures { result ≡ whole_len (reader_of self.now) }
    {
        self.reader.whole_len()
    }

    /// How many bytes the torn end of the file has.
    pub fn torn_len(&self) -> usize
        ensures { result ≡ length (torn_bytes (reader_of self.now)) }
    {
        self.reader.torn_len()
    }

    /// The hub with its journal. A torn end, which was never acknowledged, is cut off, and the file synced. `Err` hands the file back,
    /// where a call of it failed.
    pub fn open(self) -> Result<JournaledHub<F>, LogFile<F>>
        requires { IsRecovered self }
        ensures journaled { IfOk result (λ h. IsJournaled h) }
        ensures sound { IfOk result (λ h. has_failed h ≡ false) }
        ensures history { IfOk result (λ h. history_of h ≡ history_read self) }
        ensures durable { IfOk result (λ h. durable_lines h
            ≡ recovered_lines (bytes_read (reader_of self))) }
        ensures none { IfOk result (λ h. pending_of h ≡ []) }
        // A crash at any moment of the call leaves a file that stands for the same lines.
        ensures any_moment { IfOk result (λ h. LeavesOnly (past_read (reader_of self)) (past_of h)
            (λ c. StandsFor c (recovered_lines (bytes_read (reader_of self))))) }
        ensures any_moment_err { IfErr result (λ f.
            LeavesOnly (past_read (reader_of self)) (file_past f)
            (λ c. StandsFor c (recovered_lines (bytes_read (reader_of self))))) }
    {
        let RecoveredHub {
            hub,
            reader,
            sum,
            alloc,
        } = self;
        match Journal::open(reader) {
            Ok(journal) => Ok(JournaledHub {
                hub,
                journal,
                pending: Batch::new(alloc),
                sum,
                alloc,
            }),
            Err(file) => Err(file),
        }
    }
}

// Gives the calls of the lines of a journal to a new hub, one after another, while another thread reads the calls of the next lines;
// the sum of the last line.
fn take_calls<F: RawFile>(
    rt: &impl Threads,
    hub: &mut Hub,
    reader: &mut JournalReader<F>,
) -> Result<u64, OpenFault>
    requires hub { hub.old ≡ [] }
    requires reading { IsReading reader.old }
    requires none { given_lines reader.old ≡ [] }
    ensures reading { OnOk result (IsReading reader.new) }
    ensures at_end { OnOk result (IsAtEnd reader.new) }
    ensures lines { OnOk result (lines_of_history hub.new ≡ recovered_lines (bytes_read reader.new)) }
    ensures sum { IfOk result (λ s. s ≡ last_sum (calls_of hub.new)) }
    ensures limits { OnOk result (All IsCall (calls_of hub.new)) }
    ensures fault { IfErr result (λ f. IsOpenFault f (bytes_read reader.new)) }
{
    let alloc = reader.alloc();
    let mut lists = Lists {
        batch: CallBatch::none(alloc, first_sum()),
        spare: VecDeque::new(alloc),
    };
    let mut given = next_given(reader);
    'batches: while goes_on(&lists.batch, &given) {
        let (ahead, (applied, next)) = apply_and_read(rt, hub, &mut lists, text_of(&given), reader);
        match applied {
            Ok(()) => {}
            Err(fault) => return Err(fault),
        }
        lists.spare = replace(&mut lists.batch, ahead).calls;
        given = next;
    }
    let CallBatch {
        mut calls,
        sum,
        fault,
    } = lists.batch;
    match apply_calls(hub, &mut calls) {
        Ok(()) => {}
        Err(fault) => return Err(fault),
    }
    match (fault, given) {
        (Some(fault), _) => Err(line_fault(fault, hub.len() + 1)),
        (None, Err(fault)) => Err(file_fault(fault)),
        (None, Ok(_)) => Ok(sum),
    }
}

// What the reader of a journal gave: batches, the end of the file, or a fault.
type Given = Result<Option<Vec<u8>>, JournalFault>;

// The calls that were read last, and a list for the next ones.
#[derive(Drop)]
struct Lists {
    batch: CallBatch,
    spare: VecDeque<Call>,
}

// What the reader gives next.
fn next_given<F: RawFile>(reader: &mut JournalReader<F>) -> Given
    requires { IsReading reader.old }
    ensures given { HasGiven (given_lines reader.old) reader.new result }
    ensures order { whole_len reader.old ≤ whole_len reader.new }
    ensures longer { has_text result ≡ true → whole_len reader.old < whole_len reader.new }
{
    reader.next_batches()
}

// Whether calls may follow: there are batches whose lines were not read, and no line before them is refused.
fn goes_on(batch: &CallBatch, given: &Given) -> bool
    ensures text { result ≡ true → has_text given.now ≡ true }
    ensures taken { result ≡ true → batch.now.fault ≡ None }
    ensures last { result ≡ false → batch.now.fault ≡ None → has_text given.now ≡ false }
{
    match (given, batch.fault) {
        (Ok(Some(_)), None) => true,
        _ => false,
    }
}

// The text of the batches that were given; an empty one where none were.
fn text_of(given: &Given) -> &[u8]
    ensures { has_text given.now ≡ true → text_lines result.now ≡ lines_given given.now }
{
    match given {
        Ok(Some(text)) => text.as_slice(),
        _ => &[],
    }
}

// Gives the calls that were read to the hub, one after another, and reads on in the file, while another thread reads the calls of the
// text that comes next.
fn apply_and_read<F: RawFile>(
    rt: &impl Threads,
    hub: &mut Hub,
    lists: &mut Lists,
    text: &[u8],
    reader: &mut JournalReader<F>,
) -> (CallBatch, (Result<(), OpenFault>, Given))
    requires { IsReading reader.old }
    ensures ahead { IsCallBatch (text_lines text.now) lists.old.batch.sum result.0 }
    ensures given { HasGiven (given_lines reader.old) reader.new result.1.1 }
    ensures order { whole_len reader.old ≤ whole_len reader.new }
    ensures longer { has_text result.1.1 ≡ true → whole_len reader.old < whole_len reader.new }
    ensures calls { OnOk result.1.0 (calls_of hub.new
        ≡ calls_of hub.old ++ lists.old.batch.calls.items) }
    ensures fault { IfErr result.1.0 (λ f.
        IsFaultOfCalls f (length hub.old + length lists.old.batch.calls.items)) }
{
    let alloc = reader.alloc();
    let sum = lists.batch.sum;
    let spare = &mut lists.spare;
    let calls = &mut lists.batch.calls;
    join_mut(
        rt,
        &mut || read_calls(alloc, spare, text, sum),
        &mut || apply_and_give(hub, calls, reader),
    )
}

// Gives calls to the hub, one after another, and then reads on.
fn apply_and_give<F: RawFile>(
    hub: &mut Hub,
    calls: &mut VecDeque<Call>,
    reader: &mut JournalReader<F>,
) -> (Result<(), OpenFault>, Given)
    requires { IsReading reader.old }
    ensures given { HasGiven (given_lines reader.old) reader.new result.1 }
    ensures order { whole_len reader.old ≤ whole_len reader.new }
    ensures longer { has_text result.1 ≡ true → whole_len reader.old < whole_len reader.new }
    ensures calls { OnOk result.0 (calls_of hub.new ≡ calls_of hub.old ++ calls.old.items) }
    ensures fault { IfErr result.0 (λ f.
        IsFaultOfCalls f (length hub.old + length calls.old.items)) }
{
    let applied = apply_calls(hub, calls);
    (applied, next_given(reader))
}

// Gives calls to the hub, one after another.
fn apply_calls(hub: &mut Hub, calls: &mut VecDeque<Call>) -> Result<(), OpenFault>
    ensures calls { OnOk result (calls_of hub.new ≡ calls_of hub.old ++ calls.old.items) }
    ensures fault { IfErr result (λ f.
        IsFaultOfCalls f (length hub.old + length calls.old.items)) }
{
    while let Some(call) = calls.pop_front() {
        match hub.apply(call) {
            Ok(_) => {}
            Err(HubFault::Full(_)) => return Err(OpenFault::Full),
            Err(HubFault::Memory) => return Err(OpenFault::Memory),
        }
    }
    Ok(())
}

// The fault of the line of this number.
fn line_fault(fault: LineFault, number: usize) -> OpenFault
    ensures { result ≡ fault_of_line fault number }
{
    match fault {
        LineFault::Memory => OpenFault::Memory,
        LineFault::NoCall => OpenFault::NoCall(number),
        LineFault::OtherSum => OpenFault::OtherSum(number),
    }
}

// The fault of a journal that is not read on.
fn file_fault(fault: JournalFault) -> OpenFault
    ensures { result ≡ fault_of_journal fault }
{
    match fault {
        JournalFault::Memory => OpenFault::Memory,
        JournalFault::Failed => OpenFault::Failed,
        JournalFault::Damaged(whole) => OpenFault::Damaged(whole),
    }
}
