//! The session with its slots.
ghost use Rattle.std.specs.Prelude.{◌≡◌, ◌≢◌, ◌+◌, ◌<◌, ◌≤◌, ◌^◌, ◌⊎◌, length, [], true, false, Ok};
ghost use Rattle.session_lines.specs.declared.meaning.Meaning.TheVariants.{Hello, Calls};
ghost use Rattle.session_lines.specs.States.{jobs_out, new_state, state_with_tally};
ghost use Rattle.call_lines.specs.Lines.{reply_text};
ghost use Rattle.session_lines.specs.Texts.{line_fault_text};
ghost use Rattle.session_lines.specs.Meanings.{text_meaning};
ghost use Rattle.session_lines.specs.Steps.{saying_step, after_saying, SoundTakes, TakesLine, IsDoneLine, is_own, after_stranger, after_done, with_entry, is_job_in_front, front_line, after_front};

use crate::fault::LineFault;
use crate::line::Line;
use crate::meaning::{Meaning, meaning_of};
use call_lines::{LONGEST, is_blank_line};
use call_reader::CallReader;
use inbox::Job;
use memory_ahead::ask_ahead;
use reply_writer::Buffer;
use std::alloc::Global;
use std::collections::VecDeque;
use std::marker::Model;
use std::mem;
use taf_codes::Railway;
use taf_messages::{Call, Reply, copy_call};
use tallies::{HubFault, Tally, Told};

/// How many slots a session has.
pub const WINDOW: usize = 16;

// After so many jobs the allocator is asked ahead for what the next ones take.
const JOBS_ASKED_FOR: u64 = 512;

/// What a session does at a line.
#[derive(Drop)]
pub enum Step {
    Nothing,
    /// It says this line.
    Say(Line),
    /// It holds the line that it says until those before it are said.
    Held,
    /// It gives this job out.
    Ask(Job),
    /// It has failed, and does nothing more.
    Ended,
}

/// The answer to a job: the position of its call in the history and the reply, or why there is none.
#[derive(Drop)]
pub struct Done {
    pub session: u32,
    pub index: u64,
    pub answer: Result<(u64, Reply), HubFault>,
}

/// A place in the order of the lines that are said.
#[derive(Drop)]
pub enum Slot {
    /// That of the answer to a job that is out, with the job's call.
    JobOut(Call),
    /// That of a line that is held.
    HeldLine(Line),
}

/// A session, with up to sixteen slots taken.
#[derive(Drop)]
pub struct Session {
    alloc: Global,
    reader: CallReader,
    // Where the next answer is written.
    text: Buffer,
    id: u32,
    railway: Option<Railway>,
    job_count: u64,
    out_count: u64,
    // In a ring, which has room for all once the first job is out.
    slots: VecDeque<Slot>,
    has_failed: bool,
    tally: Tally,
}

impl Model for Session {
    ghost use Rattle.std.specs.Prelude.{◌≡◌, ◌<◌, ◌≤◌, length, [], true};
    ghost use Rattle.std.specs.VecDeque.{deque_capacity, deque_len};
    ghost use Rattle.session_lines.specs.States.{State, jobs_out};

    ghost Value = { State };

    ghost view = { λ s. record {
      id = s.id;
      railway = s.railway;
      job_count = s.job_count;
      slots = s.slots.items;
      has_failed = s.has_failed;
      tally = s.tally.entries;
    } };

    ghost invariant = { λ s. (s.out_count ≡ jobs_out s.slots.items) × (s.out_count ≤ s.job_count)
        × (s.out_count ≤ s.tally.spare) × (length s.slots.items ≤ 16)
        × (s.has_failed ≡ true → s.slots.items ≡ [])
        × (0 < deque_len s.slots → 16 ≤ deque_capacity s.slots) };
}

impl Session {
    /// A session that has read no line. Takes no memory.
    pub fn new(alloc: Global, id: u32) -> Session
        ensures { result ≡ new_state id }
    {
        Session::with_tally(alloc, id, Tally::new(alloc))
    }

    /// A session that has read no line, and that notes what it is told behind what this tally has already. Takes no memory.
    pub fn with_tally(alloc: Global, id: u32, tally: Tally) -> Session
        ensures { result ≡ state_with_tally id tally.entries }
    {
        Session {
            alloc,
            reader: CallReader::new(alloc),
            text: Buffer::new(Vec::new(alloc)),
            id,
            railway: None,
            job_count: 0,
            out_count: 0,
            slots: VecDeque::new(alloc),
            has_failed: false,
            tally,
        }
    }

    /// Whether all slots are taken. Takes no memory.
    pub fn busy(&self) -> bool
        ensures busy { result ≡ true → length self.now.slots ≡ 16 }
        ensures free { result ≡ false → length self.now.slots < 16 }
    {
        self.slots.len() == WINDOW
    }

    /// Whether no slot is taken.
    pub fn is_idle(&self) -> bool
        ensures idle { result ≡ true → self.now.slots ≡ [] }
        ensures taken { result ≡ false → self.now.slots ≢ [] }
    {
        self.slots.is_empty()
    }

    /// Whether the slot in front is a job that is out.
    pub fn has_job_in_front(&self) -> bool
        ensures { result ≡ is_job_in_front self.now.slots }
    {
        matches!(self.slots.front(), Some(Slot::JobOut(_)))
    }

    /// Whether a stranger's answer came. Then no slot is taken.
    pub fn has_failed(&self) -> bool
        ensures value { result ≡ self.now.has_failed }
        ensures idle { result ≡ true → self.now.slots ≡ [] }
    {
        self.has_failed
    }

    /// How many of its jobs are out.
    pub fn jobs_out(&self) -> u64
        ensures { result ≡ jobs_out self.now.slots }
    {
        self.out_count
    }

    /// How many jobs it gave out.
    pub fn job_count(&self) -> u64
        ensures { result ≡ self.now.job_count }
    {
        self.job_count
    }

    /// Takes a line, without its newline, as what it means. Where memory is refused it says so, gives no job out and
    /// keeps its railway as it was.
    #[tactic(auto, unfolding(crate::specs::Meanings::meaning_by_length))]
    pub fn on_line(&mut self, line: &[u8]) -> Step
        requires free { length self.old.slots < 16 }
        requires few { self.old.job_count < 2 ^ 62 }
        ensures { TakesLine self.old line.now result self.new }
    {
        if self.has_failed {
            return Step::Ended;
        }
        if line.len() > LONGEST {
            return self.say(Line::of_fault(LineFault::LineTooLong));
        }
        if is_blank_line(line) {
            return Step::Nothing;
        }
        self.on_text(line)
    }

    // Takes a line that is neither too long nor blank.
    fn on_text(&mut self, line: &[u8]) -> Step
        requires free { length self.old.slots < 16 }
        requires few { self.old.job_count < 2 ^ 62 }
        requires sound { self.old.has_failed ≡ false }
        ensures { SoundTakes self.old (text_meaning self.old.railway line.now) result self.new }
    {
        let Ok(meaning) = meaning_of(self.alloc, &mut self.reader, self.railway, line) else {
            return self.say(Line::of_fault(LineFault::NoMemory));
        };
        match meaning {
            Meaning::Blank => Step::Nothing,
            Meaning::Hello(railway) => self.on_hello(railway),
            Meaning::Wrong(line) => self.say(line),
            Meaning::Calls(call) => self.on_call(call),
        }
    }

    // Says a line at once, or holds it where a slot is taken.
    fn say(&mut self, line: Line) -> Step
        requires free { length self.old.slots < 16 }
        requires sound { self.old.has_failed ≡ false }
        ensures step { result ≡ saying_step self.old line }
        ensures after { self.new ≡ after_saying self.old line }
    {
        if self.slots.is_empty() {
            return Step::Say(line);
        }
        self.slots.push_back_reserved(Slot::HeldLine(line));
        Step::Held
    }

    // Takes the railway of a hello.
    fn on_hello(&mut self, railway: Railway) -> Step
        requires free { length self.old.slots < 16 }
        requires sound { self.old.has_failed ≡ false }
        ensures { SoundTakes self.old (Hello railway) result self.new }
    {
        let Ok(line) = Line::of_hello(self.alloc, railway) else {
            return self.say(Line::of_fault(LineFault::NoMemory));
        };
        self.railway = Some(railway);
        self.say(line)
    }

    // Gives a job out, once a copy of its call is kept and its place in the tally is reserved.
    fn on_call(&mut self, call: Call) -> Step
        requires free { length self.old.slots < 16 }
        requires few { self.old.job_count < 2 ^ 62 }
        requires sound { self.old.has_failed ≡ false }
        ensures { SoundTakes self.old (Calls call) result self.new }
    {
        if self.job_count % JOBS_ASKED_FOR == 0 {
            ask_ahead(self.alloc);
        }
        let Ok(copy) = copy_call(&call) else {
            return self.say(Line::of_fault(LineFault::NoMemory));
        };
        if self.slots.reserve(WINDOW - self.slots.len()).is_err() {
            return self.say(Line::of_fault(LineFault::NoMemory));
        }
        if self.tally.reserve(self.slots.len() + 1).is_err() {
            return self.say(Line::of_fault(LineFault::NoMemory));
        }
        let job = Job {
            session: self.id,
            index: self.job_count,
            call,
        };
        self.slots.push_back_reserved(Slot::JobOut(copy));
        self.out_count += 1;
        self.job_count += 1;
        Step::Ask(job)
    }

    /// Takes the answer of the oldest job that is out, and gives its line, or the line that says that its memory is
    /// refused. Its entry in the tally takes no memory. Any other answer is a stranger's: the session has failed,
    /// drops its held lines, and its jobs that are out get no entry.
    pub fn on_done(&mut self, done: Done) -> Line
        requires { is_job_in_front self.old.slots ≡ true }
        ensures line { IsDoneLine self.old done result }
        ensures after { self.new ≡ after_done self.old done }
    {
        if !self.owns(&done) {
            return self.fail();
        }
        let Some(Slot::JobOut(call)) = self.slots.pop_front() else {
            unreachable!()
        };
        self.out_count -= 1;
        match done.answer {
            Ok((position, reply)) => {
                let line = line_of(self.alloc, &mut self.text, &reply);
                note_answer(&mut self.tally, position, call, reply);
                line
            }
            Err(fault) => Line::of_hub_fault(&fault),
        }
    }

    /// Takes a line back that was said. The next answer is written into its memory.
    pub fn take_back(&mut self, line: Line)
        ensures { self.new ≡ self.old }
    {
        if let Some(text) = line.into_buffer() {
            self.text = text;
        }
    }

    // Whether the answer is that of the oldest job that is out.
    fn owns(&self, done: &Done) -> bool
        ensures { result ≡ is_own self.now done.now }
    {
        done.session == self.id && done.index == self.job_count - self.out_count
    }

    // Ends the session after a stranger's answer, and says so.
    fn fail(&mut self) -> Line
        ensures line { result ≡ line_fault_text LineFault.Stranger }
        ensures after { self.new ≡ after_stranger self.old }
    {
        self.has_failed = true;
        self.out_count = 0;
        self.slots.clear();
        Line::of_fault(LineFault::Stranger)
    }

    /// The line in front, where that is one that was held. Its slot is then free. Takes no memory.
    pub fn next_held(&mut self) -> Option<Line>
        ensures line { result ≡ front_line self.old.slots }
        ensures after { self.new ≡ after_front self.old }
    {
        if self.has_job_in_front() {
            return None;
        }
        match self.slots.pop_front() {
            Some(Slot::HeldLine(line)) => Some(line),
            _ => None,
        }
    }

    /// What it was told. Takes no memory.
    pub fn on_end(self) -> Tally
        ensures { result.entries ≡ self.tally }
    {
        let Session { tally, .. } = self;
        tally
    }
}

// The line of a reply, written into the memory of this buffer.
fn line_of(alloc: Global, buffer: &mut Buffer, reply: &Reply) -> Line
    ensures { (result ≡ reply_text reply.now) ⊎ (result ≡ line_fault_text LineFault.NoMemory) }
{
    let mut text = mem::replace(buffer, Buffer::new(Vec::new(alloc)));
    text.clear();
    Line::of_reply(alloc, text, reply)
}

// Enters an answer into a tally that has room for it.
fn note_answer(tally: &mut Tally, position: u64, call: Call, reply: Reply)
    requires { 0 < tally.old.spare }
    ensures entry { tally.new.entries ≡ with_entry tally.old.entries call (Ok (position, reply)) }
    ensures room { tally.old.spare ≤ tally.new.spare + 1 }
{
    let _ = tally.note(Told {
        position,
        call,
        reply,
    });
}
