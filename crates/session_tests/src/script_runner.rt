//! A session that is driven by a script, command by command.

use hub_core::{Hub, HubFault};
use inbox::Job;
use session_lines::{Done, Session, Step};
use std::alloc::Global;
use std::mem::replace;
use std::test::Fail;
use taf_messages::{Reply, copy_call, copy_reply};
use test_scripts::{add_line, replies_of};

/// The hello of the railway whose session it is.
pub(crate) const HELLO: &str = r#"{"kind":"hello","from":"R100"}"#;

/// The number of the session.
pub(crate) const ID: u32 = 7;

// The number of another session.
const OTHER: u32 = 8;

// So many jobs as no test gives out.
const MANY: u64 = 1_000_000;

/// A session, the hub that takes its jobs, and what came of its commands. Session and hub lie on the heap, since what owns one
/// itself takes the prover long.
#[derive(Drop)]
pub(crate) struct ScriptRunner {
    alloc: Global,
    session: Box<Session>,
    hub: Box<Hub>,
    /// How many of the session's own answers it has taken.
    taken: usize,
    /// How many lines of a script it was given.
    read: usize,
    /// What came of each command.
    log: Vec<u8>,
    /// The lines that the session said.
    said: Vec<u8>,
}

/// What a session said, and the replies in its tally.
#[derive(Drop)]
pub(crate) struct ScriptResult {
    pub(crate) log: Vec<u8>,
    pub(crate) said: Vec<u8>,
    pub(crate) tally: Vec<u8>,
}

// The job that a letter stands for: `a` is the first.
fn place_of(letter: &str) -> usize {
    match letter.as_bytes().first() {
        Some(letter) => letter.wrapping_sub(b'a') as usize,
        None => 0,
    }
}

// The letter that stands for a job.
fn letter_of(index: u64) -> u8 {
    if index < 26 { b'a' + index as u8 } else { b'?' }
}

// The line of a script at a place, from 0.
fn line_at(script: &str, place: usize) -> Option<&str> {
    script
        .lines()
        .filter(|line| !line.starts_with("> "))
        .nth(place)
}

/// Puts a new session and a new hub in place of these, and gives back the session that was there.
pub(crate) fn begin_anew(
    alloc: Global,
    session: &mut Session,
    hub: &mut Hub,
) -> Result<Session, Fail> {
    *hub = Hub::new(alloc)?;
    Ok(replace(session, Session::new(alloc, ID)))
}

// What the hub answered to a call.
fn answer_of(hub: &Hub, place: usize) -> Result<(u64, Reply), HubFault> {
    let Some(entry) = hub.entry(place) else {
        return Err(HubFault::Memory);
    };
    match copy_reply(&entry.reply) {
        Ok(reply) => Ok((place as u64, reply)),
        Err(_) => Err(HubFault::Memory),
    }
}

// What a hub answers to the same call that is full.
fn full_answer_of(hub: &Hub, place: usize) -> HubFault {
    let Some(entry) = hub.entry(place) else {
        return HubFault::Memory;
    };
    match copy_call(&entry.call) {
        Ok(call) => HubFault::Full(call),
        Err(_) => HubFault::Memory,
    }
}

fn done(session: u32, place: usize, answer: Result<(u64, Reply), HubFault>) -> Done {
    Done {
        session,
        index: place as u64,
        answer,
    }
}

// The answer that a command names: the hub's, or one that is altered. None where it names none.
fn named_answer(hub: &Hub, command: &str) -> Option<Done> {
    if let Some(letter) = command.strip_prefix("< ") {
        let place = place_of(letter);
        return Some(done(ID, place, answer_of(hub, place)));
    }
    if let Some(letter) = command.strip_prefix("another's < ") {
        let place = place_of(letter);
        return Some(done(OTHER, place, answer_of(hub, place)));
    }
    if let Some(letter) = command.strip_prefix("full < ") {
        let place = place_of(letter);
        return Some(done(ID, place, Err(full_answer_of(hub, place))));
    }
    match command.strip_prefix("no memory < ") {
        Some(letter) => Some(done(ID, place_of(letter), Err(HubFault::Memory))),
        None => None,
    }
}

impl ScriptRunner {
    /// A session that has read no line, and a hub that has taken no call.
    pub(crate) fn new(alloc: Global) -> Result<ScriptRunner, Fail> {
        Ok(ScriptRunner {
            alloc,
            session: Box::new(alloc, Session::new(alloc, ID))?,
            hub: Box::new(alloc, Hub::new(alloc)?)?,
            taken: 0,
            read: 0,
            log: Vec::new(alloc),
            said: Vec::new(alloc),
        })
    }

    // Notes what came of a command.
    fn note(&mut self, line: &[u8]) -> Result<(), Fail> {
        Ok(add_line(&mut self.log, line)?)
    }

    // Notes what the session said.
    fn say(&mut self, line: &[u8]) -> Result<(), Fail> {
        add_line(&mut self.said, line)?;
        self.note(line)
    }

    // The hub takes a job of the session.
    fn take_job(&mut self, job: Job) -> Result<(), Fail> {
        let Job {
            session,
            index,
            call,
        } = job;
        if session != ID || index != self.hub.len() as u64 {
            return Err(Fail::new("another job"));
        }
        if self.hub.apply(call).is_err() {
            return Err(Fail::new("a fault of the hub"));
        }
        self.log.extend_from_slice(b"job ")?;
        self.log.push(letter_of(index))?;
        self.log.push(b'\n')?;
        Ok(())
    }

    /// Gives the session a line.
    pub(crate) fn read_line(&mut self, line: &[u8]) -> Result<(), Fail> {
        if self.session.busy() || self.session.job_count() >= MANY {
            return self.note(b"busy");
        }
        match self.session.on_line(line) {
            Step::Nothing => self.note(b"nothing"),
            Step::Say(line) => self.say(line.bytes()),
            Step::Held => self.note(b"held"),
            Step::Ask(job) => self.take_job(job),
            Step::Ended => self.note(b"ended"),
        }
    }

    // Gives the session an answer.
    fn take_answer(&mut self, done: Done) -> Result<(), Fail> {
        if !self.session.has_job_in_front() {
            return self.note(b"no job");
        }
        let line = self.session.on_done(done);
        self.say(line.bytes())
    }

    // Has the session say the line that it holds in front.
    fn say_held(&mut self) -> Result<bool, Fail> {
        match self.session.next_held() {
            Some(line) => {
                self.say(line.bytes())?;
                Ok(true)
            }
            None => Ok(false),
        }
    }

    /// Gives the session the answer to its oldest job, if one is out, and has it say what it held behind that.
    pub(crate) fn take_own(&mut self) -> Result<(), Fail> {
        if !self.session.has_job_in_front() {
            return Ok(());
        }
        let place = self.taken;
        self.taken = place.saturating_add(1);
        let answer = answer_of(&self.hub, place);
        self.take_answer(done(ID, place, answer))?;
        for _ in 0..16u32 {
            if !self.say_held()? {
                return Ok(());
            }
        }
        Ok(())
    }

    // Has the session say the line that it holds in front, and notes it where there is none.
    fn say_front(&mut self) -> Result<(), Fail> {
        if self.say_held()? {
            return Ok(());
        }
        self.note(b"none")
    }

    // Does one command: an answer, a held line that is asked for, or a line that is read.
    fn perform(&mut self, command: &str) -> Result<(), Fail> {
        if let Some(done) = named_answer(&self.hub, command) {
            return self.take_answer(done);
        }
        if command == "front" {
            return self.say_front();
        }
        self.read_line(command.as_bytes())
    }

    /// Does the commands of a text.
    pub(crate) fn run_text(&mut self, text: &str) -> Result<(), Fail> {
        for command in text.lines().filter(|line| !line.starts_with("> ")) {
            self.perform(command)?;
        }
        Ok(())
    }

    /// Does the commands of a script.
    pub(crate) fn run(&mut self, script: &[&str]) -> Result<(), Fail> {
        for text in script {
            self.run_text(text)?;
        }
        Ok(())
    }

    /// Gives the session the next line of a script, if there is one.
    pub(crate) fn read_next(&mut self, script: &str) -> Result<(), Fail> {
        let place = self.read;
        self.read = place.saturating_add(1);
        match line_at(script, place) {
            Some(line) => self.read_line(line.as_bytes()),
            None => Ok(()),
        }
    }

    /// Takes what came of it, and begins anew with a new session and a new hub.
    pub(crate) fn end(&mut self) -> Result<ScriptResult, Fail> {
        let session = begin_anew(self.alloc, &mut *self.session, &mut *self.hub)?;
        self.taken = 0;
        self.read = 0;
        let tally = replies_of(self.alloc, &session.on_end())?;
        Ok(ScriptResult {
            log: replace(&mut self.log, Vec::new(self.alloc)),
            said: replace(&mut self.said, Vec::new(self.alloc)),
            tally,
        })
    }
}
