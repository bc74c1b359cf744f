//! The writer of a session that is to begin with a hello.
ghost use Rattle.std.specs.Prelude.{◌≡◌, ◌+◌, ◌<◌, ◌≤◌, true, false, length, is_ok, if◌then◌else◌, IfOk, OnOk};
ghost use Rattle.std.specs.Io.KnownBytes.{Keeps, WriteAppends};
ghost use Rattle.railway_keys.specs.FirstAnswers.{after_flush, after_push, answers_hello, failures_of, goes_on};
ghost use Rattle.railway_keys.specs.declared.hello_writer.FirstAnswer.TheVariants as answers;

use taf_codes::{Failed, Failures, Sink};

// How the answer to a hello begins.
static HELLO: &[u8] = b"{\"hello\":\"";

/// What is known of the first bytes that a writer was given.
#[derive(Clone, Copy, Debug, PartialEq, Eq)]
pub enum FirstAnswer {
    /// There are none yet.
    Awaited,
    /// They are the answer to a hello, or may be anything.
    Hello,
    /// They are something else.
    Other,
    /// They are something else, and were sent on. The session is to end.
    Refused,
}

impl FirstAnswer {
    // What is known once these bytes are given too.
    fn after_push(self, bytes: &[u8]) -> FirstAnswer
        ensures { result ≡ after_push self bytes.now }
    {
        if self != FirstAnswer::Awaited || bytes.is_empty() {
            self
        } else if answers_hello(bytes) {
            FirstAnswer::Hello
        } else {
            FirstAnswer::Other
        }
    }

    // What is known once they are sent on.
    fn after_flush(self) -> FirstAnswer
        ensures { result ≡ after_flush self }
    {
        match self {
            FirstAnswer::Awaited => FirstAnswer::Awaited,
            FirstAnswer::Hello => FirstAnswer::Hello,
            FirstAnswer::Other | FirstAnswer::Refused => FirstAnswer::Refused,
        }
    }

    // Whether the session may go on.
    fn goes_on(self) -> bool
        ensures { result ≡ goes_on self }
    {
        matches!(self, FirstAnswer::Awaited | FirstAnswer::Hello)
    }
}

// Whether these bytes begin as the answer to a hello does.
#[tactic(auto, unfolding(crate::specs::FirstAnswers::answers_hello))]
fn answers_hello(bytes: &[u8]) -> bool
    ensures { result ≡ answers_hello bytes.now }
{
    bytes.starts_with(HELLO)
}

/// Writes what a session says, and ends the session where its first answer is not the one to a hello.
///
/// Such an answer is written and sent on, so that the client is told. But the flush that sends it on fails, and so does each call after
/// it. A session flushes its writer before it reads again, and ends where the flush fails: so it reads nothing behind its first line.
#[derive(Drop)]
pub struct HelloWriter<K> {
    writer: K,
    answer: FirstAnswer,
    // How many calls failed of which the other writer knows nothing.
    failed: Failures,
}

impl<K: Sink> HelloWriter<K> {
    /// Writes to this writer what a session says that is to begin with a hello.
    pub fn new(writer: K) -> HelloWriter<K>
        ensures contents { K.contents result.writer ≡ K.contents writer }
        ensures failures { failures_of K.failures result ≡ K.failures writer }
        ensures answer { result.answer ≡ answers.Awaited }
    {
        HelloWriter {
            writer,
            answer: FirstAnswer::Awaited,
            failed: Failures::new(),
        }
    }

    /// Writes to this writer whatever a session says.
    pub fn without_keys(writer: K) -> HelloWriter<K>
        ensures contents { K.contents result.writer ≡ K.contents writer }
        ensures failures { failures_of K.failures result ≡ K.failures writer }
        ensures answer { result.answer ≡ answers.Hello }
    {
        HelloWriter {
            writer,
            answer: FirstAnswer::Hello,
            failed: Failures::new(),
        }
    }

    /// What is known of the first bytes that it was given.
    pub fn first_answer(&self) -> FirstAnswer
        ensures { result ≡ self.now.answer }
    {
        self.answer
    }

    // A failure of its own.
    fn fail(&mut self) -> Failed
        ensures writer { self.new.writer ≡ self.old.writer }
        ensures answer { self.new.answer ≡ self.old.answer }
        ensures counted { failures_of K.failures self.new
            ≡ failures_of K.failures self.old + 1 }
    {
        self.failed.add_one();
        Failed
    }
}

impl<K: Sink> Sink for HelloWriter<K> {
    ghost contents = { λ hello. K.contents hello.writer };

    ghost failures = { λ hello. failures_of K.failures hello };

    /// Takes bytes as the writer behind does, and fails once a flush has failed for the first answer.
    fn push(&mut self, bytes: &[u8]) -> Result<usize, Failed>
        ensures bound { IfOk result (λ n. n ≤ length bytes.now) }
        ensures some { IfOk result (λ n. 0 < length bytes.now → 0 < n) }
        ensures bytes { WriteAppends (K.contents self.old.writer) (K.contents self.new.writer)
            result bytes.now }
        ensures counted { failures_of K.failures self.new
            ≡ (if is_ok result then failures_of K.failures self.old
            else failures_of K.failures self.old + 1) }
        ensures answer { self.new.answer ≡ after_push self.old.answer bytes.now }
        ensures refused { self.old.answer ≡ answers.Refused → is_ok result ≡ false }
    {
        if self.answer == FirstAnswer::Refused {
            return Err(self.fail());
        }
        self.answer = self.answer.after_push(bytes);
        self.writer.push(bytes)
    }

    /// Sends on as the writer behind does, and fails where the first answer is not the one to a hello.
    fn flush(&mut self) -> Result<(), Failed>
        ensures bytes { Keeps (K.contents self.old.writer) (K.contents self.new.writer) }
        ensures counted { failures_of K.failures self.new
            ≡ (if is_ok result then failures_of K.failures self.old
            else failures_of K.failures self.old + 1) }
        ensures answer { self.new.answer ≡ after_flush self.old.answer }
        ensures goes_on { OnOk result (goes_on self.old.answer ≡ true) }
    {
        let goes_on = self.answer.goes_on();
        self.answer = self.answer.after_flush();
        self.writer.flush()?;
        if goes_on { Ok(()) } else { Err(self.fail()) }
    }
}
