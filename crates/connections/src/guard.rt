//! A guard against requests of HTTP.
ghost use Rattle.std.specs.Prelude.{◌≡◌, ◌≢◌, ◌+◌, is_ok, nat_eq, if◌then◌else◌, OnOk};
ghost use Rattle.std.specs.List.{list_any, starts_with};
ghost use Rattle.std.specs.Io.KnownBytes.{Keeps};
ghost use Rattle.connections.specs.Requests.{front_of, is_request, may_become_request};
ghost use Rattle.connections.specs.Guards.{guarded, without_request};
ghost use Rattle.std.specs.Option.{option_map};
ghost use Rattle.connections.specs.declared.guard.Front.TheVariants as front_is;

use arrayvec::ArrayVec;
use taf_codes::{Failed, Source};

// The methods of HTTP, each with the blank behind it.
static METHODS: [&[u8]; 9] = [
    b"GET ",
    b"HEAD ",
    b"POST ",
    b"PUT ",
    b"DELETE ",
    b"CONNECT ",
    b"OPTIONS ",
    b"TRACE ",
    b"PATCH ",
];

// What is known of the first bytes of a connection.
#[derive(Clone, Copy, PartialEq, Eq, Drop)]
enum Front {
    // They may become a request.
    Undecided,
    // They are none.
    Lines,
    // They are one.
    Request,
}

/// Gives the bytes of a reader, unless they begin with a request of HTTP: then it gives none.
///
/// A browser sends such a request where any page asks it to, and what the page says stands behind its head. The first bytes are
/// read one by one while they may become a method and a blank, and are given once they can't.
#[derive(Drop)]
pub struct RequestGuard<S> {
    source: S,
    // What was read and not given.
    held: ArrayVec<u8, 9>,
    front: Front,
}

impl<S: Source> RequestGuard<S> {
    /// A guard before this reader.
    pub fn new(source: S) -> RequestGuard<S>
        ensures bytes { guarded S.remaining result
            ≡ option_map without_request (S.remaining source) }
        ensures failures { S.failures result.source ≡ S.failures source }
    {
        RequestGuard {
            source,
            held: ArrayVec::new(),
            front: Front::Undecided,
        }
    }

    // Reads the first bytes until it is known whether they are a request.
    fn decide(&mut self) -> Result<(), Failed>
        ensures bytes { Keeps (guarded S.remaining self.old) (guarded S.remaining self.new) }
        ensures decided { OnOk result (self.new.front ≢ front_is.Undecided) }
        ensures counted { S.failures self.new.source
            ≡ (if is_ok result then S.failures self.old.source
            else S.failures self.old.source + 1) }
    {
        if self.front != Front::Undecided {
            return Ok(());
        }
        while let Front::Undecided = front_of(self.held.as_slice()) {
            let mut byte = [0u8];
            if self.source.pull(&mut byte)? == 0 {
                self.front = Front::Lines;
                return Ok(());
            }
            self.held.push(byte[0]);
        }
        self.front = front_of(self.held.as_slice());
        Ok(())
    }
}

impl<S: Source> Source for RequestGuard<S> {
    ghost remaining = { λ guard. guarded S.remaining guard };

    ghost failures = { λ guard. S.failures guard.source };

    fn pull(&mut self, buf: &mut [u8]) -> Result<usize, Failed> {
        self.decide()?;
        if self.front == Front::Request || buf.is_empty() {
            return Ok(0);
        }
        if self.held.is_empty() {
            return self.source.pull(buf);
        }
        buf[0] = self.held.remove(0);
        Ok(1)
    }
}

// What is known by the first bytes.
fn front_of(bytes: &[u8]) -> Front
    ensures { result ≡ front_of bytes.now }
{
    if is_request(bytes) {
        Front::Request
    } else if may_become_request(bytes) {
        Front::Undecided
    } else {
        Front::Lines
    }
}

// Whether the bytes begin with a request.
#[tactic(auto, unfolding(crate::specs::Requests::is_request))]
fn is_request(bytes: &[u8]) -> bool
    ensures { result ≡ is_request bytes.now }
{
    begin_with(&METHODS, bytes)
}

// Whether a request may begin with the bytes.
#[tactic(auto, unfolding(crate::specs::Requests::may_become_request))]
fn may_become_request(bytes: &[u8]) -> bool
    ensures { result ≡ may_become_request bytes.now }
{
    are_begun_by(&METHODS, bytes)
}

// Whether the bytes begin with one of these words.
fn begin_with(words: &[&[u8]], bytes: &[u8]) -> bool
    ensures { result ≡ list_any (λ word. starts_with nat_eq bytes.now word.now) words.now }
{
    words.iter().any(|word| bytes.starts_with(word))
}

// Whether one of these words begins with the bytes.
fn are_begun_by(words: &[&[u8]], bytes: &[u8]) -> bool
    ensures { result ≡ list_any (λ word. starts_with nat_eq word.now bytes.now) words.now }
{
    words.iter().any(|word| word.starts_with(bytes))
}
