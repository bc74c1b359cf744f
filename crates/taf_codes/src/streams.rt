//! What gives bytes and what takes them, with a count of the calls that failed.
ghost use Rattle.std.specs.Prelude.{◌≡◌, ◌+◌, ◌<◌, ◌≤◌, ℕ, List, Option, length, is_ok, IfOk, if◌then◌else◌};
ghost use Rattle.std.specs.Borrow.{Lends, sem};
ghost use Rattle.std.specs.Io.KnownBytes.{IsAtEnd, Keeps, ReadConsumes, WriteAppends};
ghost use Rattle.taf_codes.specs.Standard.{std_failures, std_inner, std_with_inner};
ghost use Rattle.taf_codes.specs.contracts.streams.Std.{the_row};

use crate::failures::Failures;
use std::io::{Read, Write};
use thiserror::Error;

/// A call of a reader or of a writer failed.
#[derive(Clone, Copy, Debug, PartialEq, Eq, Error)]
#[error("a reader or a writer failed")]
pub struct Failed;

/// What gives bytes.
pub trait Source {
    /// The bytes that are still to come, where they are known.
    ghost remaining: { Self → Option (List ℕ) };

    /// How many calls failed.
    ghost failures: { Self → ℕ };

    /// Writes bytes into the front of `buf` and answers how many, at most its length.
    /// Ok(0) into some room is the end. Each Err is one failure more, and takes no byte.
    fn pull(&mut self, buf: &mut [u8]) -> Result<usize, Failed>
        ensures bound { IfOk result (λ n. n ≤ length buf.new) }
        ensures bytes { ReadConsumes (remaining self.old) (remaining self.new) result buf.new }
        ensures end { IfOk result (λ n. n ≡ 0 → 0 < length buf.new → IsAtEnd (remaining self.new)) }
        ensures counted { failures self.new
            ≡ (if is_ok result then failures self.old else failures self.old + 1) };
}

/// What takes bytes.
pub trait Sink {
    /// The bytes that it has taken, where they are known.
    ghost contents: { Self → Option (List ℕ) };

    /// How many calls failed.
    ghost failures: { Self → ℕ };

    /// Takes bytes from the front of `bytes` and answers how many: one at least, where there are any.
    /// Each Err is one failure more, and takes no byte.
    fn push(&mut self, bytes: &[u8]) -> Result<usize, Failed>
        ensures bound { IfOk result (λ n. n ≤ length bytes.now) }
        ensures some { IfOk result (λ n. 0 < length bytes.now → 0 < n) }
        ensures bytes { WriteAppends (contents self.old) (contents self.new) result bytes.now }
        ensures counted { failures self.new
            ≡ (if is_ok result then failures self.old else failures self.old + 1) };

    /// Sends on what it has taken and still holds back. Each Err is one failure more.
    fn flush(&mut self) -> Result<(), Failed>
        ensures bytes { Keeps (contents self.old) (contents self.new) }
        ensures counted { failures self.new
            ≡ (if is_ok result then failures self.old else failures self.old + 1) };
}

/// A reader or a writer of std, with a count of its failures.
/// An interrupted call is a failure like any other.
#[derive(Drop)]
pub struct Std<T> {
    inner: T,
    failed: Failures,
}

impl<T> Std<T> {
    /// This reader or writer, with no failure yet.
    pub fn new(inner: T) -> Std<T>
        ensures inner { std_inner result ≡ inner }
        ensures failures { std_failures result ≡ 0 }
    {
        Std {
            inner,
            failed: Failures::new(),
        }
    }

    /// The reader or the writer itself.
    pub fn get_ref(&self) -> &T
        ensures { result.now ≡ std_inner self.now }
    {
        &self.inner
    }

    /// The reader or the writer itself. What is done to it counts no failure.
    pub fn get_mut(&mut self) -> &mut T
        ensures value { result.now ≡ std_inner self.old }
        ensures* writes_back { sem 𝓛
            (Lends (the_row T.row) T.row self.entry result (std_with_inner self.old)) }
    {
        &mut self.inner
    }

    /// The reader or the writer itself.
    pub fn into_inner(self) -> T
        ensures { result ≡ std_inner self }
    {
        let Std { inner, failed: _ } = self;
        inner
    }
}

impl<R: Read> Source for Std<R> {
    ghost remaining = { λ std. R.remaining (std_inner std) };

    ghost failures = { std_failures };

    fn pull(&mut self, buf: &mut [u8]) -> Result<usize, Failed> {
        match self.inner.read(buf) {
            Ok(count) => Ok(count),
            Err(_) => {
                self.failed.add_one();
                Err(Failed)
            }
        }
    }
}

impl<W: Write> Sink for Std<W> {
    ghost contents = { λ std. W.contents (std_inner std) };

    ghost failures = { std_failures };

    fn push(&mut self, bytes: &[u8]) -> Result<usize, Failed> {
        match self.inner.write(bytes) {
            Ok(count) if count > 0 || bytes.is_empty() => Ok(count),
            _ => {
                self.failed.add_one();
                Err(Failed)
            }
        }
    }

    fn flush(&mut self) -> Result<(), Failed> {
        let Ok(()) = self.inner.flush() else {
            self.failed.add_one();
            return Err(Failed);
        };
        Ok(())
    }
}
