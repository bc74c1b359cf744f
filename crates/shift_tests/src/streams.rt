//! Readers and writers of sessions, over memory.
ghost use Rattle.std.specs.Prelude.{None};
ghost use Rattle.taf_codes.specs.Counting.{count};

use memory_limit::MemoryLimit;
use std::alloc::{AllocError, Global};
use std::sync::atomic::{AtomicU64, Ordering};
use std::sync::{Mutex, Wait};
use taf_codes::{Failed, Failures, Sink, Source};

/// A reader over lines, which gives one of them at a time, or as much as there is room for.
#[derive(Drop)]
pub(crate) struct Reader<'a> {
    rest: &'a [u8],
    is_by_line: bool,
    failed: Failures,
}

impl<'a> Reader<'a> {
    pub(crate) fn new(rest: &'a [u8], is_by_line: bool) -> Reader<'a> {
        Reader {
            rest,
            is_by_line,
            failed: Failures::new(),
        }
    }

    // How many bytes are the first line, with its newline.
    fn first_line_len(&self) -> usize {
        match self.rest.iter().position(|byte| *byte == b'\n') {
            Some(at) => at.saturating_add(1),
            None => self.rest.len(),
        }
    }
}

impl Source for Reader<'_> {
    ghost remaining = { λ _. None };

    ghost failures = { λ s. count s.failed };

    fn pull(&mut self, buf: &mut [u8]) -> Result<usize, Failed> {
        let most = if self.is_by_line {
            self.first_line_len()
        } else {
            self.rest.len()
        };
        let size = self.rest.len().min(most).min(buf.len());
        buf[..size].copy_from_slice(&self.rest[..size]);
        self.rest = &self.rest[size..];
        Ok(size)
    }
}

/// A reader that limits the memory at its first read.
#[derive(Drop)]
pub(crate) struct LimitingReader<'r, 'a, R: Wait> {
    rt: &'r R,
    reader: Reader<'a>,
    memory_limit: &'a Mutex<MemoryLimit>,
    // How many bytes it leaves, until it has.
    left: Option<usize>,
}

impl<'r, 'a, R: Wait> LimitingReader<'r, 'a, R> {
    pub(crate) fn new(
        rt: &'r R,
        reader: Reader<'a>,
        memory_limit: &'a Mutex<MemoryLimit>,
        left: usize,
    ) -> LimitingReader<'r, 'a, R> {
        LimitingReader {
            rt,
            reader,
            memory_limit,
            left: Some(left),
        }
    }
}

impl<R: Wait> Source for LimitingReader<'_, '_, R> {
    ghost remaining = { λ _. None };

    ghost failures = { λ s. count s.reader.failed };

    fn pull(&mut self, buf: &mut [u8]) -> Result<usize, Failed> {
        if let Some(left) = self.left.take() {
            // Where it can't leave so little, the session is served, and too few budgets are refused.
            let _ = self.memory_limit.lock(self.rt).limit_to(left);
        }
        self.reader.pull(buf)
    }
}

/// What the writer of a session took, for other threads to see.
#[derive(Drop)]
pub(crate) struct Written {
    bytes: Mutex<Vec<u8>>,
    lines: AtomicU64,
}

impl Written {
    pub(crate) fn new(alloc: Global) -> Written {
        Written {
            bytes: Mutex::new(Vec::new(alloc)),
            lines: AtomicU64::new(0),
        }
    }

    /// The same, with room for so many bytes.
    pub(crate) fn with_room(alloc: Global, bytes: usize) -> Result<Written, AllocError> {
        Ok(Written {
            bytes: Mutex::new(Vec::with_capacity(alloc, bytes)?),
            lines: AtomicU64::new(0),
        })
    }

    /// How many lines were taken.
    pub(crate) fn lines(&self) -> u64 {
        self.lines.load(Ordering::SeqCst)
    }

    /// Whether these bytes were taken, and no more.
    pub(crate) fn is(&self, rt: &impl Wait, wanted: &[u8]) -> bool {
        let bytes = self.bytes.lock(rt);
        bytes.as_slice() == wanted
    }
}

/// A writer that fails after so many writes.
#[derive(Drop)]
pub(crate) struct Writer<'r, 'w, R: Wait> {
    rt: &'r R,
    written: &'w Written,
    writes: usize,
    failed: Failures,
}

impl<'r, 'w, R: Wait> Writer<'r, 'w, R> {
    pub(crate) fn new(rt: &'r R, written: &'w Written, writes: usize) -> Writer<'r, 'w, R> {
        Writer {
            rt,
            written,
            writes,
            failed: Failures::new(),
        }
    }

    // Takes all of the bytes.
    fn take(&self, bytes: &[u8]) -> Result<(), Failed> {
        let lines = bytes.iter().filter(|byte| **byte == b'\n').count() as u64;
        let Ok(()) = self.written.bytes.lock(self.rt).extend_from_slice(bytes) else {
            return Err(Failed);
        };
        self.written.lines.fetch_add(lines, Ordering::SeqCst);
        Ok(())
    }
}

impl<R: Wait> Sink for Writer<'_, '_, R> {
    ghost contents = { λ _. None };

    ghost failures = { λ s. count s.failed };

    fn push(&mut self, bytes: &[u8]) -> Result<usize, Failed> {
        if self.writes == 0 || self.take(bytes).is_err() {
            self.failed.add_one();
            return Err(Failed);
        }
        self.writes -= 1;
        Ok(bytes.len())
    }

    fn flush(&mut self) -> Result<(), Failed> {
        Ok(())
    }
}
