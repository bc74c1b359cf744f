//! The reader of a session, whose client may be silent only so long.
ghost use Rattle.std.specs.Prelude.{◌≡◌, false};
ghost use Rattle.taf_codes.specs.Standard.{std_failures, std_inner};

use std::io::Read;
use std::net::OpenStream;
use std::time::Duration;
use taf_codes::{Failed, Source, Std};

/// Reads from a connection, and fails where its client is silent for too long: until the first line is complete for as long as the
/// connection's time-out says, and from then on for as long as the limit between lines.
///
/// A client that sends a byte now and then is not silent.
#[derive(Drop)]
pub struct TimedReader<T> {
    reader: Std<T>,
    silence_between_lines: Option<Duration>,
    has_line: bool,
}

impl<T: Read + OpenStream> TimedReader<T> {
    /// Reads from this connection, whose time-out is that before the hello.
    pub fn new(connection: T, silence_between_lines: Option<Duration>) -> TimedReader<T>
        ensures connection { std_inner result.reader ≡ connection }
        ensures failures { std_failures result.reader ≡ 0 }
        ensures silence { result.silence_between_lines ≡ silence_between_lines }
        ensures line { result.has_line ≡ false }
    {
        TimedReader {
            reader: Std::new(connection),
            silence_between_lines,
            has_line: false,
        }
    }
}

impl<T: Read + OpenStream> Source for TimedReader<T> {
    ghost remaining = { λ timed. T.remaining (std_inner timed.reader) };

    ghost failures = { λ timed. std_failures timed.reader };

    fn pull(&mut self, buf: &mut [u8]) -> Result<usize, Failed> {
        let count = self.reader.pull(buf)?;
        if !self.has_line && has_newline(&buf[..count]) {
            self.has_line = true;
            // Where it can't be set, the shorter time-out stays.
            let _ = self
                .reader
                .get_ref()
                .set_read_timeout(self.silence_between_lines);
        }
        Ok(count)
    }
}

fn has_newline(bytes: &[u8]) -> bool {
    bytes.contains(&b'\n')
}
