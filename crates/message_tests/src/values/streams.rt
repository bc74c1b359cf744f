use std::io::{self, Read, Write};
use std::test::Fail;
use taf_codes::{Failed, Sink, Source, Std};

// Pulls up to two bytes through the trait.
fn pull_two<S: Source>(source: &mut S) -> Result<(usize, [u8; 2]), Failed> {
    let mut room = [0; 2];
    let count = source.pull(&mut room)?;
    Ok((count, room))
}

#[test]
fn std_gives_bytes(rt: HostRuntime) -> Result<(), Fail> {
    let mut reader = Std::new(&b"abc"[..]);
    assert!(rt; pull_two(&mut reader)? == (2, *b"ab"));
    assert!(rt; reader.get_ref().len() == 1);
    assert!(rt; pull_two(&mut reader)? == (1, *b"c\0"));
    assert!(rt; pull_two(&mut reader)? == (0, *b"\0\0"));
    Ok(())
}

// Pushes bytes through the trait.
fn push_all_at_once<S: Sink>(sink: &mut S, bytes: &[u8]) -> Result<usize, Failed> {
    sink.push(bytes)
}

#[test]
fn std_takes_bytes(rt: HostRuntime) -> Result<(), Fail> {
    let mut writer = Std::new(Vec::new(rt.alloc()));
    assert!(rt; push_all_at_once(&mut writer, b"abc")? == 3);
    assert!(rt; push_all_at_once(&mut writer, b"")? == 0);
    writer.get_mut().push(b'd')?;
    assert!(rt; writer.into_inner().as_slice() == b"abcd".as_slice());
    Ok(())
}

// Gives or takes one byte a call. The second call fails, and the third takes nothing.
#[derive(Drop)]
struct Frail {
    calls: u8,
}

impl Frail {
    fn answer(&mut self) -> io::Result<usize> {
        self.calls = self.calls.saturating_add(1);
        match self.calls {
            2 => Err(io::ErrorKind::Other.into()),
            3 => Ok(0),
            _ => Ok(1),
        }
    }
}

impl Read for Frail {
    fn read(&mut self, buf: &mut [u8]) -> io::Result<usize> {
        let count = self.answer()?;
        Ok(count.min(buf.len()))
    }
}

impl Write for Frail {
    fn write(&mut self, buf: &[u8]) -> io::Result<usize> {
        let count = self.answer()?;
        Ok(count.min(buf.len()))
    }

    fn flush(&mut self) -> io::Result<()> {
        self.answer()?;
        Ok(())
    }
}

const PULLED: [Result<usize, Failed>; 4] = [Ok(1), Err(Failed), Ok(0), Ok(1)];

const PUSHED: [Result<usize, Failed>; 4] = [Ok(1), Err(Failed), Err(Failed), Ok(1)];

const FLUSHED: [Result<(), Failed>; 3] = [Ok(()), Err(Failed), Ok(())];

#[test]
fn std_fails_where_its_reader_does(rt: HostRuntime) {
    let mut reader = Std::new(Frail { calls: 0 });
    for count in &PULLED {
        assert!(rt; reader.pull(&mut [0; 2]) == *count);
    }
}

#[test]
fn std_fails_where_its_writer_does(rt: HostRuntime) {
    let mut writer = Std::new(Frail { calls: 0 });
    for count in &PUSHED {
        assert!(rt; writer.push(b"ab") == *count);
    }
    let mut writer = Std::new(Frail { calls: 0 });
    for done in &FLUSHED {
        assert!(rt; writer.flush() == *done);
    }
}
