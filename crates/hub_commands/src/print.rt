use hub_faults::Fault;
use std::alloc::Global;
use std::io::{BufWriter, Write};

// How many bytes are gathered before they are written.
const GATHERED: usize = 65_536;

/// The output, with room to gather what is written.
pub(crate) fn gathering<W: Write + Drop>(alloc: Global, output: W) -> Result<BufWriter<W>, Fault> {
    match BufWriter::with_capacity(alloc, GATHERED, output) {
        Ok(gathering) => Ok(gathering),
        Err(_) => Err(Fault::Memory),
    }
}

/// Prints `settled C`, with the number of calls, and the lines of the report.
pub(crate) fn print_settled<W: Write + Drop>(
    alloc: Global,
    calls: u64,
    lines: &[String],
    output: W,
) -> Result<u8, Fault> {
    let mut output = gathering(alloc, output)?;
    let Ok(()) = output.write_fmt(format_args!("settled {calls}\n")) else {
        return Err(Fault::Write);
    };
    print(&mut output, lines)?;
    Ok(0)
}

/// Prints lines, and sends them on.
pub(crate) fn print<W: Write>(output: &mut W, lines: &[String]) -> Result<(), Fault> {
    for line in lines {
        let Ok(()) = output.write_all(line.as_bytes()) else {
            return Err(Fault::Write);
        };
        let Ok(()) = output.write_all(b"\n") else {
            return Err(Fault::Write);
        };
    }
    match output.flush() {
        Ok(()) => Ok(()),
        Err(_failed) => Err(Fault::Write),
    }
}
