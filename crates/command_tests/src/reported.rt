//! What is reported on standard error.

use hub_commands::{Fault, SessionEnd, report_end, report_fault};
use session_serving::SessionFault;
use std::test::Fail;

// Each fault with its status and its line.
static FAULTS: [(Fault, u8, &str); 15] = [
    (Fault::NotTwelveDigits, 1, "fault 1: not twelve digits\n"),
    (Fault::BadCheckDigit, 1, "fault 2: bad check digit\n"),
    (Fault::Arguments, 2, "fault: words\n"),
    (Fault::Read, 3, "fault: read\n"),
    (Fault::Write, 3, "fault: write\n"),
    (Fault::NoEnd, 3, "fault: no end\n"),
    (Fault::Memory, 4, "fault: memory\n"),
    (Fault::Socket, 5, "fault: socket\n"),
    (Fault::Thread, 5, "fault: thread\n"),
    (Fault::NotSettled, 6, "fault: not settled\n"),
    (Fault::JournalFile, 7, "fault: journal file\n"),
    (Fault::JournalBusy, 8, "fault: journal busy\n"),
    (Fault::JournalRefused, 8, "fault: journal refused\n"),
    (Fault::KeysFile, 3, "fault: keys file\n"),
    (Fault::KeysRefused, 2, "fault: keys refused\n"),
];

#[test]
fn each_fault_has_its_line(rt: HostRuntime) -> Result<(), Fail> {
    for (fault, status, line) in &FAULTS {
        let mut errors = Vec::new(rt.alloc());
        if report_fault(*fault, &mut errors) != *status || errors.as_slice() != line.as_bytes() {
            return Err(Fail::new(*line));
        }
    }
    Ok(())
}

// How the fourth session ended, and its line.
static ENDS: [(SessionEnd, &str); 7] = [
    (SessionEnd::Complete, ""),
    (
        SessionEnd::Stranger,
        "session 3: an answer came that was not to its oldest call\n",
    ),
    (
        SessionEnd::Fault(SessionFault::Read),
        "session 3: the reader failed\n",
    ),
    (
        SessionEnd::Fault(SessionFault::Write),
        "session 3: the writer failed\n",
    ),
    (
        SessionEnd::Fault(SessionFault::NoEnd),
        "session 3: no end after 2^40 bytes\n",
    ),
    (
        SessionEnd::Fault(SessionFault::Port),
        "session 3: the port failed\n",
    ),
    (
        SessionEnd::Fault(SessionFault::Memory),
        "session 3: memory was refused\n",
    ),
];

#[test]
fn each_end_has_its_line(rt: HostRuntime) -> Result<(), Fail> {
    for (end, line) in &ENDS {
        let mut errors = Vec::new(rt.alloc());
        report_end(3, *end, &mut errors);
        if errors.as_slice() != line.as_bytes() {
            return Err(Fail::new(*line));
        }
    }
    Ok(())
}
