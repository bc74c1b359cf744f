//! The faults that a session says and that have no field.
ghost use Rattle.std.specs.Prelude.{◌≡◌};
ghost use Rattle.session_lines.specs.Texts.{line_fault_text};

/// A fault without a field. Its line is a fixed text, which takes no memory.
#[derive(Clone, Copy, Debug, PartialEq, Eq)]
pub enum LineFault {
    /// The line has more than 65,536 bytes.
    LineTooLong,
    /// The line is no hello, and the session had none yet.
    NoHello,
    /// The call is of another railway than the session's.
    WrongSender,
    /// The hub's history has 1,000,000 calls.
    HubFull,
    /// Memory was refused.
    NoMemory,
    /// The answer is not that of the session's oldest job.
    Stranger,
}

impl LineFault {
    /// The line of this fault, without a newline.
    #[tactic(auto, unfolding(crate::specs::Texts::line_fault_text))]
    pub fn text(self) -> &'static [u8]
        ensures { result.now ≡ line_fault_text self }
    {
        match self {
            LineFault::LineTooLong => b"{\"fault\":\"line_too_long\"}",
            LineFault::NoHello => b"{\"fault\":\"no_hello\"}",
            LineFault::WrongSender => b"{\"fault\":\"wrong_sender\"}",
            LineFault::HubFull => b"{\"fault\":\"hub_full\"}",
            LineFault::NoMemory => b"{\"fault\":\"no_memory\"}",
            LineFault::Stranger => b"{\"fault\":\"stranger\"}",
        }
    }
}
