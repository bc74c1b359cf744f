use taf_messages::Why;
use wagon_number::WagonNumber;

/// Why a new message is refused, and the wagon at which it is.
#[derive(Clone, Copy, Debug, PartialEq, Eq)]
pub struct Fault {
    pub why: Why,
    /// None where the message as a whole is refused.
    pub wagon: Option<WagonNumber>,
}
