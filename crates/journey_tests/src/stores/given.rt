//! Values that the tests share.
use taf_codes::{Memory, Railway};
use taf_messages::{FetchLimit, MessageNumber};

/// The railway with this code.
pub(crate) fn railway(code: &str) -> Result<Railway, Memory> {
    Railway::read(code).ok().ok_or(Memory)
}

/// The number of a message.
pub(crate) fn number_of(number: u64) -> Result<MessageNumber, Memory> {
    MessageNumber::new(number).ok_or(Memory)
}

/// A fetch of so many items at most.
pub(crate) fn limit(most: u64) -> Result<FetchLimit, Memory> {
    FetchLimit::new(most).ok_or(Memory)
}
