use thiserror::Error;

/// Why a text is no vehicle number.
#[derive(Clone, Copy, Debug, PartialEq, Eq, Error)]
pub enum NumberFault {
    /// The text has another shape than that of a number.
    #[error("not twelve digits")]
    NotTwelveDigits,
    /// The last digit is not the check digit of the first eleven.
    #[error("bad check digit")]
    BadCheckDigit,
}
