//! Why a text is no code.

use thiserror::Error;

/// The text is no code of this kind: it has a wrong length or a letter outside the code's alphabet.
#[derive(Clone, Copy, Debug, PartialEq, Eq, Error)]
#[error("the text is no code of this kind")]
pub struct BadCode;

/// Why a text is no code of an intermodal unit.
#[derive(Clone, Copy, Debug, PartialEq, Eq, Error)]
pub enum UnitFault {
    /// The text is not four capital letters and seven digits.
    #[error("the text is not four capital letters and seven digits")]
    NotAUnitCode,

    /// The text has that form, and its last digit is not the check digit of ISO 6346.
    #[error("the last digit is not the check digit of the unit's code")]
    BadUnitDigit,
}
