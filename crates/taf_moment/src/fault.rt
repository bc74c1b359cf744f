use thiserror::Error;

/// The text denotes no moment.
#[derive(Clone, Copy, Debug, PartialEq, Eq, Error)]
#[error("not a moment of the form YYYY-MM-DDThh:mmZ")]
pub struct BadMoment;
