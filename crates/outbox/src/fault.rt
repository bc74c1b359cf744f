use thiserror::Error;

/// An acknowledgement of an item that there is not yet. It changes nothing.
#[derive(Clone, Copy, Debug, PartialEq, Eq, Error)]
#[error("there is no item of this number yet")]
pub struct AckAhead {
    /// The number of the railway's last item, 0 if there is none.
    pub last: u64,
}
