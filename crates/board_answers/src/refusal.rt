//! Why a request is refused.
ghost use Rattle.std.specs.Prelude.{◌≡◌};
ghost use Rattle.board_answers.specs.Requests.{status_of_refusal};

use http::StatusCode;

/// Why a request is refused.
#[derive(Clone, Copy, Debug, PartialEq, Eq)]
pub enum Refusal {
    /// The host that is asked for is not one of the board's.
    OtherHost,
    /// The page that asks is one of another origin.
    OtherOrigin,
    /// The method is neither GET nor HEAD.
    OtherMethod,
    /// Nothing has this path.
    NoSuchPath,
    /// Railways have keys, and the request has not that of the railway.
    NoKey,
}

impl Refusal {
    /// Its status.
    pub fn status(self) -> StatusCode
        ensures { result ≡ status_of_refusal self }
    {
        match self {
            Refusal::OtherHost => StatusCode::MISDIRECTED_REQUEST,
            Refusal::OtherOrigin => StatusCode::FORBIDDEN,
            Refusal::OtherMethod => StatusCode::METHOD_NOT_ALLOWED,
            Refusal::NoSuchPath => StatusCode::NOT_FOUND,
            Refusal::NoKey => StatusCode::UNAUTHORIZED,
        }
    }
}
