//! A service that may be told to refuse.
ghost use Rattle.std.specs.Prelude.{◌≡◌, IsTrue, OnOk, OnErr};
ghost use Rattle.http_server.specs.Response.{IsBlank};
ghost use Rattle.board_connections.specs.Answers.{IsRefusal};

use bytes::Bytes;
use http::{HeaderName, HeaderValue, Request, StatusCode};
use http_server::{Response, Service};
use std::alloc::AllocError;

/// A service, in whose place a request is refused while too many answers wait: with the status 503, `retry-after: 1` and no body.
#[derive(Drop)]
pub struct LimitedService<S> {
    /// The service that answers.
    pub service: S,
    may_answer: bool,
}

impl<S> LimitedService<S> {
    /// The service, which answers every request until it is told otherwise.
    pub fn new(service: S) -> LimitedService<S>
        ensures { result.service ≡ service }
    {
        LimitedService {
            service,
            may_answer: true,
        }
    }

    /// Whether the service is asked.
    pub(crate) fn set_may_answer(&mut self, may_answer: bool)
        ensures { self.new ≡ record self.old { may_answer = may_answer } }
    {
        self.may_answer = may_answer;
    }
}

impl<S: Service> Service for LimitedService<S> {
    ghost use Rattle.board_connections.specs.LimitedService.{AnswersLimited};

    ghost answers = { AnswersLimited S.answers };

    fn call(
        &mut self,
        request: &Request<Bytes>,
        response: &mut Response,
    ) -> Result<(), AllocError> {
        if self.may_answer {
            self.service.call(request, response)
        } else {
            refuse(response)
        }
    }
}

// Fills the response with the refusal.
fn refuse(response: &mut Response) -> Result<(), AllocError>
    requires { IsBlank response.old }
    ensures { OnOk result (IsRefusal response.new) }
{
    response.status = StatusCode::SERVICE_UNAVAILABLE;
    let name = HeaderName::from_static("retry-after");
    response.add_header(name, HeaderValue::from_static("1"))
}
