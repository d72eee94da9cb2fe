//! The statuses of responses.

ghost use Rattle.std.specs.Prelude.{◌≡◌};
ghost use Rattle.http.specs.StatusCode.{code_digits};
ghost use Rattle.http_requests.specs.Message.{allow_field, code_of, phrase_of};

use crate::method::Methods;
use http::StatusCode;

/// The status of a response (RFC 9110, section 15).
#[derive(Clone, Copy)]
pub enum Status {
    /// 200: the request was done.
    Done,
    /// 400: the head or the body isn't of its form.
    BadRequest,
    /// 403: a rule of the policy refuses the request.
    Forbidden,
    /// 404: the target has no route.
    NotFound,
    /// 405: the target has these methods, and the request another.
    MethodNotAllowed(Methods),
    /// 413: the body is announced as longer than the office reads.
    PayloadTooLarge,
    /// 503: the office failed, and did nothing.
    ServiceUnavailable,
}

impl Status {
    /// Its number.
    pub fn code(self) -> u16
        ensures { result ≡ code_of self }
    {
        self.status_code().as_u16()
    }

    /// Its number as the three digits of a status line.
    pub(crate) fn digits(self) -> &'static str
        ensures { result.now ≡ code_digits (code_of self) }
    {
        self.status_code().as_str()
    }

    /// Its reason phrase.
    #[tactic(auto, unfolding(crate::specs::Message::phrase_of))]
    pub(crate) fn phrase(self) -> &'static str
        ensures { result.now ≡ phrase_of (code_of self) }
    {
        self.status_code().canonical_reason().unwrap_or("")
    }

    /// Its field `Allow` with the end of the line, where it has one.
    pub(crate) fn allow_field(self) -> &'static str
        ensures { result.now ≡ allow_field self }
    {
        match self {
            Status::MethodNotAllowed(Methods::Get) => "Allow: GET\r\n",
            Status::MethodNotAllowed(Methods::Post) => "Allow: POST\r\n",
            Status::MethodNotAllowed(Methods::GetAndPost) => "Allow: GET, POST\r\n",
            _ => "",
        }
    }

    fn status_code(self) -> StatusCode
        ensures { result ≡ code_of self }
    {
        match self {
            Status::Done => StatusCode::OK,
            Status::BadRequest => StatusCode::BAD_REQUEST,
            Status::Forbidden => StatusCode::FORBIDDEN,
            Status::NotFound => StatusCode::NOT_FOUND,
            Status::MethodNotAllowed(_) => StatusCode::METHOD_NOT_ALLOWED,
            Status::PayloadTooLarge => StatusCode::PAYLOAD_TOO_LARGE,
            Status::ServiceUnavailable => StatusCode::SERVICE_UNAVAILABLE,
        }
    }
}
