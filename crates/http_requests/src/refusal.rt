//! Why what came over HTTP is no request.

ghost use Rattle.std.specs.Prelude.{◌≡◌};
ghost use Rattle.http_requests.specs.Refusals.{refused_status, refused_word};

use crate::method::Methods;
use crate::status::Status;

/// Why what came over HTTP is no request, in the order in which it is looked at.
#[derive(Clone, Copy)]
pub enum Refusal {
    /// No head ends within the first 8,192 bytes (RFC 9110, section 5.4, and RFC 9112, section 3: a
    /// server limits what it reads of fields and of a request line).
    HeadTooLong,
    /// The bytes are no head of a request of HTTP/1.0 or HTTP/1.1 with at most 64 fields (RFC 9112,
    /// sections 2.2, 3 and 5).
    BadHead,
    /// There are two fields `Host`, or none in HTTP/1.1 (RFC 9112, section 3.2).
    BadHost,
    /// There is a field `Transfer-Encoding`: the office reads no transfer coding (RFC 9112, section
    /// 6.1).
    TransferEncoding,
    /// There are two fields `Content-Length`, or one that is no decimal number (RFC 9110, section
    /// 8.6, and RFC 9112, section 6.3).
    BadLength,
    /// The body is announced as longer than 262,144 bytes (RFC 9110, section 15.5.14).
    TooLarge,
    /// The target has no route (RFC 9110, section 15.5.5).
    NoRoute,
    /// The target has these methods, and the request another (RFC 9110, section 15.5.6).
    WrongMethod(Methods),
    /// There isn't one field `Authorization` that shows a token (RFC 9110, section 11.6.2).
    NoToken,
    /// The body isn't of the form that its route asks for (RFC 9110, section 15.5.1).
    NotARequest,
}

impl Refusal {
    /// The status of the response that says so (RFC 9110, section 15.5).
    pub fn status(self) -> Status
        ensures { result ≡ refused_status self }
    {
        match self {
            Refusal::TooLarge => Status::PayloadTooLarge,
            Refusal::NoRoute => Status::NotFound,
            Refusal::WrongMethod(methods) => Status::MethodNotAllowed(methods),
            Refusal::HeadTooLong
            | Refusal::BadHead
            | Refusal::BadHost
            | Refusal::TransferEncoding
            | Refusal::BadLength
            | Refusal::NoToken
            | Refusal::NotARequest => Status::BadRequest,
        }
    }

    /// Its word, as answers name it.
    pub fn word(self) -> &'static str
        ensures { result.now ≡ refused_word self }
    {
        match self {
            Refusal::HeadTooLong => "head-too-long",
            Refusal::BadHead => "bad-head",
            Refusal::BadHost => "bad-host",
            Refusal::TransferEncoding => "transfer-encoding",
            Refusal::BadLength => "bad-length",
            Refusal::TooLarge => "too-large",
            Refusal::NoRoute => "no-route",
            Refusal::WrongMethod(_) => "wrong-method",
            Refusal::NoToken => "no-token",
            Refusal::NotARequest => "not-a-request",
        }
    }
}
