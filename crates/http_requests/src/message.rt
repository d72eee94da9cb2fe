//! The response of an exchange, as its bytes.

ghost use Rattle.std.specs.Prelude.{◌≡◌, IfOk, string_bytes};
ghost use Rattle.http_requests.specs.Message.{message_from, message_of, type_text};

use crate::status::Status;
use std::alloc::{AllocError, Global};

/// What a body is (RFC 9110, section 8.3).
#[derive(Clone, Copy)]
pub(crate) enum ContentType {
    /// `application/json`, of answers and documents.
    Json,
    /// `text/plain`, of review sheets.
    PlainText,
}

impl ContentType {
    /// The type as the field `Content-Type` names it.
    pub(crate) fn as_str(self) -> &'static str
        ensures { result.now ≡ type_text self }
    {
        match self {
            ContentType::Json => "application/json",
            ContentType::PlainText => "text/plain",
        }
    }
}

/// The response with this status and this body, after which the connection is closed.
///
/// Its lines end with CR LF. It has the field `Allow` where the status is
/// [`Status::MethodNotAllowed`], and `Content-Length` is the number of the body's bytes. Fails
/// where it is out of memory, and no contract can say when.
pub(crate) fn message_text(
    alloc: Global,
    status: Status,
    content_type: ContentType,
    body: &str,
) -> Result<String, AllocError>
    ensures { IfOk result (λ text. string_bytes text ≡ message_of status content_type body.now) }
{
    let length = body.len().to_string(alloc)?;
    joined(
        alloc,
        status.digits(),
        status.phrase(),
        status.allow_field(),
        content_type.as_str(),
        length.as_str(),
        body,
    )
}

// The response, from the texts of its parts.
#[tactic(auto, unfolding(crate::specs::Message::message_from))]
fn joined<'a>(
    alloc: Global,
    code: &'a str,
    phrase: &'a str,
    allow: &'a str,
    content_type: &'a str,
    length: &'a str,
    body: &'a str,
) -> Result<String, AllocError>
    ensures { IfOk result (λ text. string_bytes text
        ≡ message_from code.entry.now phrase.entry.now allow.entry.now
        content_type.entry.now length.entry.now body.entry.now) }
{
    [
        "HTTP/1.1 ",
        code,
        " ",
        phrase,
        "\r\n",
        allow,
        "Content-Type: ",
        content_type,
        "\r\n",
        "Content-Length: ",
        length,
        "\r\n",
        "Connection: close",
        "\r\n",
        "\r\n",
        body,
    ]
    .concat(alloc)
}
