//! The parts of a head.

ghost use Rattle.std.specs.Prelude.{◌≡◌, IfOk, length, map, All};
ghost use Rattle.httparse.specs.Spans.{header_bytes, IsHeaderWithin};
ghost use Rattle.http_requests.specs.Fields.{judge_fields, shown, shown_token, IsFoundWithin};
ghost use Rattle.http_requests.specs.Heads.{Answers, IsHeadWithin};

use crate::field::{Found, value_of};
use crate::length::body_length;
use crate::refusal::Refusal;
use crate::token::token_in;
use httparse::Status;
use httparse::spans::{EMPTY_HEADER_SPAN, HeaderSpan, Span, parse_request};
use office_words::Token;
use std::alloc::{AllocError, Global};

/// The parts of a head, where they stand in its buffer, and the length of the body that it
/// announces.
#[derive(Clone, Copy)]
pub(crate) struct Head {
    /// The method, as written.
    pub(crate) method: Span,
    /// The target, as written.
    pub(crate) target: Span,
    /// How many bytes the body has, at most 262,144; 0 where the head doesn't say.
    pub(crate) length: u32,
    /// The value of the field `Authorization`.
    pub(crate) authorization: Found,
}

impl Head {
    /// The token that the caller shows: the field `Authorization`, given once, is `Bearer` in any
    /// case, one space and a token (RFC 9110, section 11.6.2). None where it isn't so, which is
    /// refused as [`Refusal::NoToken`]. Fails where it is out of memory, and no contract can say
    /// when. `bytes` is the buffer that the head was read from.
    pub(crate) fn token(&self, alloc: Global, bytes: &[u8]) -> Result<Option<Token>, AllocError>
        requires { IsFoundWithin (length bytes.now) self.now.authorization }
        ensures { IfOk result (λ token. token
            ≡ shown_token (shown bytes.now self.now.authorization)) }
    {
        match self.authorization {
            Found::One(value) => token_in(alloc, value.of(bytes)),
            Found::Absent | Found::Several => Ok(None),
        }
    }
}

/// The parts of a head, from its bytes and no others (RFC 9112, sections 2 to 6).
///
/// # Errors
///
/// The first that is so of [`Refusal::BadHead`], [`Refusal::BadHost`],
/// [`Refusal::TransferEncoding`], [`Refusal::BadLength`] and [`Refusal::TooLarge`].
pub(crate) fn read_head(bytes: &[u8]) -> Result<Head, Refusal>
    ensures within { IfOk result (λ head. IsHeadWithin (length bytes.now) head) }
    ensures answer { Answers bytes.now result }
{
    let mut headers = [EMPTY_HEADER_SPAN; 64];
    match parse_request(bytes, &mut headers) {
        Ok(Status::Complete(head)) if head.len == bytes.len() => {
            let fields = &headers[..head.headers];
            let length = judge_fields(bytes, fields, head.version)?;
            Ok(Head {
                method: head.method,
                target: head.path,
                length,
                authorization: value_of(bytes, fields, b"authorization"),
            })
        }
        _ => Err(Refusal::BadHead),
    }
}

// What the fields of a head of this minor version come to: the length of the body, or the first
// refusal.
fn judge_fields(bytes: &[u8], headers: &[HeaderSpan], minor: u8) -> Result<u32, Refusal>
    requires { All (IsHeaderWithin (length bytes.now)) headers.now }
    ensures { result ≡ judge_fields minor (map (header_bytes bytes.now) headers.now) }
{
    match value_of(bytes, headers, b"host") {
        Found::Absent if minor == 1 => return Err(Refusal::BadHost),
        Found::Several => return Err(Refusal::BadHost),
        _ => {}
    }
    let Found::Absent = value_of(bytes, headers, b"transfer-encoding") else {
        return Err(Refusal::TransferEncoding);
    };
    body_length(bytes, value_of(bytes, headers, b"content-length"))
}
