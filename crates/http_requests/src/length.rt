//! The length that a head announces for its body.

ghost use Rattle.std.specs.Prelude.{◌≡◌, length};
ghost use Rattle.http_requests.specs.Fields.{body_length, shown, IsFoundWithin};

use crate::field::Found;
use crate::number::decimal;
use crate::refusal::Refusal;

/// The most bytes that a body may have.
const MAX_BODY: u32 = 262_144;

/// The length of the body that the fields `Content-Length` announce (RFC 9110, section 8.6).
pub(crate) fn body_length(bytes: &[u8], found: Found) -> Result<u32, Refusal>
    requires { IsFoundWithin (length bytes.now) found }
    ensures { result ≡ body_length (shown bytes.now found) }
{
    match found {
        Found::Absent => Ok(0),
        Found::Several => Err(Refusal::BadLength),
        Found::One(span) => match decimal(span.of(bytes), MAX_BODY + 1) {
            None => Err(Refusal::BadLength),
            Some(n) if n > MAX_BODY => Err(Refusal::TooLarge),
            Some(n) => Ok(n),
        },
    }
}
