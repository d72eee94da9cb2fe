//! Where a head ends.

ghost use Rattle.std.specs.Prelude.{◌≡◌, ◌≤◌, ℕ, false, length};
ghost use Rattle.http_requests.specs.Ends.{ends_head, IsEndOf};

use crate::refusal::Refusal;

/// The most bytes that a head may have.
const MAX_HEAD: usize = 8_192;

/// How many bytes the head at the front has, or none while its end hasn't come.
///
/// The head ends at the first line feed that follows an empty line (RFC 9112, sections 2.1 and
/// 2.2). Of the bytes that have come, the first `searched` were looked at before, and no head ended
/// in them.
///
/// # Errors
///
/// [`Refusal::HeadTooLong`] where 8,192 bytes have come, and no head ends in the first 8,192.
pub(crate) fn head_end(bytes: &[u8], searched: usize) -> Result<Option<usize>, Refusal>
    requires searched { (k : ℕ) → k ≤ searched → ends_head bytes.now k ≡ false }
    ensures { IsEndOf bytes.now result }
{
    for end in searched..bytes.len().min(MAX_HEAD) {
        if ends_at(bytes, end + 1) {
            return Ok(Some(end + 1));
        }
    }
    if bytes.len() < MAX_HEAD {
        Ok(None)
    } else {
        Err(Refusal::HeadTooLong)
    }
}

// Whether the first `n` bytes end in an empty line after a line feed.
fn ends_at(bytes: &[u8], n: usize) -> bool
    requires { n ≤ length bytes.now }
    ensures { result ≡ ends_head bytes.now n }
{
    n >= 2
        && bytes[n - 1] == b'\n'
        && (bytes[n - 2] == b'\n' || (n >= 3 && bytes[n - 2] == b'\r' && bytes[n - 3] == b'\n'))
}
