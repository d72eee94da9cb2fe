//! The seal of a line.

ghost use Rattle.std.specs.Prelude.{◌≡◌, ◌≤◌, ◌∷◌, ◌++◌, [], false, length, MatchOption, IfOk};
ghost use Rattle.sealed_log.specs.Sealed.{seal_on, no_seal, wrapped};
ghost use Rattle.sealed_log.specs.Told.{body_in, is_sealed, IsSeal};

use crate::lines::LONGEST;
use sha2::{Digest, Sha256};
use std::alloc::{AllocError, Global};

// What stands round a body and its seal, as bytes.
const BEFORE_BODY: [u8; 8] = *b"{\"line\":";

const BEFORE_SEAL: [u8; 9] = *b",\"seal\":\"";

const BEHIND_SEAL: [u8; 2] = *b"\"}";

// How many bytes a line has beside its body, and how many of them stand before that.
pub(crate) const WRAPPING: usize = 83;

pub(crate) const BODY_AT: usize = 8;

/// A digest in hexadecimal digits.
pub type Seal = [u8; 64];

const ZERO: u8 = b'0';

const FEED: u8 = b'\n';

/// The seal of nothing, which stands before the first line.
pub fn no_seal() -> Seal
    ensures { result ≡ no_seal }
{
    [ZERO; 64]
}

/// The seal of a body behind what has the seal `prior`.
pub fn seal(prior: &[u8], body: &[u8]) -> Seal
    ensures { result ≡ seal_on prior.now body.now }
{
    let mut hasher = Sha256::new();
    hasher.update(prior);
    hasher.update(body);
    let digest = hasher.finalize();
    let mut seal = [0; 64];
    match hex::encode_to_slice(digest, &mut seal) {
        Ok(()) => seal,
        Err(_) => unreachable!(),
    }
}

// What stands in a line where a body does.
fn body_at(line: &[u8]) -> &[u8]
    requires { 83 ≤ length line.now }
    ensures { result.now ≡ body_in line.now }
{
    let rest = &line[BODY_AT..];
    &rest[..line.len() - WRAPPING]
}

// A copy of it.
pub(crate) fn body_of(alloc: Global, line: &[u8]) -> Result<Vec<u8>, AllocError>
    requires { 83 ≤ length line.now }
    ensures { IfOk result (λ body. body.items ≡ body_in line.now) }
{
    body_at(line).to_vec(alloc)
}

// A body and its seal.
pub(crate) fn wrapped(alloc: Global, body: &[u8], seal: &[u8]) -> Result<Vec<u8>, AllocError>
    ensures { IfOk result (λ line. line.items ≡ wrapped body.now seal.now) }
{
    let mut line = Vec::new(alloc);
    line.extend_from_slice(&BEFORE_BODY)?;
    line.extend_from_slice(body)?;
    line.extend_from_slice(&BEFORE_SEAL)?;
    line.extend_from_slice(seal)?;
    line.extend_from_slice(&BEHIND_SEAL)?;
    Ok(line)
}

// A body and its seal, as a line.
pub(crate) fn line_of(alloc: Global, body: &[u8], seal: &[u8]) -> Result<Vec<u8>, AllocError>
    ensures { IfOk result (λ line. line.items ≡ wrapped body.now seal.now ++ 10 ∷ []) }
{
    let mut line = wrapped(alloc, body, seal)?;
    line.push(FEED)?;
    Ok(line)
}

// Two bodies with their seals, as lines.
pub(crate) fn both_lines(
    alloc: Global,
    first: &[u8],
    between: &[u8],
    body: &[u8],
    last: &[u8],
) -> Result<Vec<u8>, AllocError>
    ensures { IfOk result (λ lines. lines.items ≡ (wrapped first.now between.now ++ 10 ∷ [])
        ++ (wrapped body.now last.now ++ 10 ∷ [])) }
{
    let mut lines = line_of(alloc, first, between)?;
    let line = line_of(alloc, body, last)?;
    lines.extend_from_slice(&line)?;
    Ok(lines)
}

/// The seal of a line, where that is the line of its body behind what has the seal `prior`.
pub fn seal_in(alloc: Global, prior: &[u8], line: &[u8]) -> Result<Option<Seal>, AllocError>
    ensures { IfOk result (λ found. MatchOption found
        (is_sealed prior.now line.now ≡ false) (IsSeal prior.now line.now)) }
{
    if line.len() < WRAPPING {
        return Ok(None);
    }
    if line.len() >= LONGEST {
        return Ok(None);
    }
    let body = body_at(line);
    let seal = seal(prior, body);
    let wanted = wrapped(alloc, body, &seal)?;
    if line == wanted.as_slice() {
        Ok(Some(seal))
    } else {
        Ok(None)
    }
}
