//! A request, from its bytes.

ghost use Rattle.std.specs.Prelude.{◌^◌, ◌-◌, ◌<◌, ◌≤◌, ◌++◌, length};
ghost use Rattle.http_requests.specs.Fields.{shown, shown_token, IsFoundWithin};
ghost use Rattle.http_requests.specs.Exchanges.{IsExchange, IsOfHead};
ghost use Rattle.http_requests.specs.Heard.{HasToken, HearCounts, IsHeard};

use crate::ask::ask_of;
use crate::body::read_body;
use crate::head::{Head, read_head};
use crate::head_bytes::read_head_bytes;
use crate::refusal::Refusal;
use crate::router::OfficeRouter;
use crate::target::find_route;
use crate::unheard::Unheard;
use json_tree::Scratch;
use office_words::Token;
use review_policy::Request;
use std::alloc::Global;
use std::io::Read;
use streams::Counted;

// The token that a head shows.
fn token_of(alloc: Global, head: &Head, bytes: &[u8]) -> Result<Token, Unheard>
    requires { IsFoundWithin (length bytes.now) head.now.authorization }
    ensures { HasToken (shown_token (shown bytes.now head.now.authorization)) result }
{
    match head.token(alloc, bytes)? {
        Some(token) => Ok(token),
        None => Err(Unheard::Refused(Refusal::NoToken)),
    }
}

// The request with this head, of whose body a front part was read.
fn hear_after<R: Read>(
    alloc: Global,
    router: &OfficeRouter,
    scratch: &mut Scratch,
    reader: &mut Counted<R>,
    bytes: &[u8],
    front: &[u8],
    most_calls: u64,
) -> Result<Request, Unheard>
    requires countable { most_calls < 2 ^ 64 - 1 }
    requires calls { reader.old.calls ≤ most_calls }
    ensures heard { IsHeard (R.remaining reader.old.inner) (R.remaining reader.new.inner)
        (λ more. IsOfHead bytes.now (front.now ++ more)) result }
    ensures counts { HearCounts reader.old.calls reader.new.calls most_calls
        reader.old.faults reader.new.faults result }
    ensures calls { reader.new.calls ≤ most_calls }
{
    let head = read_head(bytes)?;
    let route = find_route(alloc, router, head.method.of(bytes), head.target.of(bytes))?;
    let token = token_of(alloc, &head, bytes)?;
    let body = read_body(alloc, reader, front, head.length as usize, most_calls)?;
    let ask = ask_of(alloc, route, body, scratch)?;
    Ok(Request { token, ask })
}

/// Hears the request that a stream begins with: its head is looked at as soon as it has ended, and
/// its body is read only where nothing of the head refuses the request. An interrupted read is made
/// again, until the reader has counted `most_calls`. A scratch is kept from request to request.
///
/// # Errors
///
/// [`Unheard`] says why there is none.
pub fn hear<R: Read>(
    alloc: Global,
    router: &OfficeRouter,
    scratch: &mut Scratch,
    reader: &mut Counted<R>,
    most_calls: u64,
) -> Result<Request, Unheard>
    requires countable { most_calls < 2 ^ 64 - 1 }
    requires calls { reader.old.calls ≤ most_calls }
    ensures heard { IsHeard (R.remaining reader.old.inner) (R.remaining reader.new.inner)
        IsExchange result }
    ensures counts { HearCounts reader.old.calls reader.new.calls most_calls
        reader.old.faults reader.new.faults result }
    ensures calls { reader.new.calls ≤ most_calls }
{
    let head = read_head_bytes(alloc, reader, most_calls)?;
    let (bytes, front) = head.bytes.split_at(head.end);
    hear_after(alloc, router, scratch, reader, bytes, front, most_calls)
}
