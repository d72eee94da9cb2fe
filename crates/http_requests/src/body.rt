//! The body of a request, as it comes.

ghost use Rattle.std.specs.Prelude.{◌^◌, ◌-◌, ◌<◌, ◌≤◌, vec_len};
ghost use Rattle.streams.specs.Some.{SomeCalls, SomeFaults};
ghost use Rattle.http_requests.specs.Heard.{Fills, HasBody, HearCounts, ReadsBehind};

use crate::unheard::Unheard;
use std::alloc::Global;
use std::io::Read;
use streams::{Counted, SomeRead, Unread, read_some};

/// The body of this size, of which a front part may have been read with the head; more than that
/// isn't looked at. An interrupted read is made again, until the reader has counted `most_calls`.
///
/// # Errors
///
/// The stream ended before it, or it couldn't be read.
pub(crate) fn read_body<R: Read>(
    alloc: Global,
    reader: &mut Counted<R>,
    front: &[u8],
    size: usize,
    most_calls: u64,
) -> Result<Vec<u8>, Unheard>
    requires countable { most_calls < 2 ^ 64 - 1 }
    requires calls { reader.old.calls ≤ most_calls }
    ensures body { HasBody (R.remaining reader.old.inner) (R.remaining reader.new.inner)
        (λ body. body.items) front.now size result }
    ensures counts { HearCounts reader.old.calls reader.new.calls most_calls
        reader.old.faults reader.new.faults result }
    ensures calls { reader.new.calls ≤ most_calls }
{
    let held = front.len().min(size);
    let mut body = Vec::with_capacity(alloc, size)?;
    body.extend_from_slice(&front[..held])?;
    body.resize(size, 0)?;
    fill(reader, &mut body, held, most_calls)?;
    Ok(body)
}

// Reads until a body is full, behind the bytes that are kept at its front.
fn fill<R: Read>(
    reader: &mut Counted<R>,
    body: &mut Vec<u8>,
    kept: usize,
    most_calls: u64,
) -> Result<(), Unheard>
    requires within { kept ≤ vec_len body.old }
    requires countable { most_calls < 2 ^ 64 - 1 }
    requires calls { reader.old.calls ≤ most_calls }
    ensures filled { Fills (R.remaining reader.old.inner) (R.remaining reader.new.inner)
        kept body.old.items body.new.items result }
    ensures counts { HearCounts reader.old.calls reader.new.calls most_calls
        reader.old.faults reader.new.faults result }
    ensures calls { reader.new.calls ≤ most_calls }
{
    let mut filled = kept;
    while filled < body.len() {
        match read_behind(reader, body, filled, most_calls) {
            SomeRead::Bytes(count) => filled += count,
            SomeRead::End => return Err(Unheard::Ended),
            SomeRead::Failed => return Err(Unheard::Unread(Unread::Failed)),
            SomeRead::TooManyReads => return Err(Unheard::Unread(Unread::TooManyReads)),
        }
    }
    Ok(())
}

// Reads some bytes of a body, behind those that are kept at its front.
fn read_behind<R: Read>(
    reader: &mut Counted<R>,
    body: &mut Vec<u8>,
    kept: usize,
    most_calls: u64,
) -> SomeRead
    requires room { kept < vec_len body.old }
    requires countable { most_calls < 2 ^ 64 - 1 }
    requires calls { reader.old.calls ≤ most_calls }
    ensures bytes { ReadsBehind (R.remaining reader.old.inner) (R.remaining reader.new.inner)
        kept body.old.items body.new.items result }
    ensures calls { SomeCalls reader.old.calls reader.new.calls most_calls result }
    ensures faults { SomeFaults reader.old.faults reader.new.faults result }
{
    read_some(reader, &mut body[kept..], most_calls)
}
