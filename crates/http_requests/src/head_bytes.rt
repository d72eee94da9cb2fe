//! The bytes of a head, as they come.

ghost use Rattle.std.specs.Prelude.{◌^◌, ◌-◌, ◌<◌, ◌≤◌};
ghost use Rattle.http_requests.specs.Heard.{HasHead, HearCounts};

use crate::end::head_end;
use crate::unheard::Unheard;
use std::alloc::Global;
use std::io::Read;
use streams::{Counted, SomeRead, Unread, read_some};

// How many bytes are read at once.
const CHUNK: usize = 4096;

/// The first bytes of an exchange: a head, and what was read behind it.
#[derive(Drop)]
pub(crate) struct HeadBytes {
    /// All of them.
    pub(crate) bytes: Vec<u8>,
    /// Where the head ends among them.
    pub(crate) end: usize,
}

/// Reads until the head has ended. An interrupted read is made again, until the reader has counted
/// `most_calls`.
///
/// # Errors
///
/// The head is too long, or the stream ended before it, or it couldn't be read.
pub(crate) fn read_head_bytes<R: Read>(
    alloc: Global,
    reader: &mut Counted<R>,
    most_calls: u64,
) -> Result<HeadBytes, Unheard>
    requires countable { most_calls < 2 ^ 64 - 1 }
    requires calls { reader.old.calls ≤ most_calls }
    ensures head { HasHead (R.remaining reader.old.inner) (R.remaining reader.new.inner) result }
    ensures counts { HearCounts reader.old.calls reader.new.calls most_calls
        reader.old.faults reader.new.faults result }
    ensures calls { reader.new.calls ≤ most_calls }
{
    let mut bytes = Vec::new(alloc);
    let mut chunk = [0u8; CHUNK];
    let mut searched = 0;
    loop {
        if let Some(end) = head_end(&bytes, searched)? {
            return Ok(HeadBytes { bytes, end });
        }
        searched = bytes.len();
        match read_some(reader, &mut chunk, most_calls) {
            SomeRead::Bytes(count) => bytes.extend_from_slice(&chunk[..count])?,
            SomeRead::End => return Err(Unheard::Ended),
            SomeRead::Failed => return Err(Unheard::Unread(Unread::Failed)),
            SomeRead::TooManyReads => return Err(Unheard::Unread(Unread::TooManyReads)),
        }
    }
}
