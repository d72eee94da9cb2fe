//! The room of a buffer: making it, and reading into it.

ghost use Rattle.std.specs.Prelude.{◌≡◌, ◌+◌, ◌-◌, ◌^◌, ◌<◌, ◌≤◌, [], length, take, drop};
ghost use Rattle.std.specs.Prelude.{slice_range, vec_len, if◌then◌else◌};
ghost use Rattle.std.specs.Io.KnownBytes.{Consumes};
ghost use Rattle.streams.specs.Some.{some_count, SomeCalls, SomeFaults};
ghost use Rattle.streams.specs.Filled.{EndsAfter};

use crate::{Counted, SomeRead, read_some};
use std::io::Read;

/// Moves a part of the buffer to its front, and says how much that is. Nothing is kept where that
/// is asked.
pub fn keep(buffer: &mut Vec<u8>, start: usize, end: usize, drops: bool) -> usize
    requires ordered { start ≤ end }
    requires in_bounds { end ≤ vec_len buffer.old }
    ensures bytes { take result buffer.new.items
        ≡ (if drops then [] else slice_range buffer.old.items start end) }
    ensures length { vec_len buffer.new ≡ vec_len buffer.old }
    ensures fits { result + start ≤ end }
{
    if drops {
        return 0;
    }
    if start > 0 {
        buffer.copy_within(start..end, 0);
    }
    end - start
}

/// Reads some bytes into the buffer, after those that are kept at its front.
pub fn read_after<R: Read>(
    reader: &mut Counted<R>,
    buffer: &mut Vec<u8>,
    kept: usize,
    most_calls: u64,
) -> SomeRead
    requires room { kept < vec_len buffer.old }
    requires countable { most_calls < 2 ^ 64 - 1 }
    requires calls { reader.old.calls ≤ most_calls }
    ensures kept { take kept buffer.new.items ≡ take kept buffer.old.items }
    ensures length { vec_len buffer.new ≡ vec_len buffer.old }
    ensures fits { kept + some_count result ≤ vec_len buffer.old }
    ensures bytes { Consumes (R.remaining reader.old.inner) (R.remaining reader.new.inner)
        (take (some_count result) (drop kept buffer.new.items)) }
    ensures end { EndsAfter (R.remaining reader.new.inner) result }
    ensures calls { SomeCalls reader.old.calls reader.new.calls most_calls result }
    ensures faults { SomeFaults reader.old.faults reader.new.faults result }
{
    read_some(reader, &mut buffer[kept..], most_calls)
}
