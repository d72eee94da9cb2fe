//! Reading some bytes, by as many calls as that takes.

ghost use Rattle.std.specs.Prelude.{◌≡◌, ◌-◌, ◌^◌, ◌<◌, ◌≤◌, length};
ghost use Rattle.streams.specs.Some.{some_count, ReadsSome, SomeFaults, SomeCalls};

use crate::counted::Counted;
use crate::step::{ReadStep, read_step};
use std::io::Read;

/// What came of reading some bytes.
#[derive(Clone, Copy, Debug, PartialEq)]
pub enum SomeRead {
    /// This many bytes, at least one.
    Bytes(usize),
    /// No byte, for none is left.
    End,
    /// No byte, for the reader failed.
    Failed,
    /// No byte, for the reader was called as often as is allowed.
    TooManyReads,
}

impl SomeRead {
    /// How many bytes were read.
    pub fn count(self) -> usize
        ensures { result ≡ some_count self }
    {
        match self {
            SomeRead::Bytes(count) => count,
            SomeRead::End => 0,
            SomeRead::Failed => 0,
            SomeRead::TooManyReads => 0,
        }
    }
}

/// Reads into the front of the buffer. An interrupted read is made again, until the reader has
/// counted `most_calls`.
pub fn read_some<R: Read>(reader: &mut Counted<R>, buffer: &mut [u8], most_calls: u64) -> SomeRead
    requires room { 0 < length buffer.old }
    requires countable { most_calls < 2 ^ 64 - 1 }
    requires calls { reader.old.calls ≤ most_calls }
    ensures bytes { ReadsSome
        (R.remaining reader.old.inner) (R.remaining reader.new.inner) result buffer.new }
    ensures calls { SomeCalls reader.old.calls reader.new.calls most_calls result }
    ensures faults { SomeFaults reader.old.faults reader.new.faults result }
{
    while reader.calls() < most_calls {
        match read_step(reader, buffer) {
            ReadStep::Bytes(count) => return SomeRead::Bytes(count),
            ReadStep::Interrupted => {}
            ReadStep::End => return SomeRead::End,
            ReadStep::Failed => return SomeRead::Failed,
        }
    }
    SomeRead::TooManyReads
}
