//! The next line of a stream.

ghost use Rattle.std.specs.Prelude.{◌≡◌, ◌-◌, ◌≤◌, ◌<◌, ◌^◌};
ghost use Rattle.streams.specs.Found.{IsFound, FoundFaults, work};
ghost use Rattle.streams.specs.Handed.{KeepsHanded};
ghost use Rattle.streams.specs.Held.{HasLine};

use crate::lines::Lines;
use crate::{Counted, SomeRead};
use std::io::Read;

/// What is found in a stream.
#[derive(Clone, Copy, Debug, PartialEq)]
pub enum Found {
    /// A whole line is held.
    Line,
    /// The stream is at its end, and a last line without its line feed is held.
    LastLine,
    /// The stream is at its end, and nothing is held.
    End,
    /// The reader failed. What there is of the next line is held.
    Failed,
    /// The reader was called as often as is allowed. What there is of the next line is held.
    TooManyReads,
}

impl Lines {
    /// Reads until a whole line is held, or nothing more is read. Where a line is held already the
    /// reader isn't called. An interrupted read is made again, until the reader has counted
    /// `most_calls`.
    pub fn find<R: Read>(&mut self, reader: &mut Counted<R>, most_calls: u64) -> Found
        requires countable { most_calls < 2 ^ 64 - 1 }
        requires calls { reader.old.calls ≤ most_calls }
        ensures found { IsFound self.new (R.remaining reader.new.inner) result }
        ensures handed { KeepsHanded self.old self.new
            (R.remaining reader.old.inner) (R.remaining reader.new.inner) }
        ensures held { HasLine self.old.bytes → reader.new ≡ reader.old }
        ensures calls { reader.new.calls ≤ most_calls }
        ensures too_many { result ≡ Found.TooManyReads → reader.new.calls ≡ most_calls }
        ensures faults { FoundFaults reader.old.faults reader.new.faults result }
        ensures work { work most_calls reader.new.calls self.new
            ≤ work most_calls reader.old.calls self.old }
    {
        while !self.has_line() {
            match self.fill(reader, most_calls) {
                SomeRead::Bytes(_) => {}
                SomeRead::End => {
                    return if self.is_empty() {
                        Found::End
                    } else {
                        Found::LastLine
                    };
                }
                SomeRead::Failed => return Found::Failed,
                SomeRead::TooManyReads => return Found::TooManyReads,
            }
        }
        Found::Line
    }
}
