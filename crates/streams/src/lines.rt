//! A buffer of lines.

ghost use Rattle.std.specs.Prelude.{◌≡◌, ◌-◌, ◌<◌, ◌≤◌, ◌^◌, [], ℕ, List, Option, length, IfOk};
ghost use Rattle.std.specs.Prelude.{MatchResult};
ghost use Rattle.streams.specs.Some.{SomeCalls, SomeFaults};
ghost use Rattle.streams.specs.Handed.{Handed, HandsOut};
ghost use Rattle.streams.specs.Held.{Holds, HasLine, nothing, size, TellsWhole, TellsEmpty};
ghost use Rattle.streams.specs.Filled.{Fills, StopsFilling};
ghost use Rattle.streams.specs.Lines.{first_line, NoFeed};

use crate::feed::feed_from;
use crate::room::{keep, read_after};
use crate::{Counted, SomeRead};
use std::alloc::{AllocError, Global};
use std::io::Read;
use std::marker::Model;
use thiserror::Error;

/// The greatest length of a line in bytes, without its line feed.
pub const MAX_LINE: usize = 300_000;

// Room for a line and its line feed.
const ROOM: usize = MAX_LINE + 1;

/// A line has more than [`MAX_LINE`] bytes, which were dropped.
#[derive(Clone, Copy, Debug, Drop, Error)]
#[error("too-long")]
pub struct TooLong;

/// What was read of a stream and not handed out, in one buffer that never grows: whole lines, and
/// what there is of the next. Of a line that is too long the bytes are dropped as they come.
#[derive(Drop)]
pub struct Lines {
    buffer: Vec<u8>,
    // The bytes from here to the end are held.
    start: usize,
    // The first line feed among them, or their end.
    feed: usize,
    end: usize,
    // Bytes of the first line were dropped.
    too_long: bool,
}

impl Model for Lines {
    ghost use Rattle.std.specs.Prelude.{slice_range};
    ghost use Rattle.streams.specs.Held.{Held, IsSound};

    ghost Value = { Held };

    ghost view = { λ l. record {
      bytes = slice_range l.buffer.items l.start l.end;
      too_long = l.too_long;
    } };

    ghost invariant = { λ l. IsSound l.buffer.items l.start l.feed l.end };
}

impl Lines {
    /// Nothing, with the room for a line and its line feed.
    pub fn new(alloc: Global) -> Result<Lines, AllocError>
        ensures nothing { IfOk result (λ lines. lines ≡ nothing) }
        ensures handed { IfOk result (λ lines. (stream : Option (List ℕ)) →
            Handed lines stream stream []) }
    {
        let buffer = Vec::from_elem(alloc, 0u8, ROOM)?;
        Ok(Lines {
            buffer,
            start: 0,
            feed: 0,
            end: 0,
            too_long: false,
        })
    }

    // Whether a whole line is held, with its line feed.
    pub(crate) fn has_line(&self) -> bool
        ensures { TellsWhole self.now result }
    {
        self.feed < self.end
    }

    // Whether nothing is held, and nothing was dropped.
    pub(crate) fn is_empty(&self) -> bool
        ensures { TellsEmpty self.now result }
    {
        !self.too_long && self.start == self.end
    }

    /// The first line, or what there is of it, without its line feed.
    ///
    /// # Errors
    ///
    /// It is too long.
    pub fn line(&self) -> Result<&[u8], TooLong>
        ensures { (bytes : List ℕ) → Holds self.now bytes → MatchResult result
            (λ line. (line.now ≡ first_line bytes) × (length line.now ≤ MAX_LINE))
            (λ _. MAX_LINE < length (first_line bytes)) }
    {
        let (start, feed) = (self.start, self.feed);
        if self.too_long || feed - start > MAX_LINE {
            return Err(TooLong);
        }
        Ok(&self.buffer[start..feed])
    }

    /// Goes on to the next line.
    pub fn pass(&mut self)
        requires { HasLine self.old.bytes }
        ensures handed { HandsOut self.old self.new }
        ensures less { size self.new < size self.old }
    {
        self.start = self.feed + 1;
        self.feed = feed_from(&self.buffer, self.start, self.end);
        self.too_long = false;
    }

    // Reads some bytes behind those that are held, of which those of a line that is too long are
    // dropped.
    pub(crate) fn fill<R: Read>(&mut self, reader: &mut Counted<R>, most_calls: u64) -> SomeRead
        requires unfinished { NoFeed self.old.bytes }
        requires countable { most_calls < 2 ^ 64 - 1 }
        requires calls { reader.old.calls ≤ most_calls }
        ensures bytes { Fills self.old self.new
            (R.remaining reader.old.inner) (R.remaining reader.new.inner) }
        ensures stopped { StopsFilling self.old self.new (R.remaining reader.new.inner) result }
        ensures calls { SomeCalls reader.old.calls reader.new.calls most_calls result }
        ensures faults { SomeFaults reader.old.faults reader.new.faults result }
    {
        let too_long = self.too_long || self.end - self.start > MAX_LINE;
        let kept = keep(&mut self.buffer, self.start, self.end, too_long);
        let read = read_after(reader, &mut self.buffer, kept, most_calls);
        let end = kept + read.count();
        self.feed = feed_from(&self.buffer, kept, end);
        self.start = 0;
        self.end = end;
        self.too_long = too_long;
        read
    }
}
