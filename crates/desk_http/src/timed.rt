//! A stream whose calls end by a deadline.

ghost use Rattle.std.specs.Prelude.{◌≡◌, Result, ⊤};
ghost use Rattle.std.specs.Io.{ReadsAtMost, WritesAtMost};
ghost use Rattle.std.specs.Io.KnownBytes.{Keeps, ReadConsumes, WriteAppends};
ghost use Rattle.std.specs.declared.io.Error.{Error};
ghost use Rattle.std.specs.declared.time.Duration.{Duration};
ghost use Rattle.desk_http.specs.Clocks.{IsLeft, IsTimed};

use crate::clock::PassClock;
use crate::deadline::Deadline;
use std::io;
use std::io::{Read, Write};
use std::net::TcpStream;
use std::time::{Clock, Duration};
use streams::{PassRead, PassWrite};

/// What has time-outs: a call that would wait longer fails.
pub trait Timeouts {
    /// How long a read may wait was set, or couldn't be.
    ghost read_waits: { Self → Duration → Result ⊤ Error → Type 0 } = { λ _ _ _. ⊤ };

    /// And a write.
    ghost write_waits: { Self → Duration → Result ⊤ Error → Type 0 } = { λ _ _ _. ⊤ };

    /// How long a read may wait.
    fn set_read_timeout(&self, left: Duration) -> io::Result<()>
        ensures { read_waits self.now left result };

    /// How long a write may wait.
    fn set_write_timeout(&self, left: Duration) -> io::Result<()>
        ensures { write_waits self.now left result };
}

impl Timeouts for TcpStream {
    fn set_read_timeout(&self, left: Duration) -> io::Result<()> {
        TcpStream::set_read_timeout(self, Some(left))
    }

    fn set_write_timeout(&self, left: Duration) -> io::Result<()> {
        TcpStream::set_write_timeout(self, Some(left))
    }
}

/// A stream with the same bytes, of which no call waits past a deadline: each fails that would, and
/// each after it.
#[derive(Drop)]
pub struct Timed<'c, C: Clock, T> {
    stream: T,
    deadline: Deadline<'c, C>,
}

impl<'c, C: PassClock, T> Timed<'c, C, T> {
    /// The stream until this deadline.
    pub fn new(stream: T, deadline: &Deadline<'c, C>) -> Timed<'c, C, T>
        ensures stream { result.stream ≡ stream }
        ensures clock { result.deadline.clock.now ≡ deadline.now.clock.now }
        ensures end { result.deadline.end ≡ deadline.now.end }
    {
        Timed {
            stream,
            deadline: deadline.again(),
        }
    }
}

impl<C: Clock, T: Drop> Timed<'_, C, T> {
    /// The stream itself.
    pub fn into_inner(self) -> T
        ensures { result ≡ self.entry.stream }
    {
        let Timed {
            stream,
            deadline: _,
        } = self;
        stream
    }
}

impl<C: PassClock, T: PassRead + Timeouts> Read for Timed<'_, C, T> {
    ghost remaining = { λ t. T.remaining t.stream };

    fn read(&mut self, buf: &mut [u8]) -> io::Result<usize>
        ensures bound { ReadsAtMost result buf.new }
        ensures bytes { ReadConsumes
            (T.remaining self.old.stream) (T.remaining self.new.stream) result buf.new }
        ensures timed { IsTimed (IsLeft (C.shows self.old.deadline.clock.now) self.old.deadline.end)
            (T.read_waits self.old.stream)
            (λ read. T.gives self.old.stream self.new.stream read buf.new)
            (self.new.stream ≡ self.old.stream) result }
        ensures deadline { self.new.deadline ≡ self.old.deadline }
    {
        let left = self.deadline.left()?;
        self.stream.set_read_timeout(left)?;
        self.stream.pass_read(buf)
    }
}

impl<C: PassClock, T: PassWrite + Timeouts> Write for Timed<'_, C, T> {
    ghost contents = { λ t. T.contents t.stream };

    fn write(&mut self, buf: &[u8]) -> io::Result<usize>
        ensures bound { WritesAtMost result buf.now }
        ensures bytes { WriteAppends
            (T.contents self.old.stream) (T.contents self.new.stream) result buf.now }
        ensures timed { IsTimed (IsLeft (C.shows self.old.deadline.clock.now) self.old.deadline.end)
            (T.write_waits self.old.stream)
            (λ wrote. T.takes self.old.stream self.new.stream wrote buf.now)
            (self.new.stream ≡ self.old.stream) result }
    {
        let left = self.deadline.left()?;
        self.stream.set_write_timeout(left)?;
        self.stream.pass_write(buf)
    }

    fn flush(&mut self) -> io::Result<()>
        ensures bytes { Keeps (T.contents self.old.stream) (T.contents self.new.stream) }
        ensures passed { T.flushes self.old.stream self.new.stream result }
    {
        self.stream.pass_flush()
    }
}
