//! A reader or a writer that counts its calls.

ghost use Rattle.std.specs.Prelude.{◌≡◌, ◌↔◌, IsTrue};
ghost use Rattle.std.specs.Io.{ReadsAtMost, WritesAtMost};
ghost use Rattle.std.specs.Io.KnownBytes.{Keeps, ReadConsumes, WriteAppends};
ghost use Rattle.std.specs.IoError.{error_kind};
ghost use Rattle.streams.specs.Counts.{one_more, CountsRead, CountsWrite};

use crate::passed::{PassRead, PassWrite};
use std::io;
use std::io::{ErrorKind, Read, Write};

/// A reader or a writer with the same bytes, which counts its calls of read or write and those that
/// failed.
///
/// Both counts begin at 0 and stay at the greatest `u64` once there. An interrupted read hasn't
/// failed; a write that is interrupted has, and so has one that takes none of some bytes.
#[derive(Drop)]
pub struct Counted<T> {
    inner: T,
    calls: u64,
    faults: u64,
}

impl<T> Counted<T> {
    /// The reader or writer, with its counts at 0.
    pub fn new(inner: T) -> Counted<T>
        ensures inner { result.inner ≡ inner }
        ensures calls { result.calls ≡ 0 }
        ensures faults { result.faults ≡ 0 }
    {
        Counted {
            inner,
            calls: 0,
            faults: 0,
        }
    }

    /// How many calls of read or write there were.
    pub fn calls(&self) -> u64
        ensures { result ≡ self.now.calls }
    {
        self.calls
    }

    /// How many of them failed.
    pub fn faults(&self) -> u64
        ensures { result ≡ self.now.faults }
    {
        self.faults
    }
}

impl<T: Drop> Counted<T> {
    /// The reader or the writer itself.
    pub fn into_inner(self) -> T
        ensures { result ≡ self.inner }
    {
        let Counted {
            inner,
            calls: _,
            faults: _,
        } = self;
        inner
    }
}

impl<R: PassRead> Read for Counted<R> {
    ghost remaining = { λ c. R.remaining c.inner };

    fn read(&mut self, buf: &mut [u8]) -> io::Result<usize>
        ensures bound { ReadsAtMost result buf.new }
        ensures bytes { ReadConsumes
            (R.remaining self.old.inner) (R.remaining self.new.inner) result buf.new }
        ensures passed { R.gives self.old.inner self.new.inner result buf.new }
        ensures calls { self.new.calls ≡ one_more self.old.calls }
        ensures faults { CountsRead self.old.faults self.new.faults result }
    {
        self.calls = self.calls.saturating_add(1);
        let result = self.inner.pass_read(buf);
        if let Err(error) = &result {
            if !is_interrupted(error) {
                self.faults = self.faults.saturating_add(1);
            }
        }
        result
    }
}

impl<W: PassWrite> Write for Counted<W> {
    ghost contents = { λ c. W.contents c.inner };

    fn write(&mut self, buf: &[u8]) -> io::Result<usize>
        ensures bound { WritesAtMost result buf.now }
        ensures bytes { WriteAppends
            (W.contents self.old.inner) (W.contents self.new.inner) result buf.now }
        ensures passed { W.takes self.old.inner self.new.inner result buf.now }
        ensures calls { self.new.calls ≡ one_more self.old.calls }
        ensures faults { CountsWrite self.old.faults self.new.faults buf.now result }
    {
        self.calls = self.calls.saturating_add(1);
        let result = self.inner.pass_write(buf);
        let failed = match &result {
            Ok(taken) => *taken == 0 && !buf.is_empty(),
            Err(_) => true,
        };
        if failed {
            self.faults = self.faults.saturating_add(1);
        }
        result
    }

    fn flush(&mut self) -> io::Result<()>
        ensures bytes { Keeps (W.contents self.old.inner) (W.contents self.new.inner) }
        ensures passed { W.flushes self.old.inner self.new.inner result }
        ensures calls { self.new.calls ≡ self.old.calls }
        ensures faults { self.new.faults ≡ self.old.faults }
    {
        self.inner.pass_flush()
    }
}

/// Whether a call was interrupted, so that it may be made again.
pub fn is_interrupted(error: &io::Error) -> bool
    ensures { IsTrue result ↔ (error_kind error.now ≡ ErrorKind.Interrupted) }
{
    matches!(error.kind(), ErrorKind::Interrupted)
}
