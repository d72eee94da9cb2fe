//! The streams of a command whose reader may go before its end.

ghost use Rattle.std.specs.Io.{WritesAtMost};
ghost use Rattle.std.specs.Io.KnownBytes.{Keeps, WriteAppends};

use std::cell::Cell;
use std::io;
use std::io::{ErrorKind, Write};
use streams::PassWrite;

/// A writer with the same bytes, which notes that nobody reads them any more.
#[derive(Drop)]
pub(crate) struct Noting<'g, W> {
    inner: W,
    gone: &'g Cell<bool>,
}

impl<'g, W> Noting<'g, W> {
    /// The writer, and where it is noted.
    pub(crate) fn new(inner: W, gone: &'g Cell<bool>) -> Noting<'g, W> {
        Noting { inner, gone }
    }
}

impl<W: PassWrite> Write for Noting<'_, W> {
    ghost contents = { λ writer. W.contents writer.inner };

    fn write(&mut self, buf: &[u8]) -> io::Result<usize>
        ensures bound { WritesAtMost result buf.now }
        ensures bytes { WriteAppends
            (W.contents self.old.inner) (W.contents self.new.inner) result buf.now }
        ensures passed { W.takes self.old.inner self.new.inner result buf.now }
    {
        let result = self.inner.pass_write(buf);
        if let Err(error) = &result {
            if matches!(error.kind(), ErrorKind::BrokenPipe) {
                self.gone.set(true);
            }
        }
        result
    }

    fn flush(&mut self) -> io::Result<()>
        ensures bytes { Keeps (W.contents self.old.inner) (W.contents self.new.inner) }
        ensures passed { W.flushes self.old.inner self.new.inner result }
    {
        self.inner.pass_flush()
    }
}

/// A writer that drops what it is given once nobody reads any more, where it may.
#[derive(Drop)]
pub(crate) struct Quiet<'g, W> {
    inner: W,
    gone: &'g Cell<bool>,
    may_drop: bool,
}

impl<'g, W> Quiet<'g, W> {
    /// The writer, where it is noted that nobody reads, and whether it may drop anything.
    pub(crate) fn new(inner: W, gone: &'g Cell<bool>, may_drop: bool) -> Quiet<'g, W> {
        Quiet {
            inner,
            gone,
            may_drop,
        }
    }
}

impl<W: Write> Write for Quiet<'_, W> {
    fn write(&mut self, buf: &[u8]) -> io::Result<usize> {
        if self.may_drop && self.gone.get() {
            return Ok(buf.len());
        }
        self.inner.write(buf)
    }

    fn flush(&mut self) -> io::Result<()> {
        self.inner.flush()
    }
}
