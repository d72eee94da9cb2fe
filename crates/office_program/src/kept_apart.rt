//! A writer to the terminal on which the line stands.

ghost use Rattle.std.specs.Prelude.{◌≡◌};
ghost use Rattle.std.specs.Io.{WritesAtMost};
ghost use Rattle.std.specs.Io.KnownBytes.{Keeps, WriteAppends};

use crate::meter::Meter;
use std::io;
use std::io::{Eprint, Write};
use std::time::Clock;
use streams::PassWrite;

/// A writer with the same bytes. Where it writes to a terminal, the line of a [`Meter`] is taken away
/// before each write, so that the two don't stand in one line.
#[derive(Drop)]
pub(crate) struct KeptApart<'m, R: Clock + Eprint, W> {
    inner: W,
    meter: &'m Meter<R>,
    on_terminal: bool,
}

impl<'m, R: Clock + Eprint, W> KeptApart<'m, R, W> {
    pub(crate) fn new(inner: W, meter: &'m Meter<R>, on_terminal: bool) -> KeptApart<'m, R, W>
        ensures { result.inner ≡ inner }
    {
        KeptApart {
            inner,
            meter,
            on_terminal,
        }
    }
}

impl<R: Clock + Eprint, W: PassWrite> Write for KeptApart<'_, R, W> {
    ghost contents = { λ writer. W.contents writer.inner };

    fn write(&mut self, buf: &[u8]) -> io::Result<usize>
        ensures bound { WritesAtMost result buf.now }
        ensures bytes { WriteAppends
            (W.contents self.old.inner) (W.contents self.new.inner) result buf.now }
        ensures passed { W.takes self.old.inner self.new.inner result buf.now }
    {
        if self.on_terminal {
            self.meter.clear();
        }
        self.inner.pass_write(buf)
    }

    fn flush(&mut self) -> io::Result<()>
        ensures bytes { Keeps (W.contents self.old.inner) (W.contents self.new.inner) }
        ensures passed { W.flushes self.old.inner self.new.inner result }
    {
        self.inner.pass_flush()
    }
}
