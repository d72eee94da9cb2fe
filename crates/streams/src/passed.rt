//! Calls that are passed on, so that what they give can't be made up.

ghost use Rattle.std.specs.Prelude.{ℕ, List, Result, ⊤};
ghost use Rattle.std.specs.Io.{ReadsAtMost, WritesAtMost};
ghost use Rattle.std.specs.Io.KnownBytes.{Keeps, ReadConsumes, WriteAppends};
ghost use Rattle.std.specs.declared.io.Error.{Error};

use std::io;
use std::io::{Read, Write};

/// A reader, as seen by who passes its calls on. Of `gives` nothing is known but that a call meets
/// it, so that who promises it has called, and returns what the call returned.
pub trait PassRead: Read {
    ghost gives: { (old new : Self) → Result ℕ Error → List ℕ → Type 0 };

    /// One call of [`Read::read`].
    fn pass_read(&mut self, buf: &mut [u8]) -> io::Result<usize>
        ensures bound { ReadsAtMost result buf.new }
        ensures bytes { ReadConsumes
            (Self.remaining self.old) (Self.remaining self.new) result buf.new }
        ensures gives { gives self.old self.new result buf.new };
}

impl<R: Read> PassRead for R {
    ghost gives = { λ old new result buf.
        ReadConsumes (R.remaining old) (R.remaining new) result buf };

    fn pass_read(&mut self, buf: &mut [u8]) -> io::Result<usize> {
        self.read(buf)
    }
}

/// A writer, as seen by who passes its calls on. Of `takes` and `flushes` nothing is known but that
/// a call meets them, so that who promises them has called, and returns what the call returned.
pub trait PassWrite: Write {
    ghost takes: { (old new : Self) → Result ℕ Error → List ℕ → Type 0 };

    ghost flushes: { (old new : Self) → Result ⊤ Error → Type 0 };

    /// One call of [`Write::write`].
    fn pass_write(&mut self, buf: &[u8]) -> io::Result<usize>
        ensures bound { WritesAtMost result buf.now }
        ensures bytes { WriteAppends
            (Self.contents self.old) (Self.contents self.new) result buf.now }
        ensures takes { takes self.old self.new result buf.now };

    /// One call of [`Write::flush`].
    fn pass_flush(&mut self) -> io::Result<()>
        ensures bytes { Keeps (Self.contents self.old) (Self.contents self.new) }
        ensures flushes { flushes self.old self.new result };
}

impl<W: Write> PassWrite for W {
    ghost takes = { λ old new result buf.
        WriteAppends (W.contents old) (W.contents new) result buf };

    ghost flushes = { λ old new result. Keeps (W.contents old) (W.contents new) };

    fn pass_write(&mut self, buf: &[u8]) -> io::Result<usize> {
        self.write(buf)
    }

    fn pass_flush(&mut self) -> io::Result<()> {
        self.flush()
    }
}
