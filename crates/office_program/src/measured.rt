//! A file that tells how much of it was read.

ghost use Rattle.std.specs.Prelude.{◌≡◌};
ghost use Rattle.std.specs.Io.{ReadsAtMost, WritesAtMost};
ghost use Rattle.std.specs.Io.KnownBytes.{Keeps, ReadConsumes, WriteAppends};

use crate::line::ReadSoFar;
use crate::meter::Meter;
use std::fs::{Metadata, OpenFile};
use std::io;
use std::io::{Eprint, Read, Seek, SeekFrom, Write};
use std::time::Clock;
use streams::{PassRead, PassWrite};

/// A file with the same bytes. After each read a [`Meter`] is told how much was read, and once the
/// file is closed nothing stands of that.
pub(crate) struct Measured<'m, R: Clock + Eprint, F: Drop> {
    inner: F,
    meter: &'m Meter<R>,
    done: u64,
    whole: Option<u64>,
}

// How many bytes a file has, where it is a regular one. Of another that can't be said.
fn whole_of<F: OpenFile>(file: &F) -> Option<u64> {
    match file.metadata() {
        Ok(metadata) if metadata.is_file() => Some(metadata.len()),
        _ => None,
    }
}

impl<'m, R: Clock + Eprint, F: OpenFile + Drop> Measured<'m, R, F> {
    /// The file. Of one that isn't regular, as a pipe, nothing is told.
    pub(crate) fn new(inner: F, meter: &'m Meter<R>) -> Measured<'m, R, F>
        ensures { result.inner ≡ inner }
    {
        let whole = if meter.is_on() {
            whole_of(&inner)
        } else {
            None
        };
        Measured {
            inner,
            meter,
            done: 0,
            whole,
        }
    }
}

impl<R: Clock + Eprint, F: PassRead + Drop> Read for Measured<'_, R, F> {
    ghost remaining = { λ file. F.remaining file.inner };

    fn read(&mut self, buf: &mut [u8]) -> io::Result<usize>
        ensures bound { ReadsAtMost result buf.new }
        ensures bytes { ReadConsumes
            (F.remaining self.old.inner) (F.remaining self.new.inner) result buf.new }
        ensures passed { F.gives self.old.inner self.new.inner result buf.new }
    {
        let result = self.inner.pass_read(buf);
        if let (Ok(count), Some(whole)) = (&result, self.whole) {
            self.done = self.done.saturating_add(*count as u64);
            let done = self.done;
            self.meter.note(ReadSoFar { done, whole });
        }
        result
    }
}

impl<R: Clock + Eprint, F: PassWrite + Drop> Write for Measured<'_, R, F> {
    ghost contents = { λ file. F.contents file.inner };

    fn write(&mut self, buf: &[u8]) -> io::Result<usize>
        ensures bound { WritesAtMost result buf.now }
        ensures bytes { WriteAppends
            (F.contents self.old.inner) (F.contents self.new.inner) result buf.now }
        ensures passed { F.takes self.old.inner self.new.inner result buf.now }
    {
        self.inner.pass_write(buf)
    }

    fn flush(&mut self) -> io::Result<()>
        ensures bytes { Keeps (F.contents self.old.inner) (F.contents self.new.inner) }
        ensures passed { F.flushes self.old.inner self.new.inner result }
    {
        self.inner.pass_flush()
    }
}

impl<R: Clock + Eprint, F: Seek + Drop> Seek for Measured<'_, R, F> {
    ghost stream_position = { λ file. F.stream_position file.inner };

    ghost stream_bytes = { λ file. F.stream_bytes file.inner };

    fn seek(&mut self, to: SeekFrom) -> io::Result<u64> {
        self.inner.seek(to)
    }
}

impl<R: Clock + Eprint, F: OpenFile + Drop> OpenFile for Measured<'_, R, F> {
    fn metadata(&self) -> io::Result<Metadata> {
        self.inner.metadata()
    }

    fn set_len(&self, size: u64) -> io::Result<()> {
        self.inner.set_len(size)
    }

    fn sync_all(&self) -> io::Result<()> {
        self.inner.sync_all()
    }

    fn sync_data(&self) -> io::Result<()> {
        self.inner.sync_data()
    }
}

impl<R: Clock + Eprint, F: Drop> Drop for Measured<'_, R, F> {
    fn drop(self) {
        let Measured {
            inner,
            meter,
            done: _,
            whole: _,
        } = self;
        drop(inner);
        meter.clear();
    }
}
