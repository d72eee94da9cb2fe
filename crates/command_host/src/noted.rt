//! A file that notes whether a call of read on it failed.

ghost use Rattle.std.specs.Prelude.{◌≡◌, None, false, true};
ghost use Rattle.std.specs.Io.{ReadsAtMost};
ghost use Rattle.std.specs.Io.KnownBytes.{ReadConsumes};
ghost use Rattle.command_host.specs.FailedCalls.{CallFailed, IsNoted};

use crate::files::PassFiles;
use std::io;
use std::io::Read;
use streams::is_interrupted;

/// That it wasn't noted of a file that a call of read failed. Its field is private, so none is made of
/// a file whose call failed.
#[derive(Clone, Copy, Drop)]
pub struct NoneFailed {
    failed: bool,
    ghost none: { failed ≡ false },
}

/// A file that was opened, which notes whether a call of read on it failed, whoever made that. An
/// interrupted one hasn't failed.
#[derive(Drop)]
pub struct Noted<'f, F: PassFiles> {
    files: &'f F,
    file: F::File,
    failed: bool,
    ghost failure: { failed ≡ true → ∥ CallFailed F.gives ∥₁ },
}

impl<'f, F: PassFiles> Noted<'f, F> {
    /// The file, of which no call has failed.
    pub fn new(files: &'f F, file: F::File) -> Noted<'f, F>
        ensures file { result.file ≡ file }
        ensures none { result.failed ≡ false }
    {
        Noted {
            files,
            file,
            failed: false,
        }
    }

    /// That it wasn't noted that a call of read failed; none where one did.
    pub fn none_failed(&self) -> Option<NoneFailed>
        ensures noted { self.now.failed ≡ true → result ≡ None }
        ensures call { result ≡ None → ∥ CallFailed F.gives ∥₁ }
    {
        if self.failed {
            None
        } else {
            Some(NoneFailed { failed: false })
        }
    }
}

impl<F: PassFiles> Read for Noted<'_, F> {
    ghost remaining = { λ noted. F.File.remaining noted.file };

    fn read(&mut self, buf: &mut [u8]) -> io::Result<usize>
        ensures bound { ReadsAtMost result buf.new }
        ensures bytes { ReadConsumes
            (F.File.remaining self.old.file) (F.File.remaining self.new.file) result buf.new }
        ensures passed { F.gives self.old.file self.new.file result buf.new }
        ensures noted { IsNoted self.old.failed self.new.failed result }
    {
        let result = self.files.read_in(&mut self.file, buf);
        if let Err(error) = &result {
            if !is_interrupted(error) {
                self.failed = true;
            }
        }
        result
    }
}
