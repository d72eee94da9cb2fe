//! Reading the bodies of a log, one by one, up to the first byte that isn't sealed.

ghost use Rattle.std.specs.Prelude.{◌≤◌, ◌<◌, ◌^◌};

use crate::fault::LogFault;
use crate::lines::read_line;
use crate::seals::{self, Seal, body_of, seal_in};
use crate::through::Through;
use sqlite_disk::Disk;
use std::alloc::Global;

/// A reader of a log.
#[derive(Drop)]
pub struct Reader {
    // How long the file is, and where the next line begins.
    len: usize,
    at: usize,
    // The seal of what stands before that.
    seal: Seal,
    ghost within: { at ≤ len },
    ghost small: { len < 2 ^ 64 },
}

impl Reader {
    ghost use Rattle.std.specs.Prelude.{◌≡◌, ◌<◌, length, IsTrue, IfErr, IfOk, IfSome, OnErr};
    ghost use Rattle.sealed_log.specs.Disks.{IsRead};
    ghost use Rattle.sealed_log.specs.Faults.{IsMetBetween};
    ghost use Rattle.sealed_log.specs.Sealed.{no_seal};
    ghost use Rattle.sealed_log.specs.Reading.{IsNext};

    /// A reader of a file of so many bytes.
    pub fn new(len: usize) -> Reader
        ensures len { result.len ≡ len }
        ensures at { result.at ≡ 0 }
        ensures seal { result.seal ≡ no_seal }
    {
        Reader {
            len,
            at: 0,
            seal: seals::no_seal(),
        }
    }

    /// Where it stands: at the end of what it found sealed.
    pub fn at(&self) -> usize
        ensures { result ≡ self.now.at }
    {
        self.at
    }

    /// The seal of what it found.
    pub fn seal(&self) -> Seal
        ensures { result ≡ self.now.seal }
    {
        self.seal
    }

    // What it found, where it stands at the end and read so many lines.
    pub(crate) fn through(self, lines: u64) -> Through
        ensures len { result.len ≡ self.len }
        ensures at { result.at ≡ self.at }
        ensures seal { result.seal ≡ self.seal }
        ensures lines { result.lines ≡ lines }
    {
        Through::new(self.len, self.at, self.seal, lines)
    }

    /// The next body, or `None` where what stands there isn't sealed.
    ///
    /// # Errors
    ///
    /// The fault of the call of the disk that failed, or `NoMemory`.
    pub fn next<D: Disk>(
        &mut self,
        alloc: Global,
        disk: &mut D,
    ) -> Result<Option<Vec<u8>>, LogFault>
        requires { IsTrue (D.is_usable disk.old) }
        ensures read { IsRead D.Disk disk.old disk.new }
        ensures len { self.new.len ≡ self.old.len }
        ensures further { IfOk result (λ found. IfSome found (λ _. self.old.at < self.new.at)) }
        ensures kept { OnErr result (self.new ≡ self.old) }
        ensures word { IsTrue (D.is_clean disk.new) → self.old.len ≡ length (D.seen disk.old)
            → IfErr result (IsMetBetween D.Disk disk.old disk.new) }
        ensures next { IfOk result (λ found. IsTrue (D.is_clean disk.new)
            → self.old.len ≡ length (D.seen disk.old)
            → IsNext (D.seen disk.old) self.old self.new found) }
    {
        match read_line(alloc, disk, self.len, self.at)? {
            Some(line) => match seal_in(alloc, &self.seal, &line)? {
                Some(seal) => {
                    let body = body_of(alloc, &line)?;
                    self.at += line.len() + 1;
                    self.seal = seal;
                    Ok(Some(body))
                }
                None => Ok(None),
            },
            None => Ok(None),
        }
    }
}
