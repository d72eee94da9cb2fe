//! A journal in a sealed log.

ghost use Rattle.std.specs.Prelude.{◌≡◌};
ghost use Rattle.journal.specs.Logs.{told_meant};

use crate::journal::Journal;
use office_words::Fault;
use sealed_log::{LogFault, SealedLog};
use sqlite_disk::Disk;
use std::alloc::Global;

// What came of a line, as an office is told.
fn told(done: Result<(), LogFault>) -> Result<(), Fault>
    ensures { result ≡ told_meant done }
{
    match done {
        Ok(()) => Ok(()),
        Err(LogFault::NoMemory(witness)) => Err(Fault::NoMemory(witness)),
        Err(LogFault::Disk) => Err(Fault::Disk),
        Err(LogFault::Full) => Err(Fault::Full),
    }
}

impl<D: Disk> Journal for SealedLog<D> {
    ghost use Rattle.journal.specs.Logs.{in_log};

    ghost writing = { in_log D.Disk };

    fn takes_lines(&self) -> bool {
        self.is_open()
    }

    fn lines(&self) -> u64 {
        SealedLog::lines(self)
    }

    fn append(&mut self, alloc: Global, body: &[u8]) -> Result<(), Fault> {
        let done = self.put(alloc, body);
        told(done)
    }

    fn append_both(&mut self, alloc: Global, first: &[u8], body: &[u8]) -> Result<(), Fault> {
        let done = self.put_both(alloc, first, body);
        told(done)
    }
}
